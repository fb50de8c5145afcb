// Rows of pin sets.
ghost use Rattle.std.specs.Prelude.{◌≡◌, length};
ghost use Rattle.coupling.specs.Rows.{Joins, UnionOf};

// At most so many parts have a place in a row.
pub const PARTS: usize = 64;

// What a pin reaches: a set of input pins for each part, and the set of the board's output pins.
// A pin set is a byte, bit k for pin k.
#[derive(Clone, Copy)]
pub struct Row {
    // kept: an array, and no Vec: a row is copied and joined without heap
    pub sets: [u8; 64],
    pub board: u8,
}

impl Row {
    pub fn empty() -> Row
        ensures reaches_nothing { result ≡ Rattle.coupling.specs.Rows.nothing }
    {
        Row {
            sets: [0; 64],
            board: 0,
        }
    }

    // What either row reaches.
    pub fn join(self, other: &Row) -> Row
        ensures reaches_what_either_does { Joins self other.now result }
    {
        let mut sets = self.sets;
        // kept: numbered, and no `zip`: the proof did not close, since no fact says what `zip` over `iter_mut` wrote
        'parts: for (part, set) in sets.iter_mut().enumerate() {
            *set |= other.sets[part];
        }
        Row {
            sets,
            board: self.board | other.board,
        }
    }
}

// What the pins of a set reach, by the rows of pins 0 to 7.
pub(crate) fn union(rows: &[Row], pins: u8) -> Row
    requires one_for_each_pin { length rows.now ≡ 8 }
    ensures is_the_union { UnionOf rows.now pins result }
{
    let mut all = Row::empty();
    'pins: for (pin, row) in rows.iter().enumerate() {
        if (pins >> pin) % 2 == 1 {
            all = all.join(row);
        }
    }
    all
}
