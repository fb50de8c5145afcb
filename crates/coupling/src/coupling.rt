// What every coupling answers.
ghost use Rattle.std.specs.Prelude.{◌≡◌, ◌≤◌};
ghost use Rattle.coupling.specs.Wiring.{Wiring, Reaches};

use crate::rows::Row;

// Where a signal comes from: the board's input pins, or the output pins of the part of this number.
#[derive(Clone, Copy)]
pub enum Source {
    Board,
    Part(usize),
}

// A wired board, as the engine asks it.
pub trait Coupling {
    // the flattened network that it stands for
    ghost wiring: { Self → Wiring };

    fn parts(&self) -> usize
        ensures is_the_count { result ≡ (wiring self.now).parts }
        ensures has_rows { result ≤ 64 };

    // How many input pins the board has: 0 up to this number.
    fn inputs(&self) -> u8
        ensures is_the_count { result ≡ (wiring self.now).inputs }
        ensures is_a_pin_count { result ≤ 8 };

    fn reach(&self, source: Source, pins: u8) -> Row
        ensures is_the_union_of_the_rows { Reaches (wiring self.now) source pins result };
}
