ghost use Rattle.std.specs.Prelude.{◌<◌, ◌≤◌};

// The name of a block or a part: 1 to 8 letters a to z and digits, a letter first.
#[derive(Clone, Copy, PartialEq, Eq, Debug)]
pub struct Name {
    // the bytes of the name, and zeros after them
    // kept: an array with a length, and no String: a name is copied, and making one takes no heap and never runs out of memory
    pub letters: [u8; 8],
    pub len: usize,
    ghost some: { 0 < len },
    ghost few: { len ≤ 8 },
}
