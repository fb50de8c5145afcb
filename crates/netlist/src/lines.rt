// The lines of a file, one after another.
ghost use Rattle.std.specs.Prelude.{◌+◌, ◌≤◌, length};

// What is not read yet, the number of the next line, and how many bytes are read.
#[derive(Clone, Copy)]
pub(crate) struct Lines<'a> {
    pub(crate) rest: &'a [u8],
    pub(crate) number: usize,
    pub(crate) taken: usize,
    ghost few: { number + length rest.now ≤ 32770 },
    ghost short: { taken + length rest.now ≤ 32768 },
}
