// How many parts and blocks a board has, by which rows are placed while it is flattened.
ghost use Rattle.std.specs.Prelude.{◌≤◌};

#[derive(Clone, Copy)]
pub(crate) struct Layout {
    pub parts: usize,
    pub blocks: usize,
    ghost few_parts: { parts ≤ 64 },
    ghost few_blocks: { blocks ≤ 32 },
}
