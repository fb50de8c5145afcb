// The pins of a board.

// A pin: of a part by its number, or of a block by its number; block 0 is the board.
#[derive(Clone, Copy, PartialEq, Eq, Debug)]
pub enum Pin {
    PartIn { part: usize, pin: u8 },
    PartOut { part: usize, pin: u8 },
    BlockIn { block: usize, pin: u8 },
    BlockOut { block: usize, pin: u8 },
}

// A wire inside a block: from a child's output or the block's own input, to a child's input or the block's own output.
#[derive(Clone, Copy, PartialEq, Eq, Debug)]
pub struct Wire {
    pub from: Pin,
    pub to: Pin,
}
