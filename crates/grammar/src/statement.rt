// What a line says.
use drawing::ends::WireEnd;
use names::name::Name;

// A kind of part, with its numbers.
#[derive(Clone, Copy)]
pub enum PartKind {
    Gen { period: u16, value: u8, step: u8 },
    Uart { baud: u16 },
    Line { delay: u16 },
}

// What a line inside the board says: a block begins, a part, a wire, or a block ends.
#[derive(Clone, Copy)]
pub enum Statement {
    Open { name: Name, ins: u8, outs: u8 },
    Part { name: Name, kind: PartKind },
    Wire { from: WireEnd, to: WireEnd },
    Close,
}

// What the first line says: how many blocks, parts and wires follow.
#[derive(Clone, Copy)]
pub struct Header {
    pub blocks: u16,
    pub parts: u16,
    pub wires: u16,
}
