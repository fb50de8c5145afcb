// What a plan holds.
use names::name::Name;

#[derive(Clone, Copy, PartialEq, Eq, Debug)]
pub struct Block {
    pub name: Name,
    // the block that holds it; the board holds itself
    // kept: a number, and no Option, since the field is public
    pub parent: usize,
    // the board is 1
    pub depth: u8,
    pub ins: u8,
    pub outs: u8,
}

#[derive(Clone, Copy, PartialEq, Eq, Debug)]
pub struct Component {
    pub name: Name,
    // the block that holds it
    pub block: usize,
    pub ins: u8,
    pub outs: u8,
}
