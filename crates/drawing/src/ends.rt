// What a call names.
ghost use Rattle.std.specs.Prelude.{◌≡◌};
ghost use Rattle.drawing.specs.Children.{called, child_pin, end_pin};

use board::pins::Pin;
use names::name::Name;

// An end of a wire as it is written: a pin of the block itself, or of a child of this name.
#[derive(Clone, Copy)]
pub enum WireEnd {
    Own { pin: u8 },
    Child { name: Name, pin: u8 },
}

impl WireEnd {
    pub fn pin(self) -> u8
        ensures is_the_pin { result ≡ end_pin self }
    {
        match self {
            WireEnd::Own { pin } | WireEnd::Child { pin, .. } => pin,
        }
    }
}

// Which end of a wire: it begins at an output of a child or an input of the block itself, and ends the other way round.
#[derive(Clone, Copy)]
pub(crate) enum Side {
    From,
    To,
}

// A child that is looked for: of this block, of this name, with at least so many pins.
// kept: beside Component, which has so many pins, while this asks for at least so many
#[derive(Clone, Copy)]
pub struct Wanted {
    pub block: usize,
    pub name: Name,
    pub ins: u8,
    pub outs: u8,
}

impl Wanted {
    // The child of this name, whatever its pins.
    pub(crate) fn called(block: usize, name: Name) -> Wanted
        ensures value { result ≡ called block name }
    {
        Wanted {
            block,
            name,
            ins: 0,
            outs: 0,
        }
    }
}

// A child of a block.
#[derive(Clone, Copy)]
pub enum Found {
    Part(usize),
    Block(usize),
}

impl Found {
    // The pin of the child at which a wire begins, or ends.
    pub(crate) fn pin(self, side: Side, pin: u8) -> Pin
        ensures value { result ≡ child_pin side self pin }
    {
        match (self, side) {
            (Found::Part(part), Side::From) => Pin::PartOut { part, pin },
            (Found::Part(part), Side::To) => Pin::PartIn { part, pin },
            (Found::Block(block), Side::From) => Pin::BlockOut { block, pin },
            (Found::Block(block), Side::To) => Pin::BlockIn { block, pin },
        }
    }
}

// What a new child is to be: its name and its pins.
#[derive(Clone, Copy)]
pub(crate) struct Heading {
    pub name: Name,
    pub ins: u8,
    pub outs: u8,
}

// Where the next block goes: in which block, and how deep that is. The board goes into itself, at 0.
#[derive(Clone, Copy)]
pub struct Site {
    pub parent: usize,
    pub depth: u8,
}
