// Why a call is refused.
ghost use Rattle.std.specs.Prelude.{◌≡◌};
ghost use Rattle.drawing.specs.declared.fault.Fault.TheVariants.{Memory};
ghost use Rattle.drawing.specs.Faults.{fault_number};

use std::alloc::{AllocError, AllocFailed};

#[derive(Clone, Copy, PartialEq, Eq, Debug)]
pub enum Fault {
    // the text is no name: for a caller that makes names of texts, since each call here takes a name
    BadName,
    // more than 8 pins on a side, or a wire end's pin past 7
    BadPins,
    // a child of the block has this name
    NameTaken,
    TooManyBlocks,
    TooManyParts,
    TooManyWires,
    TooDeep,
    // the wire's first end is not in the block
    NoFrom,
    // the wire's second end is not in the block
    NoTo,
    // the wire joins a child, or the block, to itself
    Loop,
    // the wire stands already
    Twice,
    // the call does not fit: no block is open, or the board is closed
    Misplaced,
    Memory,
}

// kept: by hand, since clauses of the callers read `from_gives`, and a derive promises nothing of it
impl From<AllocError> for Fault {
    ghost from_gives = { λ _ r. r ≡ Memory };

    fn from(_e: AllocError) -> Fault {
        Fault::Memory
    }
}

impl<T: Drop> From<AllocFailed<T>> for Fault {
    ghost from_gives = { λ _ r. r ≡ Memory };

    fn from(_e: AllocFailed<T>) -> Fault {
        Fault::Memory
    }
}

impl Fault {
    // The number of the question that the call failed; 0 where it is none.
    // kept: 0, and no Option, since this is a public promise
    pub fn number(self) -> u8
        ensures is_the_number { result ≡ fault_number self }
    {
        match self {
            Fault::BadName | Fault::BadPins => 4,
            Fault::NameTaken => 5,
            Fault::TooManyBlocks | Fault::TooManyParts | Fault::TooManyWires | Fault::TooDeep => 6,
            Fault::NoFrom | Fault::NoTo => 7,
            Fault::Loop => 8,
            Fault::Twice => 9,
            Fault::Misplaced | Fault::Memory => 0,
        }
    }
}
