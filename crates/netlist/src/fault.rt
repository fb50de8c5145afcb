// Why a netlist is refused: the fault of each layer holds that of the layer below whole.
ghost use Rattle.std.specs.Prelude.{◌≡◌};
ghost use Rattle.netlist.specs.declared.fault.BlockFault.TheVariants.{Line};
ghost use Rattle.netlist.specs.declared.fault.BoardFault.TheVariants.{Block};
ghost use Rattle.netlist.specs.Verdicts.{block_verdict, board_verdict, fault_field};

use drawing::fault::Fault;
use grammar::fault::{Layer, LineFault, Verdict};

#[derive(Clone, Copy, PartialEq, Eq, Debug)]
pub enum BlockFault {
    Line(LineFault),
    // the drawing refuses what the line says
    Refused { fault: Fault, line: usize },
    Memory,
}

#[derive(Clone, Copy, PartialEq, Eq, Debug)]
pub enum BoardFault {
    Block(BlockFault),
    // a number of the first line is not that of the board
    Disagrees { field: usize },
}

// kept: each `From` stands by hand, since a derived one promises nothing, and clauses name the fault that a `?` makes
impl From<LineFault> for BlockFault {
    ghost from_gives = { λ e r. r ≡ Line e };

    fn from(line: LineFault) -> BlockFault {
        BlockFault::Line(line)
    }
}

impl From<BlockFault> for BoardFault {
    ghost from_gives = { λ e r. r ≡ Block e };

    fn from(block: BlockFault) -> BoardFault {
        BoardFault::Block(block)
    }
}

// The field that a fault of the drawing points at.
fn field_of(fault: Fault) -> usize
    ensures value { result ≡ fault_field fault }
{
    match fault {
        Fault::NameTaken | Fault::NoFrom => 2,
        Fault::NoTo => 3,
        _ => 0,
    }
}

impl BlockFault {
    // The question that the file fails, and where; nothing for want of memory.
    pub fn verdict(self) -> Option<Verdict>
        ensures is_the_verdict { result ≡ block_verdict self }
    {
        match self {
            BlockFault::Line(fault) => Some(fault.verdict()),
            BlockFault::Refused { fault, line } => Some(Verdict {
                number: fault.number(),
                line,
                field: field_of(fault),
                layer: Layer::Block,
            }),
            BlockFault::Memory => None,
        }
    }
}

impl BoardFault {
    // The question that the file fails, and where; nothing for want of memory.
    pub fn verdict(self) -> Option<Verdict>
        ensures is_the_verdict { result ≡ board_verdict self }
    {
        match self {
            BoardFault::Block(fault) => fault.verdict(),
            BoardFault::Disagrees { field } => Some(Verdict {
                number: 10,
                line: 1,
                field,
                layer: Layer::Board,
            }),
        }
    }
}
