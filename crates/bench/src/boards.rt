// Boards wired by hand.
ghost use Rattle.std.specs.Prelude.{◌≡◌, MatchResult};
ghost use Rattle.bench.specs.Boards.{Lone, Chain, Fork, NoMemory};
ghost use Rattle.bench.specs.declared.boards.BoardFault.TheVariants.{Build, Wire};

use coupling::coupling::Source;
use coupling::network::Network;
use coupling::wires::{BuildFault, Target, WireFault};
use std::alloc::Global;

// Why a board is not made.
#[derive(Clone, Copy, PartialEq, Eq, Debug)]
pub enum BoardFault {
    Build(BuildFault),
    Wire(WireFault),
}

// kept: both written by hand, since a derived `From` promises nothing to the clauses below
impl From<BuildFault> for BoardFault {
    ghost from_gives = { λ e r. r ≡ Build e };

    fn from(fault: BuildFault) -> BoardFault {
        BoardFault::Build(fault)
    }
}

impl From<WireFault> for BoardFault {
    ghost from_gives = { λ e r. r ≡ Wire e };

    fn from(fault: WireFault) -> BoardFault {
        BoardFault::Wire(fault)
    }
}

// One part: board input 0 leads to its pin 0, and its output pins 0 and 1 to the board's.
pub fn lone(heap: Global) -> Result<Network, BoardFault>
    ensures is_wired_or_finds_no_memory { MatchResult result Lone NoMemory }
{
    let mut board = Network::new(heap, 1, 1)?;
    board.wire(Source::Board, 0, Target::Part { part: 0, pin: 0 })?;
    board.wire(Source::Part(0), 0, Target::Board { pin: 0 })?;
    board.wire(Source::Part(0), 1, Target::Board { pin: 1 })?;
    Ok(board)
}

// Two parts: output pin 0 of part 1 leads to pin 0 of part 0, and output pin 0 of that to the board's.
pub fn chain(heap: Global) -> Result<Network, BoardFault>
    ensures is_wired_or_finds_no_memory { MatchResult result Chain NoMemory }
{
    let mut board = Network::new(heap, 2, 0)?;
    board.wire(Source::Part(1), 0, Target::Part { part: 0, pin: 0 })?;
    board.wire(Source::Part(0), 0, Target::Board { pin: 0 })?;
    Ok(board)
}

// Two parts: board input 0 leads to pin 0 of both.
pub fn fork(heap: Global) -> Result<Network, BoardFault>
    ensures is_wired_or_finds_no_memory { MatchResult result Fork NoMemory }
{
    let mut board = Network::new(heap, 2, 1)?;
    board.wire(Source::Board, 0, Target::Part { part: 0, pin: 0 })?;
    board.wire(Source::Board, 0, Target::Part { part: 1, pin: 0 })?;
    Ok(board)
}
