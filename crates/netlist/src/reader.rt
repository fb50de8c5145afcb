// The reader of netlist files.
ghost use Rattle.std.specs.Prelude.{◌≡◌, ◌≢◌, IfOk, MatchResult};
ghost use Rattle.drawing.specs.Lists.{lists};
ghost use Rattle.asking.specs.Asking.{Ask};
ghost use Rattle.netlist.specs.declared.fault.BoardFault.TheVariants.{Disagrees};
ghost use Rattle.grammar.specs.declared.fault.LineFault.TheVariants.{Text};
ghost use Rattle.grammar.specs.declared.fault.TextFault.TheVariants.{BadSize};
ghost use Rattle.netlist.specs.Files.{Sized};
ghost use Rattle.netlist.specs.Netlists.{Sound};
ghost use Rattle.netlist.specs.Steps.{Begins};
ghost use Rattle.netlist.specs.Reads.{HeaderRead, BoardRead, AllRead, Agreed, Gives, AcceptsOnly, AcceptsEvery, Refuses, OneOutcome};

use crate::blocks::Reader;
use crate::fault::{BlockFault, BoardFault};
use crate::lines::Lines;
use board::nested::Board;
use board::plan::Plan;
use clock::clock::Clock;
use drawing::drawing::Drawing;
use grammar::fault::LineFault;
use grammar::rules::header_line;
use grammar::statement::Header;
use part::catalogue::Catalogue;
use std::alloc::Global;

// A board that was read, and how many bytes write it.
#[derive(Drop)]
pub struct Netlist<C> {
    pub board: Board<Catalogue<C>>,
    pub bytes: usize,
}

// What the first line says, what the lines after it draw, and how many bytes are read.
#[derive(Drop)]
struct Drawn<C> {
    header: Header,
    drawing: Drawing<Catalogue<C>>,
    bytes: usize,
}

// The lines of a file that has a size that is read at all.
fn lines_of(file: &[u8]) -> Result<Lines<'_>, LineFault>
    ensures begins_or_refuses { MatchResult result (λ lines. Begins file.now lines) (λ e. (Sized file.now → ⊥) × (e ≡ Text BadSize)) }
{
    Ok(Lines::of(file)?)
}

// What the first line says.
fn read_header(lines: &mut Lines) -> Result<Header, LineFault>
    ensures reads_or_refuses { HeaderRead lines.old lines.new result }
{
    let number = lines.number;
    let line = lines.next_line()?;
    header_line(line, number)
}

// The line that opens the board, and the board to its end.
fn read_drawing<C: Clock>(lines: Lines<'_>, heap: Global) -> Result<Reader<'_, C>, BlockFault>
    ensures reads_or_refuses { BoardRead C.Clock.time lines.entry result }
{
    let drawing = Drawing::new(heap);
    let mut reader = Reader { lines, drawing };
    reader.next_statement()?;
    reader.read_block(7)?;
    Ok(reader)
}

// The first line, and the board.
fn read_all<C: Clock>(file: &[u8], heap: Global) -> Result<Drawn<C>, BlockFault>
    ensures reads_or_refuses { AllRead C.Clock.time file.now result }
{
    let mut lines = lines_of(file)?;
    let header = read_header(&mut lines)?;
    let Reader { lines, drawing } = read_drawing(lines, heap)?;
    Ok(Drawn {
        header,
        drawing,
        bytes: lines.taken,
    })
}

// Whether field `field` of the first line counts what was found.
fn counts(field: usize, told: u16, found: usize) -> Result<(), BoardFault>
    ensures asks { Ask (told ≢ found) (result ≡ Err (Disagrees field)) (result ≡ Ok tt) }
{
    if usize::from(told) == found {
        Ok(())
    } else {
        Err(BoardFault::Disagrees { field })
    }
}

// Whether the first line agrees with the board.
fn agrees(header: Header, plan: &Plan) -> Result<(), BoardFault>
    ensures asks_in_order { Agreed header (lists plan.now) result }
{
    counts(2, header.blocks, plan.blocks.len())?;
    counts(3, header.parts, plan.components.len())?;
    counts(4, header.wires, plan.wires.len())
}

// Reads a netlist: the board that the file writes, and the bytes that write it.
pub fn read_board<C: Clock>(file: &[u8], heap: Global) -> Result<Netlist<C>, BoardFault>
    ensures gives_what_the_file_gives { Gives C.Clock.time file.now result }
    ensures accepts_only_written_boards { AcceptsOnly C.Clock.time file.now result }
    ensures accepts_every_written_board { AcceptsEvery C.Clock.time file.now result }
    ensures refuses_by_the_first_question_that_fails { Refuses C.Clock.time file.now result }
    ensures has_one_outcome { OneOutcome C.Clock.time file.now result }
    ensures start_states_are_sound { IfOk result (λ n. Sound C.Clock.time n.board.starts.items) }
{
    let drawn = read_all(file, heap)?;
    agrees(drawn.header, &drawn.drawing.plan)?;
    let bytes = drawn.bytes;
    let board = drawn.drawing.finish().unwrap();
    Ok(Netlist { board, bytes })
}
