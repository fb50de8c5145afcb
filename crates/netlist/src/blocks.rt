// The block layer: items are read one after another, and blocks in blocks.
ghost use Rattle.std.specs.Prelude.{◌≡◌};
ghost use Rattle.drawing.specs.Calls.{sheet, Kept};
ghost use Rattle.grammar.specs.Statements.{KindInRange, InRange};
ghost use Rattle.grammar.specs.Verdicts.{judged, line_verdict};
ghost use Rattle.netlist.specs.Drawings.{start_of, ins_of, outs_of, Takes, LineSays};
ghost use Rattle.netlist.specs.Files.{Closed};
ghost use Rattle.netlist.specs.Steps.{RefusedAs, Applies, Inside, place, StatementRead, ItemRead, BlockRead};

use crate::fault::BlockFault;
use crate::lines::Lines;
use clock::clock::Clock;
use drawing::drawing::Drawing;
use drawing::fault::Fault;
use grammar::fault::LineFault;
use grammar::rules::{board_line, item_line};
use grammar::statement::{PartKind, Statement};
use part::catalogue::Catalogue;
use part::generator::Gen;
use part::line::Line;
use part::uart::Uart;
use std::ops::ControlFlow;

// The lines that are left to read, and what those before them draw.
#[derive(Drop)]
pub(crate) struct Reader<'a, C> {
    pub(crate) lines: Lines<'a>,
    pub(crate) drawing: Drawing<Catalogue<C>>,
}

// How many pins a part has.
#[derive(Clone, Copy)]
struct PinCounts {
    ins: u8,
    outs: u8,
}

// The pins of a kind.
fn pins_of(kind: PartKind) -> PinCounts
    ensures inputs { result.ins ≡ ins_of kind }
    ensures outputs { result.outs ≡ outs_of kind }
{
    let outs = match kind {
        PartKind::Gen { .. } | PartKind::Line { .. } => 1,
        PartKind::Uart { .. } => 2,
    };
    PinCounts { ins: 1, outs }
}

// The start state of a kind whose numbers are in range.
fn start_of<C: Clock>(kind: PartKind) -> Catalogue<C>
    requires in_range { KindInRange kind }
    ensures starts { result ≡ start_of C.Clock.time kind }
{
    match kind {
        PartKind::Gen {
            period,
            value,
            step,
        } => Catalogue::Gen(Gen::new(period, value, step).unwrap()),
        PartKind::Uart { baud } => Catalogue::Uart(Uart::new(baud).unwrap()),
        PartKind::Line { delay } => Catalogue::Line(Line::new(delay)),
    }
}

// What a line says: outside the board, or in a block.
fn statement_of(current: Option<usize>, line: &[u8], number: usize) -> Result<Statement, LineFault>
    ensures asks_in_order { LineSays current line.now number (judged line_verdict result) }
{
    match current {
        None => board_line(line, number),
        Some(_) => item_line(line, number),
    }
}

// Carries out what a line says.
fn take<C: Clock>(drawing: &mut Drawing<Catalogue<C>>, statement: Statement) -> Result<(), Fault>
    requires in_range { InRange statement }
    ensures takes_it_or_refuses { Takes C.Clock.time statement (sheet drawing.old) (sheet drawing.new) result }
    ensures refusal_changes_nothing { Kept (sheet drawing.old) (sheet drawing.new) result }
{
    match statement {
        Statement::Open { name, ins, outs } => drawing.open_block(name, ins, outs),
        Statement::Part { name, kind } => {
            let PinCounts { ins, outs } = pins_of(kind);
            drawing.add_part(name, ins, outs, start_of(kind))
        }
        Statement::Wire { from, to } => drawing.add_wire(from, to),
        Statement::Close => drawing.close_block(),
    }
}

// Why line `line` is refused, where the drawing refuses what it says.
fn refusal_of(fault: Fault, line: usize) -> BlockFault
    ensures names_the_fault { RefusedAs fault line result }
{
    match fault {
        Fault::Memory => BlockFault::Memory,
        fault => BlockFault::Refused { fault, line },
    }
}

// Carries out what line `line` says.
fn apply<C: Clock>(
    drawing: &mut Drawing<Catalogue<C>>,
    statement: Statement,
    line: usize,
) -> Result<(), BlockFault>
    requires in_range { InRange statement }
    ensures carries_it_out { Applies C.Clock.time statement line (sheet drawing.old) (sheet drawing.new) result }
{
    take(drawing, statement).map_err(|fault| refusal_of(fault, line))
}

impl<C: Clock> Reader<'_, C> {
    // Reads the next line, and carries out what it says.
    pub(crate) fn next_statement(&mut self) -> Result<Statement, BlockFault>
        requires not_closed { Closed (sheet self.old.drawing) → ⊥ }
        ensures takes_it_or_refuses { StatementRead C.Clock.time (place self.old) (place self.new) result }
    {
        let number = self.lines.number;
        let line = self.lines.next_line()?;
        let statement = statement_of(self.drawing.current, line, number)?;
        apply(&mut self.drawing, statement, number)?;
        Ok(statement)
    }

    // One item of the open block; a block is read to its end. `levels` more levels fit into the open block. It breaks where the block ends.
    #[cycle(read_block_read_item)]
    fn read_item(&mut self, levels: u8) -> Result<ControlFlow<()>, BlockFault>
        requires inside { Inside (sheet self.old.drawing) levels }
        ensures reads_or_refuses { ItemRead C.Clock.time (place self.old) (place self.new) result }
    {
        match self.next_statement()? {
            Statement::Open { .. } => {
                self.read_block(levels - 1)?;
                Ok(ControlFlow::Continue(()))
            }
            Statement::Part { .. } | Statement::Wire { .. } => Ok(ControlFlow::Continue(())),
            Statement::Close => Ok(ControlFlow::Break(())),
        }
    }

    // The items of the open block, to its end.
    #[cycle(read_block_read_item)]
    pub(crate) fn read_block(&mut self, levels: u8) -> Result<(), BlockFault>
        requires inside { Inside (sheet self.old.drawing) levels }
        ensures reads_or_refuses { BlockRead C.Clock.time (place self.old) (place self.new) result }
    {
        'items: while self.read_item(levels)?.is_continue() {}
        Ok(())
    }
}
