// What is printed.
use crate::trouble::Trouble;
use board::nested::Board;
use drawing::fault::Fault;
use grammar::fault::{LineFault, TextFault, Verdict};
use netlist::fault::{BlockFault, BoardFault};
use part::catalogue::Catalogue;
use script::moment::Moment;
use script::spot::{Piece, piece_at};
use session::places::Event;
use std::alloc::{AllocError, Global};

// How much of a line is quoted.
const QUOTED: usize = 80;

pub fn usage(rt: &HostRuntime) -> Result<(), Trouble> {
    println!(rt; "Usage:")?;
    println!(rt; "  boardsim check FILE")?;
    println!(rt;
        "  boardsim run FILE [--until MOMENT] [--budget N] [--clock superdense|plain] [--summary]"
    )?;
    println!(rt; "  boardsim play FILE CALLS [--clock superdense|plain]")?;
    println!(rt; "  boardsim --help")?;
    println!(rt; "Several commands are carried out in turn, with the word then between them.")?;
    println!(rt;
        "FILE is a netlist, and CALLS a call file. MOMENT is TICK:MICRO, or TICK on the plain clock."
    )?;
    println!(rt;
        "A run goes to the clock's ceiling and takes 1000000 steps at most, unless it is told otherwise."
    )?;
    println!(rt;
        "The status is 0 if the command was carried out, else 1, with the reason on standard error."
    )?;
    Ok(())
}

// What is wrong with a file that is refused, and what to do about it.
#[derive(Clone, Copy)]
struct Advice {
    wrong: &'static str,
    next: &'static str,
}

// A field is none that may stand there.
const BAD_FIELD: Advice = Advice {
    wrong: "a name, a kind, a number or a wire end is not well formed or out of range",
    next: "Names are 1 to 8 letters a to z and digits, a letter first; kinds are gen P V S, uart B and line D; a wire end is NAME.PIN or -.PIN.",
};

// The first line says another board.
const BAD_COUNTS: Advice = Advice {
    wrong: "the counts of the first line are not those of the board",
    next: "Write the true counts of blocks, parts and wires there.",
};

fn text_advice(fault: TextFault) -> Advice {
    match fault {
        TextFault::BadSize => Advice {
            wrong: "the file is not 1 to 32,768 bytes that end with a newline",
            next: "End the last line with a newline, and keep the file below that size.",
        },
        TextFault::BadText { .. } => Advice {
            wrong: "the line is not 1 to 80 bytes of fields with single spaces between them",
            next: "Write printable fields with one space between them, and none at either end.",
        },
    }
}

fn line_advice(fault: LineFault) -> Advice {
    match fault {
        LineFault::Text(fault) => text_advice(fault),
        LineFault::Missing { .. } | LineFault::BadLetter { .. } | LineFault::FieldCount { .. } =>
            Advice {
                wrong: "the line is none that may stand here, or has too many or too few fields, or the file ends too soon",
                next: "Write N BLOCKS PARTS WIRES first, then for each block B NAME INS OUTS, its P, W and B lines, and E.",
            },
        LineFault::BadKind { .. } | LineFault::NumberCount { .. } | LineFault::BadField { .. } =>
            BAD_FIELD,
    }
}

fn drawing_advice(fault: Fault) -> Advice {
    match fault {
        Fault::BadName | Fault::BadPins => BAD_FIELD,
        Fault::NameTaken => Advice {
            wrong: "the name is taken in its block",
            next: "Give the child a name that its block has not.",
        },
        Fault::TooManyBlocks | Fault::TooManyParts | Fault::TooManyWires | Fault::TooDeep => {
            Advice {
                wrong: "the board is larger than 32 blocks, 64 parts, 256 wires or 8 blocks deep",
                next: "Leave something out, or make two boards of it.",
            }
        }
        Fault::NoFrom | Fault::NoTo => Advice {
            wrong: "a wire end is not drawn yet in this block, or has no such pin on that side",
            next: "Write the wire after both its ends, from an output or an own input to an input or an own output.",
        },
        Fault::Loop => Advice {
            wrong: "the wire joins a child or the block to itself",
            next: "Lead the wire to another child.",
        },
        Fault::Twice => Advice {
            wrong: "the wire stands already in this block",
            next: "Delete the second wire.",
        },
        // no question of a netlist file
        Fault::Misplaced | Fault::Memory => BAD_COUNTS,
    }
}

// The advice on a fault; none for want of memory.
fn board_advice(fault: BoardFault) -> Option<Advice> {
    match fault {
        BoardFault::Block(BlockFault::Line(fault)) => Some(line_advice(fault)),
        BoardFault::Block(BlockFault::Refused { fault, .. }) => Some(drawing_advice(fault)),
        BoardFault::Block(BlockFault::Memory) => None,
        BoardFault::Disagrees { .. } => Some(BAD_COUNTS),
    }
}

// The piece of a text with this number, counted from 1; none has number 0.
fn piece(text: &[u8], separator: u8, number: usize) -> Option<Piece<'_>> {
    piece_at(text, separator, number.checked_sub(1)?)
}

// A file that a command names, and what stands in it.
#[derive(Clone, Copy)]
pub struct FileText<'a> {
    pub path: &'a str,
    pub bytes: &'a [u8],
}

impl<'a> FileText<'a> {
    // Quotes a line, and points at its field.
    fn quote(self, rt: &HostRuntime, line: usize, field: usize) -> Result<(), Trouble> {
        let Some(whole) = piece(self.bytes, b'\n', line) else {
            return Ok(());
        };
        if whole.text.is_empty() {
            return Ok(());
        }
        let quoted = &whole.text[..whole.text.len().min(QUOTED)];
        let text = String::from_utf8_lossy(rt.alloc(), quoted)?;
        eprintln!(rt; "    {text}")?;
        if let Some(part) = piece(whole.text, b' ', field) {
            let spaces = " ".repeat(rt.alloc(), part.start.min(QUOTED))?;
            let carets = "^".repeat(rt.alloc(), part.text.len().min(QUOTED))?;
            eprintln!(rt; "    {spaces}{carets}")?;
        }
        Ok(())
    }

    // The file, and the line if there is one to name.
    fn print_place(self, rt: &HostRuntime, line: usize) -> Result<(), Trouble> {
        eprint!(rt; "{}", self.path)?;
        if line > 0 {
            eprint!(rt; ", line {line}")?;
        }
        Ok(())
    }

    // Says why a netlist file is refused, where, and what to do next.
    pub fn explain(
        self,
        rt: &HostRuntime,
        fault: BoardFault,
        verdict: Verdict,
    ) -> Result<(), Trouble> {
        let Advice { wrong, next } = board_advice(fault).ok_or(Trouble::Reader)?;
        let Verdict {
            number,
            line,
            field,
            layer: _,
        } = verdict;
        self.print_place(rt, line)?;
        eprintln!(rt; ": question {number} is answered no: {wrong}.")?;
        self.quote(rt, line, field)?;
        eprintln!(rt; "{next}")?;
        Ok(())
    }

    // Says which line of a call file is no call.
    pub fn explain_call(self, rt: &HostRuntime, line: usize) -> Result<(), Trouble> {
        let path = self.path;
        eprintln!(rt;
            "{path}, line {line}: this is no call, or does not end with a newline; no call was made."
        )?;
        self.quote(rt, line, 0)?;
        eprintln!(rt;
            "Write put MOMENT PINS VALUE, step, next, run HORIZON BUDGET ROOM or lend PLACES, one a line, with MOMENT as the clock has it."
        )?;
        Ok(())
    }
}

// The paths of a board's parts, by their numbers.
pub fn paths<C>(heap: Global, board: &Board<Catalogue<C>>) -> Result<Vec<String>, AllocError> {
    (0..board.starts().len())
        .map(|part| -> Result<String, AllocError> {
            Ok(String::from_utf8_lossy(heap, board.path(heap, part)?.as_slice())?)
        })
        .try_collect(heap)
}

// An event of a run, with its part's path.
pub fn event<C: Moment>(
    rt: &HostRuntime,
    paths: &[String],
    event: &Event<C>,
) -> Result<(), Trouble> {
    let Event {
        moment,
        part,
        pins,
        value,
        board,
    } = *event;
    if let Some(path) = paths.get(part) {
        println!(rt; "{moment} {path} pins {pins:02x} value {value} board pins {board:02x}")?;
    }
    Ok(())
}
