// Call files: one call a line.
ghost use Rattle.std.specs.Prelude.{◌≡◌, MatchResult};
ghost use Rattle.script.specs.Scripts.{Script, Fails};
ghost use Rattle.script.specs.declared.calls.ScriptFault.TheVariants.{Memory};

use crate::call::Call;
use crate::line::read_call;
use crate::moment::Moment;
use grammar::cut::first_piece;
use std::alloc::{AllocError, AllocFailed, Global};

#[derive(Clone, Copy, PartialEq, Eq, Debug)]
pub enum ScriptFault {
    // the line, counted from 1, says no call, or is the last and does not end with byte 10
    BadLine { line: usize },
    Memory,
}

// kept: a derived From promises nothing, and read_calls promises which fault comes
impl From<AllocError> for ScriptFault {
    ghost from_gives = { λ _ r. r ≡ Memory };

    fn from(_e: AllocError) -> ScriptFault {
        ScriptFault::Memory
    }
}

impl<T: Drop> From<AllocFailed<T>> for ScriptFault {
    ghost from_gives = { λ _ r. r ≡ Memory };

    fn from(_e: AllocFailed<T>) -> ScriptFault {
        ScriptFault::Memory
    }
}

// The calls of a file, or the first line that is none.
#[tactic(auto, using(crate::proofs::Passing::goes, crate::proofs::Passing::done))]
pub fn read_calls<C: Moment>(file: &[u8], heap: Global) -> Result<Vec<Call<C>>, ScriptFault>
    ensures reads_each_line_or_refuses { MatchResult result (λ v. Script C.Display.output file.now v.items) (λ e. Fails C.Display.output file.now e) }
{
    let mut calls = Vec::new(heap);
    let mut rest = file;
    // kept: no iterator of lines, since a last line without byte 10 must be told from one with it
    'lines: while !rest.is_empty() {
        let line = calls.len() + 1;
        let bad_line = ScriptFault::BadLine { line };
        let cut = first_piece(rest, b'\n');
        rest = cut.rest.ok_or(bad_line)?;
        calls.push(read_call(cut.piece).ok_or(bad_line)?)?;
    }
    Ok(calls)
}
