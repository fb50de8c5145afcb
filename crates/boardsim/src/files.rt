// The files that a command names.
use crate::show::FileText;
use crate::trouble::Trouble;
use clock::clock::Clock;
use grammar::fault::Verdict;
use netlist::reader::{Netlist, read_board};
use script::call::Call;
use script::calls::{ScriptFault, read_calls};
use script::moment::Moment;
use std::fs;

pub fn bytes_of(rt: &HostRuntime, path: &str) -> Result<Vec<u8>, Trouble> {
    fs::read(rt, path).or_else(|error| {
        eprintln!(rt;
            "boardsim: {path} cannot be read: {error}. Give the path of a file that can be read."
        )?;
        Err(Trouble::Told)
    })
}

// The board of a netlist file; if it is refused, the verdict is passed on, and then why is told.
pub fn board_or<C: Clock, F: FnOnce(Verdict) -> Result<(), Trouble>>(
    rt: &HostRuntime,
    path: &str,
    refused: F,
) -> Result<Netlist<C>, Trouble>
    requires may_be_called { F.IsAlwaysCallable refused }
{
    let bytes = bytes_of(rt, path)?;
    let file = FileText {
        path,
        bytes: bytes.as_slice(),
    };
    read_board(file.bytes, rt.alloc()).or_else(|fault| {
        let verdict = fault.verdict().ok_or(Trouble::Reader)?;
        refused(verdict)?;
        file.explain(rt, fault, verdict)?;
        Err(Trouble::Told)
    })
}

// The board of a netlist file, or why it is refused.
pub fn board_of<C: Clock>(rt: &HostRuntime, path: &str) -> Result<Netlist<C>, Trouble> {
    board_or(rt, path, |_| Ok(()))
}

// The calls of a call file, or which line is none.
pub fn calls_of<C: Moment>(rt: &HostRuntime, path: &str) -> Result<Vec<Call<C>>, Trouble> {
    let bytes = bytes_of(rt, path)?;
    let file = FileText {
        path,
        bytes: bytes.as_slice(),
    };
    read_calls(file.bytes, rt.alloc()).or_else(|fault| match fault {
        ScriptFault::BadLine { line } => {
            file.explain_call(rt, line)?;
            Err(Trouble::Told)
        }
        ScriptFault::Memory => Err(Trouble::Reader),
    })
}
