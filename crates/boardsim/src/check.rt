// boardsim check: whether a netlist file is accepted.
use crate::files::board_or;
use crate::trouble::Trouble;
use clock::dense::Dense;
use grammar::fault::Verdict;
use netlist::reader::Netlist;

// kept: the same line as netlist_cases prints, since sharing four counts would need a public item in netlist
fn accepted(rt: &HostRuntime, netlist: &Netlist<Dense>) -> Result<(), Trouble> {
    let Netlist { board, bytes } = netlist;
    let blocks = board.plan.blocks.len();
    let parts = board.plan.components.len();
    let wires = board.plan.wires.len();
    println!(rt; "accepted {blocks} {parts} {wires} {bytes}")?;
    Ok(())
}

fn refused(rt: &HostRuntime, verdict: Verdict) -> Result<(), Trouble> {
    println!(rt; "refused {verdict}")?;
    Ok(())
}

pub fn check(rt: &HostRuntime, path: &str) -> Result<(), Trouble> {
    let netlist = board_or(rt, path, |verdict| refused(rt, verdict))?;
    accepted(rt, &netlist)
}
