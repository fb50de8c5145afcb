// Reads cases from standard input, each a line NAME TEXT with the text of a netlist in the escaped form, and prints what the reader answers.
#![tactic(auto)]

mod escape;
mod trouble;

use crate::escape::decoded;
use crate::trouble::Trouble;
use clock::dense::Dense;
use netlist::reader::{Netlist, read_board};
use std::io::{BufRead, BufReader};

fn accepted(rt: &HostRuntime, name: &str, netlist: &Netlist<Dense>) -> Result<(), Trouble> {
    let Netlist { board, bytes } = netlist;
    let blocks = board.plan.blocks.len();
    let parts = board.plan.components.len();
    let wires = board.plan.wires.len();
    println!(rt; "{name}: accepted {blocks} {parts} {wires} {bytes}")?;
    Ok(())
}

fn try_case(rt: &HostRuntime, case: &str) -> Result<(), Trouble> {
    let (name, text) = case.split_once(' ').ok_or(Trouble::Case)?;
    let heap = rt.alloc();
    let file = decoded(heap, text.as_bytes())?;
    match read_board(file.as_slice(), heap) {
        Ok(netlist) => accepted(rt, name, &netlist),
        Err(fault) => {
            let verdict = fault.verdict().ok_or(Trouble::Reader)?;
            println!(rt; "{name}: refused {verdict}")?;
            Ok(())
        }
    }
}

fn work(rt: &HostRuntime) -> Result<(), Trouble> {
    // kept: a loop, since each case is left by `?`, and a fold over them would be no plainer
    let mut count = 0u64;
    for line in BufReader::new(rt.alloc(), rt.stdin())?.lines(rt.alloc()) {
        try_case(rt, line?.as_str())?;
        count = count.saturating_add(1);
    }
    println!(rt; "{count} cases")?;
    Ok(())
}

fn main(rt: HostRuntime) -> anyhow::Result<()> {
    work(&rt)?;
    Ok(())
}
