// Draws two nested boards, flattens them, runs the first from opening to 12:0, and prints what it did.
#![tactic(auto)]

mod deep;
mod drawn;
mod print;
mod trouble;

use crate::drawn::generator;
use crate::print::{report, report_rows};
use crate::trouble::Trouble;
use board::nested::Board;
use clock::clock::Clock;
use clock::dense::Dense;
use part::catalogue::Catalogue;
use session::answers::Ran;
use session::places::{Event, Place};
use session::session::Session;
use std::alloc::Global;

// Opens the board and runs it to 12:0 with a budget of 9 steps.
fn simulated(
    heap: Global,
    board: &Board<Catalogue<Dense>>,
    trace: &mut [Event<Dense>],
) -> Result<Ran, Trouble> {
    let network = board.flatten(heap)?;
    let mut places = [Place {
        part: generator(1, 0, 0)?,
        last: Dense::zero(),
    }; 2];
    let mut session = Session::new();
    session.open(&network, &mut places, board.starts())?;
    let ran = session.run(&network, &mut places, Dense::wait(12), 9, trace)?;
    Ok(ran)
}

fn work(rt: &HostRuntime) -> Result<(), Trouble> {
    let heap = rt.alloc();
    // kept: a blank record of its own, since the example stands alone
    let blank = Event {
        moment: Dense::zero(),
        part: 0,
        pins: 0,
        value: 0,
        board: 0,
    };
    let mut trace = [blank; 9];
    let board = drawn::example(heap)?;
    let ran = simulated(heap, &board, &mut trace)?;
    report(rt, &board, ran, &trace)?;
    let second = deep::board(heap)?;
    let network = second.flatten(heap)?;
    report_rows(rt, &second, &network)?;
    Ok(())
}

fn main(rt: HostRuntime) -> anyhow::Result<()> {
    work(&rt)?;
    Ok(())
}
