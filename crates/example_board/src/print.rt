// What is printed, in words.
// kept: paths and the sentence on a run's end, as boardsim has them: the example stands alone, so that a reader needs no other program
use crate::trouble::Trouble;
use board::nested::Board;
use clock::dense::Dense;
use coupling::coupling::{Coupling, Source};
use coupling::network::Network;
use part::catalogue::Catalogue;
use session::answers::Ran;
use session::places::Event;
use std::alloc::{AllocError, Global};

// The paths of a board's parts, by their numbers.
fn paths(heap: Global, board: &Board<Catalogue<Dense>>) -> Result<Vec<String>, AllocError> {
    (0..board.starts().len())
        .map(|part| -> Result<String, AllocError> {
            Ok(String::from_utf8_lossy(heap, board.path(heap, part)?.as_slice())?)
        })
        .try_collect(heap)
}

// The path of a part; empty where there is none.
fn path_of(paths: &[String], part: usize) -> &str {
    paths.get(part).map_or("", |path| path.as_str())
}

fn print_event(rt: &HostRuntime, paths: &[String], event: &Event<Dense>) -> Result<(), Trouble> {
    let Event {
        moment,
        part,
        pins,
        value,
        board,
    } = *event;
    let path = path_of(paths, part);
    println!(rt; "{path} {value} at {moment} (its pins {pins:02x}, board pins {board:02x})")?;
    Ok(())
}

pub fn report(
    rt: &HostRuntime,
    board: &Board<Catalogue<Dense>>,
    ran: Ran,
    trace: &[Event<Dense>],
) -> Result<(), Trouble> {
    println!(rt;
        "The first board: generator g (every 4 ticks, from 7, counting by 1) feeds the block io,"
    )?;
    println!(rt;
        "in which delay line a (4 ticks) feeds the board's output pin 0. Run from opening to 12:0:"
    )?;
    let paths = paths(rt.alloc(), board)?;
    let Ran {
        steps,
        events,
        stop,
    } = ran;
    for event in trace.iter().take(usize::from(events)) {
        print_event(rt, paths.as_slice(), event)?;
    }
    let number = stop.number();
    println!(rt; "{steps} steps, {events} events, stopped for reason {number}: {stop}.")?;
    Ok(())
}

// What pin 0 of a source reaches.
fn print_row(
    rt: &HostRuntime,
    paths: &[String],
    network: &Network,
    source: Source,
) -> Result<(), Trouble> {
    let row = network.reach(source, 1);
    match source {
        Source::Board => print!(rt; "board input 0 reaches")?,
        Source::Part(part) => {
            let path = path_of(paths, part);
            print!(rt; "{path} pin 0 reaches")?;
        }
    }
    for (part, pins) in row.sets.iter().take(network.parts()).enumerate() {
        if *pins != 0 {
            let path = path_of(paths, part);
            print!(rt; " {path} ({pins:02x})")?;
        }
    }
    println!(rt; " board pins {:02x}", row.board)?;
    Ok(())
}

pub fn report_rows(
    rt: &HostRuntime,
    board: &Board<Catalogue<Dense>>,
    network: &Network,
) -> Result<(), Trouble> {
    println!(rt;
        "The second board is four blocks deep; flattened, a pin reaches each pin to which a path of wires leads:"
    )?;
    let paths = paths(rt.alloc(), board)?;
    let paths = paths.as_slice();
    print_row(rt, paths, network, Source::Board)?;
    for part in 0..network.parts() {
        print_row(rt, paths, network, Source::Part(part))?;
    }
    Ok(())
}
