// boardsim run: a board from opening to a horizon.
use crate::files::board_of;
use crate::trouble::Trouble;
use crate::{show, spare};
use board::nested::Board;
use part::catalogue::Catalogue;
use script::moment::Moment;
use script::options::Settings;
use session::answers::{Ran, Stop};
use session::places::Event;
use session::session::Session;

// The steps of one call of run, and its trace records.
const CHUNK: u16 = 4096;

// After so many calls the progress is told.
const TELL: u64 = 16;

// What a run has done so far.
#[derive(Clone, Copy)]
struct Total {
    steps: u64,
    events: u64,
}

impl Total {
    // Tells the progress on some turns.
    fn tell<C: Moment>(self, rt: &HostRuntime, turn: u64, now: C) -> Result<(), Trouble> {
        if turn % TELL != TELL - 1 {
            return Ok(());
        }
        let Total { steps, events } = self;
        eprintln!(rt; "{steps} steps, {events} events, now {now}")?;
        Ok(())
    }

    fn print(self, rt: &HostRuntime, stop: Stop) -> Result<(), Trouble> {
        let Total { steps, events } = self;
        let number = stop.number();
        println!(rt; "{steps} steps, {events} events, stopped for reason {number}: {stop}.")?;
        Ok(())
    }
}

// Prints the events of one call, unless a summary is wanted.
// kept: the trace and the count of its records: the proof did not close that the count is within the trace
fn print_events<C: Moment>(
    rt: &HostRuntime,
    settings: Settings<'_>,
    paths: &[String],
    trace: &[Event<C>],
    events: u16,
) -> Result<(), Trouble> {
    if settings.summary {
        return Ok(());
    }
    for event in trace.iter().take(usize::from(events)) {
        show::event(rt, paths, event)?;
    }
    Ok(())
}

fn simulate<C: Moment>(
    rt: &HostRuntime,
    board: &Board<Catalogue<C>>,
    horizon: C,
    settings: Settings<'_>,
) -> Result<(), Trouble> {
    let network = board.flatten(rt.alloc())?;
    let paths = show::paths(rt.alloc(), board)?;
    let mut places = spare::places(rt.alloc(), board.starts().len())?;
    let mut trace = spare::trace(rt.alloc(), CHUNK)?;
    let mut session = Session::new();
    session.open(&network, places.as_mut_slice(), board.starts())?;
    let mut total = Total {
        steps: 0,
        events: 0,
    };
    let turns = (settings.budget / u64::from(CHUNK)).saturating_add(1);
    for turn in 0..turns {
        let left = settings.budget.saturating_sub(total.steps);
        let budget = u16::try_from(left).map_or(CHUNK, |left| left.min(CHUNK));
        let Ran {
            steps,
            events,
            stop,
        } = session.run(
            &network,
            places.as_mut_slice(),
            horizon,
            budget,
            trace.as_mut_slice(),
        )?;
        print_events(rt, settings, paths.as_slice(), trace.as_slice(), events)?;
        total.steps = total.steps.saturating_add(u64::from(steps));
        total.events = total.events.saturating_add(u64::from(events));
        if stop != Stop::Budget {
            return total.print(rt, stop);
        }
        total.tell(rt, turn, session.now)?;
    }
    total.print(rt, Stop::Budget)
}

pub fn run<C: Moment>(rt: &HostRuntime, path: &str, settings: Settings<'_>) -> Result<(), Trouble> {
    let horizon = match settings.until {
        Some(text) => C::read(text).ok_or(Trouble::Until)?,
        None => C::ceiling(),
    };
    let netlist = board_of(rt, path)?;
    simulate(rt, &netlist.board, horizon, settings)
}
