// boardsim play: the calls of a call file, made on a board.
use crate::files::{board_of, calls_of};
use crate::spare;
use crate::trouble::Trouble;
use coupling::network::Network;
use netlist::reader::Netlist;
use part::catalogue::Catalogue;
use script::call::Call;
use script::moment::Moment;
use session::answers::{Firing, Ran, Refusal};
use session::places::{Event, Place};
use session::session::{Session, next};

// The most places that are lent.
const PLACES: usize = 80;

fn print_event<C: Moment>(rt: &HostRuntime, event: &Event<C>) -> Result<(), Trouble> {
    let Event {
        moment,
        part,
        pins,
        value,
        board,
    } = *event;
    println!(rt; "event {moment} {part} {pins:02x} {value} {board:02x}")?;
    Ok(())
}

fn print_firing<C: Moment>(rt: &HostRuntime, firing: Firing<C>) -> Result<(), Trouble> {
    match firing {
        Firing::Output(event) => print_event(rt, &event)?,
        Firing::Silent(moment) => println!(rt; "silent {moment}")?,
    }
    Ok(())
}

fn print_next<C: Moment>(rt: &HostRuntime, next: Option<C>) -> Result<(), Trouble> {
    match next {
        Some(moment) => println!(rt; "moment {moment}")?,
        None => println!(rt; "never")?,
    }
    Ok(())
}

// The events of a run, and what it answers.
fn print_run<C: Moment>(rt: &HostRuntime, ran: Ran, trace: &[Event<C>]) -> Result<(), Trouble> {
    let Ran {
        steps,
        events,
        stop,
    } = ran;
    for event in trace.iter().take(usize::from(events)) {
        print_event(rt, event)?;
    }
    println!(rt; "ran {steps} {events} {}", stop.number())?;
    Ok(())
}

// Prints an answer, or the number of its refusal.
fn print_answer<T, F: FnOnce(T) -> Result<(), Trouble>>(
    rt: &HostRuntime,
    answer: Result<T, Refusal>,
    print: F,
) -> Result<(), Trouble>
    requires may_be_called { F.IsAlwaysCallable print }
{
    match answer {
        Ok(value) => print(value)?,
        Err(refusal) => println!(rt; "refused {}", refusal.number())?,
    }
    Ok(())
}

// Makes one call with the places that are lent, and prints the answer.
fn make<C: Moment>(
    rt: &HostRuntime,
    network: &Network,
    session: &mut Session<C>,
    places: &mut [Place<Catalogue<C>, C>],
    call: Call<C>,
) -> Result<(), Trouble> {
    match call {
        Call::Put {
            moment,
            pins,
            value,
        } => {
            let answer = session.put(network, places, moment, pins, value);
            print_answer(rt, answer, |_| {
                println!(rt; "done")?;
                Ok(())
            })
        }
        Call::Step => {
            let answer = session.step(network, places);
            print_answer(rt, answer, |firing| print_firing(rt, firing))
        }
        Call::Next => print_answer(rt, next(network, places), |moment| print_next(rt, moment)),
        Call::Run {
            horizon,
            budget,
            room,
        } => {
            let mut trace = spare::trace(rt.alloc(), room)?;
            let answer = session.run(network, places, horizon, budget, trace.as_mut_slice());
            print_answer(rt, answer, |ran| print_run(rt, ran, trace.as_slice()))
        }
        Call::Lend { places: _ } => Ok(()),
    }
}

// Makes the calls in order, each with the first places that are lent.
fn make_all<C: Moment>(
    rt: &HostRuntime,
    netlist: &Netlist<C>,
    places: &mut [Place<Catalogue<C>, C>],
    calls: &[Call<C>],
) -> Result<(), Trouble> {
    let network = netlist.board.flatten(rt.alloc())?;
    let mut session = Session::new();
    session.open(&network, places, netlist.board.starts())?;
    let mut lent = netlist.board.starts().len();
    for call in calls {
        if let Call::Lend { places: count } = *call {
            lent = usize::from(count);
        }
        let most = lent.min(places.len());
        make(rt, &network, &mut session, &mut places[0..most], *call)?;
    }
    Ok(())
}

pub fn play<C: Moment>(rt: &HostRuntime, path: &str, calls_path: &str) -> Result<(), Trouble> {
    let netlist = board_of::<C>(rt, path)?;
    let calls = calls_of(rt, calls_path)?;
    let mut places = spare::places(rt.alloc(), PLACES)?;
    make_all(rt, &netlist, places.as_mut_slice(), calls.as_slice())
}
