// Runs: why they stop, and what they write.
use crate::boards::{chain, lone};
use crate::helpers::{Beyond, blank, event, ran, spare};
use crate::moments::at;
use crate::stock::{generator, line};
use clock::dense::Dense;
use coupling::network::Network;
use session::places::Event;
use session::session::Session;
use std::alloc::Global;
use std::process::Abort;
use std::test::Fail;

#[test]
fn a_run_stops_for_its_budget(rt: HostRuntime) -> Result<(), Fail> {
    let board = lone(rt.alloc())?;
    let mut places = [spare()];
    let mut trace = [blank(); 2];
    let mut session = Session::new();
    session.open(&board, &mut places, &[generator(4, 7, 1).ok_or(Beyond)?])?;
    ran(
        &rt,
        session.run(&board, &mut places, at(9, 0), 0, &mut trace)?,
        0,
        0,
        1,
    );
    assert_eq!(rt; session.now, at(0, 0));
    assert_eq!(rt; trace[0], blank());
    ran(
        &rt,
        session.run(&board, &mut places, at(9, 0), 1, &mut trace)?,
        1,
        1,
        1,
    );
    assert_eq!(rt; session.now, at(4, 0));
    assert_eq!(rt; trace[0], event(at(4, 0), 0, 1, 7, 1));
    assert_eq!(rt; trace[1], blank());
    Ok(())
}

#[test]
fn a_run_stops_at_its_horizon(rt: HostRuntime) -> Result<(), Fail> {
    let board = lone(rt.alloc())?;
    let mut places = [spare()];
    let mut trace = [blank(); 2];
    let mut session = Session::new();
    session.open(&board, &mut places, &[generator(4, 7, 1).ok_or(Beyond)?])?;
    ran(
        &rt,
        session.run(&board, &mut places, at(3, 9), 9, &mut trace)?,
        0,
        0,
        3,
    );
    assert_eq!(rt; session.now, at(0, 0));
    ran(
        &rt,
        session.run(&board, &mut places, at(4, 0), 9, &mut trace)?,
        1,
        1,
        3,
    );
    assert_eq!(rt; session.now, at(4, 0));
    assert_eq!(rt; trace[0], event(at(4, 0), 0, 1, 7, 1));
    Ok(())
}

#[test]
fn a_run_stops_at_the_ceiling(rt: HostRuntime) -> Result<(), Fail> {
    let board = lone(rt.alloc())?;
    let mut places = [spare()];
    let mut trace = [blank()];
    let mut session = Session::new();
    session.open(&board, &mut places, &[line(0)])?;
    let last = Dense::new(5, 16_777_215).ok_or(Beyond)?;
    session.put(&board, &mut places, last, 1, 7)?;
    ran(
        &rt,
        session.run(&board, &mut places, at(6, 0), 9, &mut trace)?,
        0,
        0,
        4,
    );
    assert_eq!(rt; session.now, last);
    assert_eq!(rt; trace[0], blank());
    Ok(())
}

#[test]
fn a_run_stops_when_the_trace_is_full(rt: HostRuntime) -> Result<(), Fail> {
    let board = lone(rt.alloc())?;
    let mut places = [spare()];
    let mut trace = [blank()];
    let mut session = Session::new();
    session.open(&board, &mut places, &[generator(4, 7, 1).ok_or(Beyond)?])?;
    ran(
        &rt,
        session.run(&board, &mut places, at(9, 0), 9, &mut [])?,
        0,
        0,
        5,
    );
    assert_eq!(rt; session.now, at(0, 0));
    ran(
        &rt,
        session.run(&board, &mut places, at(9, 0), 9, &mut trace)?,
        1,
        1,
        5,
    );
    assert_eq!(rt; session.now, at(4, 0));
    assert_eq!(rt; trace[0], event(at(4, 0), 0, 1, 7, 1));
    Ok(())
}

// Runs a line that hears a generator.
fn example(rt: &impl Abort, heap: Global, trace: &mut [Event<Dense>]) -> Result<(), Fail> {
    let board = chain(heap)?;
    let mut places = [spare(); 2];
    let mut session = Session::new();
    let starts = [line(4), generator(4, 7, 1).ok_or(Beyond)?];
    session.open(&board, &mut places, &starts)?;
    ran(
        rt,
        session.run(&board, &mut places, at(12, 0), 9, trace)?,
        5,
        5,
        3,
    );
    assert_eq!(rt; session.now, at(12, 0));
    Ok(())
}

#[test]
fn a_line_repeats_a_generator(rt: HostRuntime) -> Result<(), Fail> {
    let mut trace = [blank(); 9];
    example(&rt, rt.alloc(), &mut trace)?;
    let expected = [
        event(at(4, 0), 1, 1, 7, 0),
        event(at(8, 0), 0, 1, 7, 1),
        event(at(8, 0), 1, 1, 8, 0),
        event(at(12, 0), 0, 1, 8, 1),
        event(at(12, 0), 1, 1, 9, 0),
    ];
    assert_eq!(rt; &trace[..5], expected.as_slice());
    Ok(())
}

#[test]
fn later_records_are_untouched(rt: HostRuntime) -> Result<(), Fail> {
    let mut trace = [blank(); 9];
    example(&rt, rt.alloc(), &mut trace)?;
    assert_ne!(rt; trace[4], blank());
    assert_eq!(rt; &trace[5..], [blank(); 4].as_slice());
    Ok(())
}

// Runs two generators of these periods to 6:0, with values 20 and 30.
fn race(
    rt: &impl Abort,
    heap: Global,
    first: u16,
    second: u16,
    trace: &mut [Event<Dense>],
) -> Result<(), Fail> {
    let board = Network::new(heap, 2, 0)?;
    let mut places = [spare(); 2];
    let mut session = Session::new();
    let starts = [
        generator(first, 20, 1).ok_or(Beyond)?,
        generator(second, 30, 1).ok_or(Beyond)?,
    ];
    session.open(&board, &mut places, &starts)?;
    ran(
        rt,
        session.run(&board, &mut places, at(6, 0), 9, trace)?,
        5,
        5,
        3,
    );
    Ok(())
}

#[test]
fn the_lower_number_fires_first(rt: HostRuntime) -> Result<(), Fail> {
    let mut trace = [blank(); 5];
    race(&rt, rt.alloc(), 2, 3, &mut trace)?;
    let expected = [
        event(at(2, 0), 0, 1, 20, 0),
        event(at(3, 0), 1, 1, 30, 0),
        event(at(4, 0), 0, 1, 21, 0),
        event(at(6, 0), 0, 1, 22, 0),
        event(at(6, 0), 1, 1, 31, 0),
    ];
    assert_eq!(rt; trace, expected);
    Ok(())
}

#[test]
fn the_lower_number_fires_first_with_the_longer_period(rt: HostRuntime) -> Result<(), Fail> {
    let mut trace = [blank(); 5];
    race(&rt, rt.alloc(), 3, 2, &mut trace)?;
    let expected = [
        event(at(2, 0), 1, 1, 30, 0),
        event(at(3, 0), 0, 1, 20, 0),
        event(at(4, 0), 1, 1, 31, 0),
        event(at(6, 0), 0, 1, 21, 0),
        event(at(6, 0), 1, 1, 32, 0),
    ];
    assert_eq!(rt; trace, expected);
    Ok(())
}
