// Calls with too few places or start states, which are refused and change nothing; and with a place too many.
use crate::boards::{fork, lone};
use crate::helpers::{blank, output, ran, refused};
use crate::moments::at;
use clock::dense::Dense;
use part::line::Line;
use session::places::Place;
use session::session::{Session, next};
use std::process::Abort;
use std::test::Fail;

// A delay line that took the value 7 at 4:0, and fires at 8:0.
fn waiting() -> Place<Line<Dense>, Dense> {
    Place {
        part: Line {
            delay: 4,
            value: 7,
            left: Some(at(4, 0)),
        },
        last: at(4, 0),
    }
}

// The place is still as `waiting` made it.
fn kept(rt: &impl Abort, place: &Place<Line<Dense>, Dense>) {
    let part = Line {
        delay: 4,
        value: 7,
        left: Some(at(4, 0)),
    };
    assert_eq!(rt; place.part, part);
    assert_eq!(rt; place.last, at(4, 0));
}

// The same, and the session is still at 5:0.
fn both_kept(rt: &impl Abort, place: &Place<Line<Dense>, Dense>, session: &Session<Dense>) {
    kept(rt, place);
    assert_eq!(rt; session.now, at(5, 0));
}

#[test]
fn no_places(rt: HostRuntime) -> Result<(), Fail> {
    let board = lone(rt.alloc())?;
    let mut places = [waiting(); 0];
    let mut session = Session { now: at(5, 0) };
    refused(&rt, session.open(&board, &mut places, &[Line::new(4)]), 11);
    assert_eq!(rt; session.now, at(5, 0));
    refused(&rt, next(&board, &places), 11);
    refused(&rt, session.put(&board, &mut places, at(6, 0), 1, 9), 11);
    assert_eq!(rt; session.now, at(5, 0));
    refused(&rt, session.step(&board, &mut places), 11);
    assert_eq!(rt; session.now, at(5, 0));
    Ok(())
}

#[test]
fn no_places_for_a_run(rt: HostRuntime) -> Result<(), Fail> {
    let board = lone(rt.alloc())?;
    let mut places = [waiting(); 0];
    let mut trace = [blank()];
    let mut session = Session { now: at(5, 0) };
    refused(
        &rt,
        session.run(&board, &mut places, at(9, 0), 9, &mut trace),
        11,
    );
    assert_eq!(rt; session.now, at(5, 0));
    assert_eq!(rt; trace[0], blank());
    Ok(())
}

#[test]
fn one_place_too_few(rt: HostRuntime) -> Result<(), Fail> {
    let board = fork(rt.alloc())?;
    let mut places = [waiting()];
    let mut session = Session { now: at(5, 0) };
    refused(
        &rt,
        session.open(&board, &mut places, &[Line::new(9), Line::new(9)]),
        11,
    );
    both_kept(&rt, &places[0], &session);
    refused(&rt, next(&board, &places), 11);
    refused(&rt, session.put(&board, &mut places, at(6, 0), 1, 9), 11);
    both_kept(&rt, &places[0], &session);
    refused(&rt, session.step(&board, &mut places), 11);
    both_kept(&rt, &places[0], &session);
    Ok(())
}

#[test]
fn one_place_too_few_for_a_run(rt: HostRuntime) -> Result<(), Fail> {
    let board = fork(rt.alloc())?;
    let mut places = [waiting()];
    let mut trace = [blank()];
    let mut session = Session { now: at(5, 0) };
    refused(
        &rt,
        session.run(&board, &mut places, at(9, 0), 9, &mut trace),
        11,
    );
    both_kept(&rt, &places[0], &session);
    assert_eq!(rt; trace[0], blank());
    Ok(())
}

#[test]
fn one_start_state_too_few(rt: HostRuntime) -> Result<(), Fail> {
    let board = fork(rt.alloc())?;
    let mut places = [waiting(); 2];
    let mut session = Session { now: at(5, 0) };
    refused(&rt, session.open(&board, &mut places, &[Line::new(9)]), 11);
    both_kept(&rt, &places[0], &session);
    both_kept(&rt, &places[1], &session);
    Ok(())
}

#[test]
fn a_place_too_many_is_not_used(rt: HostRuntime) -> Result<(), Fail> {
    let board = lone(rt.alloc())?;
    let mut places = [waiting(); 2];
    let mut trace = [blank()];
    let mut session = Session { now: at(5, 0) };
    session.open(&board, &mut places, &[Line::new(4)])?;
    assert_eq!(rt; session.now, at(0, 0));
    assert_eq!(rt; next(&board, &places)?, None);
    session.put(&board, &mut places, at(9, 0), 1, 5)?;
    assert_eq!(rt;
        session.step(&board, &mut places)?,
        output(at(13, 0), 0, 1, 5, 1)
    );
    ran(
        &rt,
        session.run(&board, &mut places, at(99, 0), 9, &mut trace)?,
        0,
        0,
        2,
    );
    kept(&rt, &places[1]);
    Ok(())
}
