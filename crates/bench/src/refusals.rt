// Calls that are refused for their moment or their pins, and calls with nothing to fire.
use crate::boards::lone;
use crate::helpers::{Beyond, blank, output, ran, refused, spare};
use crate::moments::{at, ticks};
use crate::stock::line;
use clock::dense::Dense;
use clock::ticks::Ticks;
use coupling::network::Network;
use part::line::Line;
use session::places::Place;
use session::session::{Session, next};
use std::test::Fail;

#[test]
fn an_input_needs_pins_of_the_board(rt: HostRuntime) -> Result<(), Fail> {
    let board = lone(rt.alloc())?;
    let mut places = [spare()];
    let mut session = Session::new();
    session.open(&board, &mut places, &[line(4)])?;
    refused(&rt, session.put(&board, &mut places, at(4, 0), 0, 7), 13);
    refused(&rt, session.put(&board, &mut places, at(4, 0), 2, 7), 13);
    refused(&rt, session.put(&board, &mut places, at(4, 0), 3, 7), 13);
    assert_eq!(rt; session.now, at(0, 0));
    assert_eq!(rt; next(&board, &places)?, None);
    Ok(())
}

#[test]
fn an_input_comes_now_or_later(rt: HostRuntime) -> Result<(), Fail> {
    let board = lone(rt.alloc())?;
    let mut places = [spare()];
    let mut session = Session::new();
    session.open(&board, &mut places, &[line(4)])?;
    session.put(&board, &mut places, at(5, 1), 1, 7)?;
    refused(&rt, session.put(&board, &mut places, at(5, 0), 1, 9), 14);
    refused(&rt, session.put(&board, &mut places, at(4, 2), 1, 9), 14);
    assert_eq!(rt; session.now, at(5, 1));
    session.put(&board, &mut places, at(5, 1), 1, 9)?;
    assert_eq!(rt;
        session.step(&board, &mut places)?,
        output(at(9, 0), 0, 1, 9, 1)
    );
    Ok(())
}

#[test]
fn no_moment_is_beyond_the_ceiling(rt: HostRuntime) -> Result<(), Fail> {
    let board = lone(rt.alloc())?;
    let mut places = [spare()];
    let mut trace = [blank()];
    let mut session = Session::new();
    session.open(&board, &mut places, &[line(4)])?;
    let late = Dense::new(4_294_967_296, 0).ok_or(Beyond)?;
    let fine = Dense::new(0, 16_777_216).ok_or(Beyond)?;
    refused(&rt, session.put(&board, &mut places, late, 1, 7), 12);
    refused(&rt, session.put(&board, &mut places, fine, 1, 7), 12);
    refused(
        &rt,
        session.run(&board, &mut places, late, 1, &mut trace),
        12,
    );
    refused(
        &rt,
        session.run(&board, &mut places, fine, 1, &mut trace),
        12,
    );
    assert_eq!(rt; session.now, at(0, 0));
    assert_eq!(rt; next(&board, &places)?, None);
    Ok(())
}

#[test]
fn nothing_fires_beyond_the_ceiling(rt: HostRuntime) -> Result<(), Fail> {
    let board = lone(rt.alloc())?;
    let part = Line::new(1);
    let mut places = [Place {
        part,
        last: ticks(9),
    }];
    let mut session = Session::new();
    session.open(&board, &mut places, &[part])?;
    session.put(&board, &mut places, ticks(4_294_967_295), 1, 7)?;
    assert_eq!(rt; next(&board, &places)?, Ticks::new(4_294_967_296));
    refused(&rt, session.step(&board, &mut places), 17);
    assert_eq!(rt; session.now, ticks(4_294_967_295));
    Ok(())
}

#[test]
fn a_board_without_parts_never_fires(rt: HostRuntime) -> Result<(), Fail> {
    let board = Network::new(rt.alloc(), 0, 0)?;
    let part = Line::new(4);
    let mut places = [Place {
        part,
        last: at(9, 0),
    }; 0];
    let mut trace = [blank()];
    let mut session = Session::new();
    session.open(&board, &mut places, &[])?;
    assert_eq!(rt; next(&board, &places)?, None);
    refused(&rt, session.step(&board, &mut places), 16);
    ran(
        &rt,
        session.run(&board, &mut places, at(9, 0), 1, &mut trace)?,
        0,
        0,
        2,
    );
    assert_eq!(rt; trace[0], blank());
    Ok(())
}
