// Inputs and steps.
use crate::boards::{fork, lone};
use crate::helpers::{Beyond, output, refused, spare};
use crate::moments::at;
use crate::stock::{generator, line, uart};
use session::session::{Session, next};
use std::test::Fail;

#[test]
fn a_uart_sends_and_tells_what_it_lost(rt: HostRuntime) -> Result<(), Fail> {
    let board = lone(rt.alloc())?;
    let mut places = [spare()];
    let mut session = Session::new();
    session.open(&board, &mut places, &[uart(1).ok_or(Beyond)?])?;
    session.put(&board, &mut places, at(0, 0), 1, 65)?;
    session.put(&board, &mut places, at(3, 0), 1, 66)?;
    session.put(&board, &mut places, at(5, 0), 1, 67)?;
    assert_eq!(rt;
        session.step(&board, &mut places)?,
        output(at(10, 0), 0, 1, 65, 1)
    );
    assert_eq!(rt;
        session.step(&board, &mut places)?,
        output(at(10, 1), 0, 2, 1, 2)
    );
    assert_eq!(rt;
        session.step(&board, &mut places)?,
        output(at(20, 0), 0, 1, 66, 1)
    );
    Ok(())
}

#[test]
fn a_line_is_due_after_its_delay(rt: HostRuntime) -> Result<(), Fail> {
    let board = lone(rt.alloc())?;
    let mut places = [spare()];
    let mut session = Session::new();
    session.open(&board, &mut places, &[line(4)])?;
    session.put(&board, &mut places, at(4, 0), 1, 7)?;
    assert_eq!(rt; next(&board, &places)?, Some(at(8, 0)));
    session.put(&board, &mut places, at(8, 0), 1, 9)?;
    assert_eq!(rt; next(&board, &places)?, Some(at(12, 0)));
    assert_eq!(rt;
        session.step(&board, &mut places)?,
        output(at(12, 0), 0, 1, 9, 1)
    );
    Ok(())
}

#[test]
fn no_input_is_taken_past_a_firing(rt: HostRuntime) -> Result<(), Fail> {
    let board = lone(rt.alloc())?;
    let mut places = [spare()];
    let mut session = Session::new();
    session.open(&board, &mut places, &[line(4)])?;
    session.put(&board, &mut places, at(4, 0), 1, 7)?;
    refused(&rt, session.put(&board, &mut places, at(8, 1), 1, 9), 15);
    assert_eq!(rt; session.now, at(4, 0));
    assert_eq!(rt;
        session.step(&board, &mut places)?,
        output(at(8, 0), 0, 1, 7, 1)
    );
    Ok(())
}

#[test]
fn a_generator_takes_a_value_and_keeps_its_period(rt: HostRuntime) -> Result<(), Fail> {
    let board = lone(rt.alloc())?;
    let mut places = [spare()];
    let mut session = Session::new();
    session.open(&board, &mut places, &[generator(4, 7, 200).ok_or(Beyond)?])?;
    session.put(&board, &mut places, at(1, 3), 1, 100)?;
    assert_eq!(rt;
        session.step(&board, &mut places)?,
        output(at(4, 0), 0, 1, 100, 1)
    );
    assert_eq!(rt;
        session.step(&board, &mut places)?,
        output(at(8, 0), 0, 1, 44, 1)
    );
    Ok(())
}

#[test]
fn an_input_reaches_every_part_it_is_wired_to(rt: HostRuntime) -> Result<(), Fail> {
    let board = fork(rt.alloc())?;
    let mut places = [spare(); 2];
    let mut session = Session::new();
    session.open(&board, &mut places, &[line(4), line(3)])?;
    session.put(&board, &mut places, at(1, 0), 1, 7)?;
    assert_eq!(rt;
        session.step(&board, &mut places)?,
        output(at(4, 0), 1, 1, 7, 0)
    );
    assert_eq!(rt;
        session.step(&board, &mut places)?,
        output(at(5, 0), 0, 1, 7, 0)
    );
    refused(&rt, session.step(&board, &mut places), 16);
    Ok(())
}

#[test]
fn a_session_can_be_opened_again(rt: HostRuntime) -> Result<(), Fail> {
    let board = lone(rt.alloc())?;
    let mut places = [spare()];
    let mut session = Session::new();
    session.open(&board, &mut places, &[line(4)])?;
    session.put(&board, &mut places, at(4, 0), 1, 7)?;
    session.open(&board, &mut places, &[line(2)])?;
    assert_eq!(rt; session.now, at(0, 0));
    assert_eq!(rt; next(&board, &places)?, None);
    session.put(&board, &mut places, at(1, 0), 1, 9)?;
    assert_eq!(rt;
        session.step(&board, &mut places)?,
        output(at(3, 0), 0, 1, 9, 1)
    );
    Ok(())
}
