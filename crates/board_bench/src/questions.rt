// What each call refuses: pins, names, ends, loops, wires that stand, and calls out of place.
use crate::helpers::{finished, named, opened, refused, unfinished};
use crate::letters::{child, own};
use drawing::drawing::Drawing;
use drawing::fault::Fault;
use std::test::Fail;

#[test]
fn a_side_has_eight_pins(rt: HostRuntime) -> Result<(), Fail> {
    let mut drawing = opened(rt.alloc(), 8, 8)?;
    let p = named(b"p")?;
    refused(&rt, drawing.add_part(p, 9, 0, 1), Fault::BadPins, 4);
    refused(&rt, drawing.add_part(p, 0, 9, 1), Fault::BadPins, 4);
    refused(&rt, drawing.open_block(p, 9, 0), Fault::BadPins, 4);
    refused(&rt, drawing.open_block(p, 0, 9), Fault::BadPins, 4);
    drawing.add_part(p, 8, 8, 1)?;
    drawing.open_block(named(b"x")?, 8, 8)?;
    Ok(())
}

#[test]
fn a_wire_ends_at_pins_that_are_there(rt: HostRuntime) -> Result<(), Fail> {
    let mut drawing = opened(rt.alloc(), 1, 1)?;
    let p = named(b"p")?;
    let q = named(b"q")?;
    drawing.add_part(p, 8, 8, 1)?;
    drawing.add_part(q, 1, 1, 2)?;
    drawing.add_wire(child(p, 7), child(q, 0))?;
    drawing.add_wire(child(q, 0), child(p, 7))?;
    refused(
        &rt,
        drawing.add_wire(child(p, 8), child(q, 0)),
        Fault::BadPins,
        4,
    );
    refused(
        &rt,
        drawing.add_wire(child(q, 0), child(p, 8)),
        Fault::BadPins,
        4,
    );
    refused(
        &rt,
        drawing.add_wire(child(q, 1), child(p, 0)),
        Fault::NoFrom,
        7,
    );
    refused(
        &rt,
        drawing.add_wire(child(p, 0), child(q, 1)),
        Fault::NoTo,
        7,
    );
    refused(&rt, drawing.add_wire(own(1), child(p, 0)), Fault::NoFrom, 7);
    refused(&rt, drawing.add_wire(child(p, 0), own(1)), Fault::NoTo, 7);
    Ok(())
}

#[test]
fn a_name_is_taken_once_in_a_block(rt: HostRuntime) -> Result<(), Fail> {
    let mut drawing = opened(rt.alloc(), 0, 0)?;
    let p = named(b"p")?;
    let x = named(b"x")?;
    drawing.add_part(p, 1, 1, 1)?;
    refused(&rt, drawing.add_part(p, 1, 1, 2), Fault::NameTaken, 5);
    refused(&rt, drawing.open_block(p, 1, 1), Fault::NameTaken, 5);
    drawing.open_block(x, 1, 1)?;
    drawing.add_part(p, 1, 1, 2)?;
    drawing.add_part(x, 1, 1, 3)?;
    drawing.close_block()?;
    refused(&rt, drawing.add_part(x, 1, 1, 4), Fault::NameTaken, 5);
    refused(&rt, drawing.open_block(x, 1, 1), Fault::NameTaken, 5);
    Ok(())
}

#[test]
fn a_wire_joins_two_things_once(rt: HostRuntime) -> Result<(), Fail> {
    let mut drawing = opened(rt.alloc(), 1, 1)?;
    let p = named(b"p")?;
    let x = named(b"x")?;
    drawing.add_part(p, 1, 1, 1)?;
    drawing.open_block(x, 1, 1)?;
    drawing.close_block()?;
    refused(
        &rt,
        drawing.add_wire(child(p, 0), child(p, 0)),
        Fault::Loop,
        8,
    );
    refused(
        &rt,
        drawing.add_wire(child(x, 0), child(x, 0)),
        Fault::Loop,
        8,
    );
    refused(&rt, drawing.add_wire(own(0), own(0)), Fault::Loop, 8);
    drawing.add_wire(child(p, 0), child(x, 0))?;
    refused(
        &rt,
        drawing.add_wire(child(p, 0), child(x, 0)),
        Fault::Twice,
        9,
    );
    drawing.add_wire(child(x, 0), child(p, 0))?;
    Ok(())
}

#[test]
fn nothing_is_drawn_outside_the_board(rt: HostRuntime) -> Result<(), Fail> {
    let mut drawing: Drawing<u8> = Drawing::new(rt.alloc());
    let p = named(b"p")?;
    refused(&rt, drawing.add_part(p, 1, 1, 1), Fault::Misplaced, 0);
    refused(&rt, drawing.add_wire(own(0), own(0)), Fault::Misplaced, 0);
    refused(&rt, drawing.close_block(), Fault::Misplaced, 0);
    drawing.open_block(named(b"top")?, 0, 0)?;
    drawing.add_part(p, 1, 1, 1)?;
    drawing.close_block()?;
    refused(&rt, drawing.add_part(p, 9, 9, 1), Fault::Misplaced, 0);
    refused(&rt, drawing.add_wire(own(8), own(8)), Fault::Misplaced, 0);
    refused(&rt, drawing.open_block(p, 9, 9), Fault::Misplaced, 0);
    refused(&rt, drawing.close_block(), Fault::Misplaced, 0);
    assert_eq!(rt; finished(drawing)?.plan.components.len(), 1);
    Ok(())
}

#[test]
fn a_board_is_finished_once_it_is_closed(rt: HostRuntime) -> Result<(), Fail> {
    let mut drawing = unfinished(Drawing::new(rt.alloc()))?;
    drawing.open_block(named(b"top")?, 0, 0)?;
    let mut drawing = unfinished(drawing)?;
    drawing.open_block(named(b"x")?, 0, 0)?;
    drawing.close_block()?;
    let mut drawing = unfinished(drawing)?;
    drawing.close_block()?;
    assert_eq!(rt; finished(drawing)?.plan.blocks.len(), 2);
    Ok(())
}
