// Of the questions that a call fails, the first is answered.
use crate::helpers::{crowded, named, nth, opened, refused, tangled};
use crate::letters::child;
use drawing::fault::Fault;
use std::test::Fail;

#[test]
fn pins_come_before_names_before_counts(rt: HostRuntime) -> Result<(), Fail> {
    let mut drawing = crowded(rt.alloc())?;
    refused(&rt, drawing.add_part(nth(0)?, 9, 1, 0), Fault::BadPins, 4);
    refused(&rt, drawing.add_part(nth(64)?, 9, 1, 0), Fault::BadPins, 4);
    refused(
        &rt,
        drawing.add_part(nth(63)?, 1, 1, 0),
        Fault::NameTaken,
        5,
    );
    Ok(())
}

#[test]
fn pins_come_before_counts_before_ends(rt: HostRuntime) -> Result<(), Fail> {
    let a = named(b"a")?;
    let b = named(b"b")?;
    let d = named(b"d")?;
    let mut drawing = tangled(rt.alloc())?;
    refused(
        &rt,
        drawing.add_wire(child(d, 8), child(a, 0)),
        Fault::BadPins,
        4,
    );
    refused(
        &rt,
        drawing.add_wire(child(d, 0), child(a, 0)),
        Fault::TooManyWires,
        6,
    );
    refused(
        &rt,
        drawing.add_wire(child(a, 0), child(a, 0)),
        Fault::TooManyWires,
        6,
    );
    refused(
        &rt,
        drawing.add_wire(child(a, 0), child(b, 0)),
        Fault::TooManyWires,
        6,
    );
    Ok(())
}

#[test]
fn ends_come_before_loops(rt: HostRuntime) -> Result<(), Fail> {
    let p = named(b"p")?;
    let q = named(b"q")?;
    let mut drawing = opened(rt.alloc(), 0, 0)?;
    drawing.add_part(p, 1, 1, 1)?;
    refused(
        &rt,
        drawing.add_wire(child(p, 1), child(p, 1)),
        Fault::NoFrom,
        7,
    );
    refused(
        &rt,
        drawing.add_wire(child(p, 0), child(p, 1)),
        Fault::NoTo,
        7,
    );
    refused(
        &rt,
        drawing.add_wire(child(q, 0), child(q, 0)),
        Fault::NoFrom,
        7,
    );
    Ok(())
}
