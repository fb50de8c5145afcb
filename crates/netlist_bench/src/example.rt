// The board that the example file writes.
use crate::helpers::example;
use board::pins::{Pin, Wire};
use clock::clock::Clock;
use clock::dense::Dense;
use names::name::Name;
use part::catalogue::Catalogue;
use std::test::Fail;

#[test]
fn the_example_has_98_bytes(rt: HostRuntime) -> Result<(), Fail> {
    let netlist = example(rt.alloc())?;
    assert_eq!(rt; netlist.board.plan.blocks.len(), 2);
    assert_eq!(rt; netlist.board.plan.components.len(), 2);
    assert_eq!(rt; netlist.board.plan.wires.len(), 4);
    assert_eq!(rt; netlist.bytes, 98);
    Ok(())
}

#[test]
fn parts_are_numbered_as_written(rt: HostRuntime) -> Result<(), Fail> {
    let board = example(rt.alloc())?.board;
    assert_eq!(rt; board.name(0), Name::new(b"a"));
    assert_eq!(rt; board.name(1), Name::new(b"g"));
    assert_eq!(rt; board.name(2), None);
    assert!(rt; board.path(rt.alloc(), 0)?.as_slice() == b"io/a".as_slice());
    assert!(rt; board.path(rt.alloc(), 1)?.as_slice() == b"g".as_slice());
    Ok(())
}

#[test]
fn parts_start_with_their_numbers(rt: HostRuntime) -> Result<(), Fail> {
    let board = example(rt.alloc())?.board;
    let [a, g] = board.starts() else {
        return Err(Fail::new("not two parts"));
    };
    let (Catalogue::Line(a), Catalogue::Gen(g)) = (*a, *g) else {
        return Err(Fail::new("not a delay line and a generator"));
    };
    assert_eq!(rt; a.delay, 4);
    assert_eq!(rt; a.left, None);
    assert_eq!(rt; g.period, 4);
    assert_eq!(rt; g.value, 7);
    assert_eq!(rt; g.step, 1);
    assert_eq!(rt; g.left, Dense::wait(4));
    Ok(())
}

#[test]
fn wires_stand_as_written(rt: HostRuntime) -> Result<(), Fail> {
    let board = example(rt.alloc())?.board;
    let wires = [
        Wire {
            from: Pin::BlockIn { block: 1, pin: 0 },
            to: Pin::PartIn { part: 0, pin: 0 },
        },
        Wire {
            from: Pin::PartOut { part: 0, pin: 0 },
            to: Pin::BlockOut { block: 1, pin: 0 },
        },
        Wire {
            from: Pin::PartOut { part: 1, pin: 0 },
            to: Pin::BlockIn { block: 1, pin: 0 },
        },
        Wire {
            from: Pin::BlockOut { block: 1, pin: 0 },
            to: Pin::BlockOut { block: 0, pin: 0 },
        },
    ];
    assert!(rt; board.plan.wires.as_slice() == wires.as_slice());
    Ok(())
}
