// Networks: what is refused, and that a refusal changes no wire.
use coupling::coupling::{Coupling, Source};
use coupling::network::Network;
use coupling::wires::{BuildFault, Target, WireFault};
use std::test::Fail;

#[test]
fn a_network_has_a_size(rt: HostRuntime) -> Result<(), Fail> {
    assert_eq!(rt;
        Network::new(rt.alloc(), 65, 0).err(),
        Some(BuildFault::TooManyParts)
    );
    assert_eq!(rt;
        Network::new(rt.alloc(), 0, 9).err(),
        Some(BuildFault::TooManyInputs)
    );
    let board = Network::new(rt.alloc(), 64, 8)?;
    assert_eq!(rt; board.parts(), 64);
    assert_eq!(rt; board.inputs(), 8);
    Ok(())
}

#[test]
fn a_wire_needs_two_ends(rt: HostRuntime) -> Result<(), Fail> {
    let mut board = Network::new(rt.alloc(), 2, 1)?;
    let near = Target::Part { part: 0, pin: 0 };
    let absent = Target::Part { part: 2, pin: 0 };
    assert_eq!(rt;
        board.wire(Source::Part(0), 0, near),
        Err(WireFault::OwnPart)
    );
    assert_eq!(rt;
        board.wire(Source::Part(0), 0, absent),
        Err(WireFault::NoTarget)
    );
    assert_eq!(rt;
        board.wire(Source::Part(2), 0, near),
        Err(WireFault::NoSource)
    );
    assert_eq!(rt;
        board.wire(Source::Board, 1, near),
        Err(WireFault::NoSource)
    );
    Ok(())
}

#[test]
fn a_pin_is_below_eight(rt: HostRuntime) -> Result<(), Fail> {
    let mut board = Network::new(rt.alloc(), 2, 8)?;
    let near = Target::Part { part: 0, pin: 7 };
    let outside = Target::Part { part: 0, pin: 8 };
    assert_eq!(rt;
        board.wire(Source::Part(1), 8, near),
        Err(WireFault::NoSource)
    );
    assert_eq!(rt;
        board.wire(Source::Part(1), 7, outside),
        Err(WireFault::NoTarget)
    );
    assert_eq!(rt;
        board.wire(Source::Part(1), 7, Target::Board { pin: 8 }),
        Err(WireFault::NoTarget)
    );
    assert_eq!(rt; board.wire(Source::Part(1), 7, near), Ok(()));
    Ok(())
}

#[test]
fn a_refused_wire_changes_no_row(rt: HostRuntime) -> Result<(), Fail> {
    let mut board = Network::new(rt.alloc(), 2, 1)?;
    board.wire(Source::Part(0), 0, Target::Part { part: 1, pin: 3 })?;
    let own = Target::Part { part: 0, pin: 0 };
    assert_eq!(rt;
        board.wire(Source::Part(0), 0, own),
        Err(WireFault::OwnPart)
    );
    assert_eq!(rt;
        board.wire(Source::Part(0), 0, Target::Board { pin: 8 }),
        Err(WireFault::NoTarget)
    );
    let row = board.reach(Source::Part(0), 255);
    assert_eq!(rt; row.sets[0], 0);
    assert_eq!(rt; row.sets[1], 8);
    assert_eq!(rt; row.board, 0);
    Ok(())
}

#[test]
fn a_network_works_after_a_refusal(rt: HostRuntime) -> Result<(), Fail> {
    let mut board = Network::new(rt.alloc(), 2, 1)?;
    let own = Target::Part { part: 0, pin: 0 };
    assert_eq!(rt;
        board.wire(Source::Part(0), 0, own),
        Err(WireFault::OwnPart)
    );
    board.wire(Source::Part(0), 0, Target::Part { part: 1, pin: 2 })?;
    board.wire(Source::Part(0), 1, Target::Board { pin: 5 })?;
    let row = board.reach(Source::Part(0), 3);
    assert_eq!(rt; row.sets[0], 0);
    assert_eq!(rt; row.sets[1], 4);
    assert_eq!(rt; row.board, 32);
    Ok(())
}
