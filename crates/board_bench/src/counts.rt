// How many blocks, parts and wires there may be, and how deep.
use crate::helpers::{crowded, finished, named, nth, opened, refused, tangled};
use crate::letters::child;
use drawing::fault::Fault;
use std::test::Fail;

#[test]
fn a_board_has_32_blocks(rt: HostRuntime) -> Result<(), Fail> {
    let mut drawing = opened(rt.alloc(), 0, 0)?;
    for k in 0..31u8 {
        drawing.open_block(nth(k)?, 0, 0)?;
        drawing.close_block()?;
    }
    refused(
        &rt,
        drawing.open_block(nth(31)?, 0, 0),
        Fault::TooManyBlocks,
        6,
    );
    drawing.close_block()?;
    assert_eq!(rt; finished(drawing)?.plan.blocks.len(), 32);
    Ok(())
}

#[test]
fn a_board_has_64_parts(rt: HostRuntime) -> Result<(), Fail> {
    let mut drawing = crowded(rt.alloc())?;
    refused(
        &rt,
        drawing.add_part(nth(64)?, 1, 1, 64),
        Fault::TooManyParts,
        6,
    );
    drawing.close_block()?;
    let board = finished(drawing)?;
    assert_eq!(rt; board.plan.components.len(), 64);
    assert_eq!(rt; board.starts().len(), 64);
    Ok(())
}

#[test]
fn a_board_is_eight_blocks_deep(rt: HostRuntime) -> Result<(), Fail> {
    let mut drawing = opened(rt.alloc(), 0, 0)?;
    for k in 0..7u8 {
        drawing.open_block(nth(k)?, 0, 0)?;
    }
    refused(&rt, drawing.open_block(nth(7)?, 0, 0), Fault::TooDeep, 6);
    for _ in 0..8u8 {
        drawing.close_block()?;
    }
    assert_eq!(rt; finished(drawing)?.plan.blocks.len(), 8);
    Ok(())
}

#[test]
fn a_board_has_256_wires(rt: HostRuntime) -> Result<(), Fail> {
    let b = named(b"b")?;
    let c = named(b"c")?;
    let mut drawing = tangled(rt.alloc())?;
    refused(
        &rt,
        drawing.add_wire(child(b, 0), child(c, 0)),
        Fault::TooManyWires,
        6,
    );
    drawing.close_block()?;
    assert_eq!(rt; finished(drawing)?.plan.wires.len(), 256);
    Ok(())
}
