// Finished boards: their networks, paths and start states.
use crate::helpers::{finished, named, opened};
use crate::letters::{child, own};
use board::nested::Board;
use coupling::coupling::{Coupling, Source};
use drawing::drawing::Drawing;
use std::alloc::Global;
use std::test::Fail;

// The block y: its input leads to the parts p and q, and both lead to its output.
fn draw_y(drawing: &mut Drawing<u8>) -> Result<(), Fail> {
    let p = named(b"p")?;
    let q = named(b"q")?;
    drawing.open_block(named(b"y")?, 1, 1)?;
    drawing.add_part(p, 1, 1, 7)?;
    drawing.add_part(q, 1, 1, 5)?;
    drawing.add_wire(own(0), child(p, 0))?;
    drawing.add_wire(own(0), child(q, 0))?;
    drawing.add_wire(child(p, 0), own(0))?;
    drawing.add_wire(child(q, 0), own(0))?;
    drawing.close_block()?;
    Ok(())
}

// The block x: y between its input and its output.
fn draw_x(drawing: &mut Drawing<u8>) -> Result<(), Fail> {
    let y = named(b"y")?;
    drawing.open_block(named(b"x")?, 1, 1)?;
    draw_y(drawing)?;
    drawing.add_wire(own(0), child(y, 0))?;
    drawing.add_wire(child(y, 0), own(0))?;
    drawing.close_block()?;
    Ok(())
}

// A board with x between its input and both of its outputs, and beside it a part r without wires.
fn three_levels(heap: Global) -> Result<Board<u8>, Fail> {
    let x = named(b"x")?;
    let mut drawing = opened(heap, 1, 2)?;
    draw_x(&mut drawing)?;
    drawing.add_part(named(b"r")?, 1, 1, 6)?;
    drawing.add_wire(own(0), child(x, 0))?;
    drawing.add_wire(child(x, 0), own(0))?;
    drawing.add_wire(child(x, 0), own(1))?;
    drawing.close_block()?;
    finished(drawing)
}

#[test]
fn signals_fan_out_and_in_through_blocks(rt: HostRuntime) -> Result<(), Fail> {
    let network = three_levels(rt.alloc())?.flatten(rt.alloc())?;
    assert_eq!(rt; network.parts(), 3);
    assert_eq!(rt; network.inputs(), 1);
    let row = network.reach(Source::Board, 1);
    assert_eq!(rt; row.sets[0], 1);
    assert_eq!(rt; row.sets[1], 1);
    assert_eq!(rt; row.sets[2], 0);
    assert_eq!(rt; row.board, 0);
    assert_eq!(rt; network.reach(Source::Part(0), 1).board, 3);
    assert_eq!(rt; network.reach(Source::Part(1), 1).board, 3);
    assert_eq!(rt; network.reach(Source::Part(0), 1).sets[1], 0);
    assert_eq!(rt; network.reach(Source::Part(2), 255).board, 0);
    Ok(())
}

#[test]
fn a_board_may_have_no_parts(rt: HostRuntime) -> Result<(), Fail> {
    let mut bare = opened(rt.alloc(), 0, 0)?;
    bare.close_block()?;
    assert_eq!(rt; finished(bare)?.flatten(rt.alloc())?.parts(), 0);
    let x = named(b"x")?;
    let mut hollow = opened(rt.alloc(), 1, 1)?;
    hollow.open_block(x, 1, 1)?;
    hollow.close_block()?;
    hollow.add_wire(own(0), child(x, 0))?;
    hollow.add_wire(child(x, 0), own(0))?;
    hollow.close_block()?;
    let network = finished(hollow)?.flatten(rt.alloc())?;
    assert_eq!(rt; network.parts(), 0);
    assert_eq!(rt; network.reach(Source::Board, 1).board, 0);
    Ok(())
}

#[test]
fn parts_have_paths_and_starts(rt: HostRuntime) -> Result<(), Fail> {
    let board = three_levels(rt.alloc())?;
    assert!(rt; board.path(rt.alloc(), 0)?.as_slice() == b"x/y/p".as_slice());
    assert!(rt; board.path(rt.alloc(), 1)?.as_slice() == b"x/y/q".as_slice());
    assert!(rt; board.path(rt.alloc(), 2)?.as_slice() == b"r".as_slice());
    assert!(rt; board.path(rt.alloc(), 3)?.is_empty());
    assert!(rt; board.starts() == [7, 5, 6].as_slice());
    Ok(())
}

#[test]
fn parts_have_names(rt: HostRuntime) -> Result<(), Fail> {
    let board = three_levels(rt.alloc())?;
    assert_eq!(rt; board.name(1), Some(named(b"q")?));
    assert_eq!(rt; board.name(3), None);
    Ok(())
}
