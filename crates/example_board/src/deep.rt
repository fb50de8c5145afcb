// A board four blocks deep: deck holds bay, bay holds slot, and inputs fan out at every level.
use crate::drawn::{child, finished, generator, line, name, own};
use crate::trouble::Trouble;
use board::nested::Board;
use clock::dense::Dense;
use drawing::drawing::Drawing;
use part::catalogue::Catalogue;
use std::alloc::Global;

// Two lines side by side.
fn draw_slot(drawing: &mut Drawing<Catalogue<Dense>>) -> Result<(), Trouble> {
    drawing.open_block(name(b"slot")?, 1, 1)?;
    drawing.add_part(name(b"x")?, 1, 1, line(2))?;
    drawing.add_part(name(b"y")?, 1, 1, line(3))?;
    drawing.add_wire(own(0), child(b"x")?)?;
    drawing.add_wire(own(0), child(b"y")?)?;
    drawing.add_wire(child(b"x")?, own(0))?;
    drawing.add_wire(child(b"y")?, own(0))?;
    drawing.close_block()?;
    Ok(())
}

// The slot and another line side by side.
fn draw_bay(drawing: &mut Drawing<Catalogue<Dense>>) -> Result<(), Trouble> {
    drawing.open_block(name(b"bay")?, 1, 1)?;
    draw_slot(drawing)?;
    drawing.add_part(name(b"z")?, 1, 1, line(5))?;
    drawing.add_wire(own(0), child(b"slot")?)?;
    drawing.add_wire(own(0), child(b"z")?)?;
    drawing.add_wire(child(b"slot")?, own(0))?;
    drawing.add_wire(child(b"z")?, own(0))?;
    drawing.close_block()?;
    Ok(())
}

fn draw_deck(drawing: &mut Drawing<Catalogue<Dense>>) -> Result<(), Trouble> {
    drawing.open_block(name(b"deck")?, 1, 1)?;
    draw_bay(drawing)?;
    drawing.add_wire(own(0), child(b"bay")?)?;
    drawing.add_wire(child(b"bay")?, own(0))?;
    drawing.close_block()?;
    Ok(())
}

pub fn board(heap: Global) -> Result<Board<Catalogue<Dense>>, Trouble> {
    let mut drawing = Drawing::new(heap);
    drawing.open_block(name(b"top")?, 1, 2)?;
    draw_deck(&mut drawing)?;
    drawing.add_part(name(b"g")?, 1, 1, generator(6, 1, 1)?)?;
    drawing.add_wire(own(0), child(b"deck")?)?;
    drawing.add_wire(child(b"g")?, child(b"deck")?)?;
    drawing.add_wire(child(b"deck")?, own(0))?;
    drawing.add_wire(child(b"deck")?, own(1))?;
    drawing.close_block()?;
    finished(drawing)
}
