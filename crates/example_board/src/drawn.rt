// The example board: a generator beside a block with a delay line.
use crate::trouble::Trouble;
use board::nested::Board;
use clock::dense::Dense;
use drawing::drawing::Drawing;
use drawing::ends::WireEnd;
use names::name::Name;
use part::catalogue::Catalogue;
use part::generator::Gen;
use part::line::Line;
use std::alloc::Global;

// kept: the names and parts are made here, since the example stands alone, so that a reader needs no other program to follow it
pub fn name(text: &[u8]) -> Result<Name, Trouble> {
    Name::new(text).ok_or(Trouble::Name)
}

// A pin of the block itself.
pub fn own(pin: u8) -> WireEnd {
    WireEnd::Own { pin }
}

// Pin 0 of a child.
pub fn child(text: &[u8]) -> Result<WireEnd, Trouble> {
    let name = name(text)?;
    Ok(WireEnd::Child { name, pin: 0 })
}

pub fn line(delay: u16) -> Catalogue<Dense> {
    Catalogue::Line(Line::new(delay))
}

pub fn generator(period: u16, value: u8, step: u8) -> Result<Catalogue<Dense>, Trouble> {
    let part = Gen::new(period, value, step).ok_or(Trouble::Part)?;
    Ok(Catalogue::Gen(part))
}

// The board of a drawing that is closed.
pub fn finished(drawing: Drawing<Catalogue<Dense>>) -> Result<Board<Catalogue<Dense>>, Trouble> {
    drawing.finish().map_err(|_| Trouble::Open)
}

// The block io: a delay line between its input and its output.
fn draw_io(drawing: &mut Drawing<Catalogue<Dense>>) -> Result<(), Trouble> {
    drawing.open_block(name(b"io")?, 1, 1)?;
    drawing.add_part(name(b"a")?, 1, 1, line(4))?;
    drawing.add_wire(own(0), child(b"a")?)?;
    drawing.add_wire(child(b"a")?, own(0))?;
    drawing.close_block()?;
    Ok(())
}

pub fn example(heap: Global) -> Result<Board<Catalogue<Dense>>, Trouble> {
    let mut drawing = Drawing::new(heap);
    drawing.open_block(name(b"top")?, 0, 1)?;
    draw_io(&mut drawing)?;
    drawing.add_part(name(b"g")?, 1, 1, generator(4, 7, 1)?)?;
    drawing.add_wire(child(b"g")?, child(b"io")?)?;
    drawing.add_wire(child(b"io")?, own(0))?;
    drawing.close_block()?;
    finished(drawing)
}
