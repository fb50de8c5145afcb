// What the tests share.
use crate::letters::{child, numbered};
use board::nested::Board;
use drawing::drawing::Drawing;
use drawing::fault::Fault;
use names::name::Name;
use std::alloc::Global;
use std::process::Abort;
use std::test::Fail;

// A text is no name.
#[derive(Clone, Copy, Debug)]
pub struct Unnamed;

pub fn named(text: &[u8]) -> Result<Name, Fail> {
    Ok(Name::new(text).ok_or(Unnamed)?)
}

// The name of this number.
pub fn nth(k: u8) -> Result<Name, Fail> {
    Ok(numbered(k).ok_or(Unnamed)?)
}

// The call was refused for this fault, and the fault has this number.
// kept: a number beside the fault, since the tests are of both
pub fn refused(rt: &impl Abort, answer: Result<(), Fault>, fault: Fault, number: u8) {
    assert_eq!(rt; answer, Err(fault));
    assert_eq!(rt; fault.number(), number);
}

// The drawing is not finished, and is given back.
pub fn unfinished(drawing: Drawing<u8>) -> Result<Drawing<u8>, Fail> {
    drawing.finish().err().ok_or_else(|| Fail::new("finished"))
}

// The board of a drawing that is closed.
pub fn finished(drawing: Drawing<u8>) -> Result<Board<u8>, Fail> {
    drawing.finish().map_err(|_| Fail::new("not finished"))
}

// A drawing whose board is open and has so many pins.
pub fn opened(heap: Global, ins: u8, outs: u8) -> Result<Drawing<u8>, Fail> {
    let mut drawing = Drawing::new(heap);
    drawing.open_block(named(b"top")?, ins, outs)?;
    Ok(drawing)
}

// A drawing with 64 parts in its open board, of the names 0 to 63.
pub fn crowded(heap: Global) -> Result<Drawing<u8>, Fail> {
    let mut drawing = opened(heap, 0, 0)?;
    for k in 0..64u8 {
        drawing.add_part(nth(k)?, 1, 1, k)?;
    }
    Ok(drawing)
}

// Wires from each of the eight pins of a part to each of another's.
pub fn cross(drawing: &mut Drawing<u8>, from: Name, to: Name) -> Result<(), Fail> {
    for i in 0..8u8 {
        for j in 0..8u8 {
            drawing.add_wire(child(from, i), child(to, j))?;
        }
    }
    Ok(())
}

// A drawing with 256 wires in its open board, among the parts a, b and c; none leads from b to c.
pub fn tangled(heap: Global) -> Result<Drawing<u8>, Fail> {
    let mut drawing = opened(heap, 0, 0)?;
    let a = named(b"a")?;
    let b = named(b"b")?;
    let c = named(b"c")?;
    drawing.add_part(a, 8, 8, 1)?;
    drawing.add_part(b, 8, 8, 2)?;
    drawing.add_part(c, 8, 8, 3)?;
    cross(&mut drawing, a, b)?;
    cross(&mut drawing, b, a)?;
    cross(&mut drawing, a, c)?;
    cross(&mut drawing, c, a)?;
    Ok(drawing)
}
