// A file that is read twice gives equal boards.
use crate::helpers::example;
use part::catalogue::Catalogue;
use std::test::Fail;

#[test]
fn reading_twice_gives_equal_boards(rt: HostRuntime) -> Result<(), Fail> {
    let first = example(rt.alloc())?;
    let second = example(rt.alloc())?;
    assert_eq!(rt; first.bytes, second.bytes);
    let a = &first.board;
    let b = &second.board;
    assert!(rt; a.plan.wires.as_slice() == b.plan.wires.as_slice());
    assert!(rt; a.plan.blocks.as_slice() == b.plan.blocks.as_slice());
    assert!(rt; a.plan.components.as_slice() == b.plan.components.as_slice());
    let ([a, g], [b, h]) = (a.starts(), b.starts()) else {
        return Err(Fail::new("not two parts"));
    };
    let (Catalogue::Line(a), Catalogue::Line(b)) = (*a, *b) else {
        return Err(Fail::new("not two delay lines"));
    };
    let (Catalogue::Gen(g), Catalogue::Gen(h)) = (*g, *h) else {
        return Err(Fail::new("not two generators"));
    };
    assert_eq!(rt; a, b);
    assert_eq!(rt; g, h);
    Ok(())
}
