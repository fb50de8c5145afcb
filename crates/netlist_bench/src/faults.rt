// Faults: the size of a file, and the layer of each fault.
use crate::helpers::refusal;
use grammar::fault::{Layer, Verdict};
use std::test::Fail;

// kept: a number, as a verdict tells it
fn verdict(number: u8, line: usize, field: usize, layer: Layer) -> Verdict {
    Verdict {
        number,
        line,
        field,
        layer,
    }
}

#[test]
fn a_file_has_1_to_32768_bytes(rt: HostRuntime) -> Result<(), Fail> {
    let bad_size = verdict(1, 0, 0, Layer::Text);
    assert_eq!(rt; refusal(rt.alloc(), b"")?, bad_size);
    let most = vec![in rt.alloc(); b'\n'; 32_768]?;
    assert_eq!(rt;
        refusal(rt.alloc(), most.as_slice())?,
        verdict(2, 1, 0, Layer::Text)
    );
    let more = vec![in rt.alloc(); b'\n'; 32_769]?;
    assert_eq!(rt; refusal(rt.alloc(), more.as_slice())?, bad_size);
    Ok(())
}

#[test]
fn a_fault_has_its_layer(rt: HostRuntime) -> Result<(), Fail> {
    assert_eq!(rt;
        refusal(rt.alloc(), b"N 1 0 0\nB  a 0 0\nE\n")?,
        verdict(2, 2, 0, Layer::Text)
    );
    assert_eq!(rt;
        refusal(rt.alloc(), b"N 1 0 0\nB a 0 9\nE\n")?,
        verdict(4, 2, 4, Layer::Line)
    );
    assert_eq!(rt;
        refusal(rt.alloc(), b"N 1 1 1\nB a 1 0\nP p line 0\nW -.0 q.0\nE\n")?,
        verdict(7, 4, 3, Layer::Block)
    );
    assert_eq!(rt;
        refusal(rt.alloc(), b"N 1 1 0\nB a 0 0\nE\n")?,
        verdict(10, 1, 3, Layer::Board)
    );
    Ok(())
}
