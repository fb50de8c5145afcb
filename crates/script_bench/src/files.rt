// Call files, and the places of lines and fields.
use clock::dense::Dense;
use script::call::Call;
use script::calls::{ScriptFault, read_calls};
use script::spot::piece_at;
use std::alloc::Global;

// How many calls a file has, or the line that is none.
fn calls_in(heap: Global, file: &[u8]) -> Result<usize, ScriptFault> {
    let calls: Vec<Call<Dense>> = read_calls(file, heap)?;
    Ok(calls.len())
}

#[test]
fn call_files(rt: HostRuntime) {
    let heap = rt.alloc();
    assert_eq!(rt; calls_in(heap, b""), Ok(0));
    assert_eq!(rt; calls_in(heap, b"next\nput 0:0 01 7\nstep\n"), Ok(3));
    let last = Err(ScriptFault::BadLine { line: 2 });
    assert_eq!(rt; calls_in(heap, b"next\nstep"), last);
    assert_eq!(rt; calls_in(heap, b"next\nstop\nstep\n"), last);
    assert_eq!(rt; calls_in(heap, b"next\n\nstep\n"), last);
}

fn start_of(text: &[u8], before: usize) -> Option<(usize, usize)> {
    piece_at(text, b' ', before).map(|piece| (piece.start, piece.text.len()))
}

#[test]
fn pieces(rt: HostRuntime) {
    assert_eq!(rt; start_of(b"a bc d", 0), Some((0, 1)));
    assert_eq!(rt; start_of(b"a bc d", 1), Some((2, 2)));
    assert_eq!(rt; start_of(b"a bc d", 2), Some((5, 1)));
    assert_eq!(rt; start_of(b"a bc d", 3), None);
    assert_eq!(rt; start_of(b"", 0), Some((0, 0)));
}
