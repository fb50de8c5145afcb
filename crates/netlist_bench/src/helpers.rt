// What the tests share.
use clock::dense::Dense;
use grammar::fault::Verdict;
use netlist::reader::{Netlist, read_board};
use std::alloc::Global;
use std::test::Fail;

// A generator beside a block with a delay line.
pub fn example(heap: Global) -> Result<Netlist<Dense>, Fail> {
    let file =
        b"N 2 2 4\nB top 0 1\nB io 1 1\nP a line 4\nW -.0 a.0\nW a.0 -.0\nE\nP g gen 4 7 1\nW g.0 io.0\nW io.0 -.0\nE\n";
    Ok(read_board(file, heap)?)
}

// The question that the file fails, and where.
pub fn refusal(heap: Global, file: &[u8]) -> Result<Verdict, Fail> {
    let fault = read_board::<Dense>(file, heap).err().ok_or("accepted")?;
    Ok(fault.verdict().ok_or("no memory")?)
}
