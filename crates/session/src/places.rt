// What a session keeps in the caller's memory.

// A part, and the moment of its last event.
#[derive(Clone, Copy)]
pub struct Place<P, C> {
    pub part: P,
    pub last: C,
}

// A firing with output, as it is written to a trace.
#[derive(Clone, Copy, PartialEq, Eq, Debug)]
pub struct Event<C> {
    pub moment: C,
    // the part's number
    pub part: usize,
    // the part's output pins
    pub pins: u8,
    pub value: u8,
    // the board's output pins that it reaches
    pub board: u8,
}
