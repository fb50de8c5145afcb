// A call of a session, as a call file has it.

// kept: beside the calls of replay, since a file can lend places to all later calls, and writes a room in 16 bits
#[derive(Clone, Copy, PartialEq, Eq, Debug)]
pub enum Call<C> {
    Put { moment: C, pins: u8, value: u8 },
    Step,
    Next,
    // with so many trace records
    Run { horizon: C, budget: u16, room: u16 },
    // later calls are lent so many places
    Lend { places: u16 },
}
