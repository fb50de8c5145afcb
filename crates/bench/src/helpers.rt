// What the tests share.
use crate::moments::at;
use crate::stock::line;
use clock::dense::Dense;
use part::catalogue::Catalogue;
use session::answers::{Firing, Ran, Refusal};
use session::places::{Event, Place};
use std::process::Abort;

// A number is out of range.
#[derive(Clone, Copy, Debug)]
pub struct Beyond;

// A place that no session has opened yet.
pub fn spare() -> Place<Catalogue<Dense>, Dense> {
    Place {
        part: line(99),
        last: at(99, 9),
    }
}

pub fn event(moment: Dense, part: usize, pins: u8, value: u8, board: u8) -> Event<Dense> {
    Event {
        moment,
        part,
        pins,
        value,
        board,
    }
}

// What a step answers of a firing with output.
pub fn output(moment: Dense, part: usize, pins: u8, value: u8, board: u8) -> Firing<Dense> {
    Firing::Output(event(moment, part, pins, value, board))
}

// A record that no run writes: no part has this number.
pub fn blank() -> Event<Dense> {
    event(at(99, 9), 99, 99, 99, 99)
}

// The call was refused, with this number.
// kept: numbers, since the tests are of the numbers that refusals and reasons have
pub fn refused<T: Drop>(rt: &impl Abort, answer: Result<T, Refusal>, number: u8) {
    assert_eq!(rt; answer.err().map(Refusal::number), Some(number));
}

// The run took so many steps, wrote so many events, and stopped for the reason of this number.
pub fn ran(rt: &impl Abort, answer: Ran, steps: u16, events: u16, reason: u8) {
    assert_eq!(rt; answer.steps, steps);
    assert_eq!(rt; answer.events, events);
    assert_eq!(rt; answer.stop.number(), reason);
}
