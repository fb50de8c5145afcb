// What the calls of a session answer, and the number of each refusal and each stop reason.
ghost use Rattle.std.specs.Prelude.{◌≡◌};
ghost use Rattle.session.specs.Calls.{told};
ghost use Rattle.session.specs.Numbers.{refusal_number, stop_number};

use crate::places::Event;

// Why a call is refused. A refused call changes nothing.
#[derive(Clone, Copy, PartialEq, Eq, Debug)]
pub enum Refusal {
    // some part has no place, or no start state
    TooFewPlaces,
    // the moment or horizon is beyond the ceiling
    BeyondCeiling,
    // the pin set is empty, or has a pin that is no input of the board
    BadPins,
    // the moment is before now
    BeforeNow,
    // some part is due before the moment
    PartDueBefore,
    // no part will ever fire
    NothingDue,
    // the next firing is beyond the ceiling
    DueBeyondCeiling,
}

impl Refusal {
    pub fn number(self) -> u8
        ensures is_its_number { result ≡ refusal_number self }
    {
        match self {
            Refusal::TooFewPlaces => 11,
            Refusal::BeyondCeiling => 12,
            Refusal::BadPins => 13,
            Refusal::BeforeNow => 14,
            Refusal::PartDueBefore => 15,
            Refusal::NothingDue => 16,
            Refusal::DueBeyondCeiling => 17,
        }
    }
}

// Why a run stops.
#[derive(Clone, Copy, PartialEq, Eq, Debug)]
pub enum Stop {
    // the budget is spent
    Budget,
    // no part will ever fire
    NothingDue,
    // the next firing is after the horizon
    Horizon,
    // the next firing is beyond the ceiling
    Ceiling,
    // the next firing is an event, and no record is free for it
    TraceFull,
}

impl Stop {
    pub fn number(self) -> u8
        ensures is_its_number { result ≡ stop_number self }
    {
        match self {
            Stop::Budget => 1,
            Stop::NothingDue => 2,
            Stop::Horizon => 3,
            Stop::Ceiling => 4,
            Stop::TraceFull => 5,
        }
    }
}

// What a step answers: an event, or the moment of a firing with no output.
// kept: no `Result`, since a silent firing is no failure
#[derive(Clone, Copy, PartialEq, Eq, Debug)]
pub enum Firing<C> {
    Output(Event<C>),
    Silent(C),
}

impl<C: Copy> From<Event<C>> for Firing<C> {
    // a firing with no output pins is silent
    ghost from_gives = { λ event firing. firing ≡ told event };

    fn from(event: Event<C>) -> Firing<C> {
        if event.pins == 0 {
            Firing::Silent(event.moment)
        } else {
            Firing::Output(event)
        }
    }
}

// What a run answers: the steps taken, the events written, and why it stopped.
#[derive(Clone, Copy, PartialEq, Eq, Debug)]
pub struct Ran {
    pub steps: u16,
    pub events: u16,
    pub stop: Stop,
}
