// Inputs and firings, in the places.
ghost use Rattle.std.specs.Prelude.{◌≡◌, ◌<◌, ◌≤◌, length};
ghost use Rattle.coupling.specs.Rows.{set_of};
ghost use Rattle.session.specs.Machine.{given, delivered, model, event_of, fired};

use crate::places::{Event, Place};
use crate::scan::Due;
use clock::clock::Clock;
use coupling::coupling::{Coupling, Source};
use coupling::rows::Row;
use part::part::{Output, Part};

impl<P: Part<C>, C: Clock> Place<P, C> {
    // The place after an input; an empty pin set is no input.
    fn given(self, moment: C, pins: u8, value: u8) -> Place<P, C>
        ensures takes_the_input { result ≡ given C.Clock.time P.Part.kind moment pins value self }
    {
        if pins == 0 {
            return self;
        }
        let mut part = self.part;
        part.external(self.last.gap_to(moment), pins, value);
        Place { part, last: moment }
    }

    // The place after its part has fired.
    fn fired(self, moment: C) -> Place<P, C>
        ensures takes_internal { result ≡ record { part = P.Part.kind.internal self.part; last = moment } }
    {
        let mut part = self.part;
        part.internal();
        Place { part, last: moment }
    }
}

// Gives each part its pin set of the row.
// kept: moment and value apart, as the public `put` is given them
pub(crate) fn deliver<P: Part<C>, C: Clock>(
    places: &mut [Place<P, C>],
    row: &Row,
    moment: C,
    value: u8,
)
    requires in_range { length places.old ≤ 64 }
    ensures gives_each_its_set { places.new ≡ delivered C.Clock.time P.Part.kind moment value (length places.old) (set_of row.now) places.old }
{
    // kept: numbered, and no `zip`: the proof did not close, since no fact says what `zip` over `iter_mut` wrote
    'parts: for (part, place) in places.iter_mut().enumerate() {
        let pins = row.sets[part];
        if pins != 0 {
            *place = place.given(moment, pins, value);
        }
    }
}

// The due part gives its output and takes internal, and the output is delivered.
// kept: the places and their coupling apart, since each call is lent its places anew
pub(crate) fn fire<P: Part<C>, C: Clock, K: Coupling>(
    places: &mut [Place<P, C>],
    coupling: &K,
    due: Due<C>,
) -> Event<C>
    requires has_a_place { ((K.Coupling.wiring coupling.now).parts ≤ length places.old) × (due.part < (K.Coupling.wiring coupling.now).parts) }
    ensures tells_the_event { result ≡ event_of (model C.Clock.time P.Part.kind (K.Coupling.wiring coupling.now)) places.old due.moment due.part }
    ensures leaves_it_fired { places.new ≡ fired (model C.Clock.time P.Part.kind (K.Coupling.wiring coupling.now)) places.old due.moment due.part }
{
    let Due { moment, part } = due;
    let place = places[part];
    let Output { pins, value } = place.part.output();
    places[part] = place.fired(moment);
    let row = coupling.reach(Source::Part(part), pins);
    deliver(&mut places[..coupling.parts()], &row, moment, value);
    Event {
        moment,
        part,
        pins,
        value,
        board: row.board,
    }
}
