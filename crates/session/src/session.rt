// The calls of a session.
ghost use Rattle.std.specs.Prelude.{◌≡◌, ◌^◌, ◌≤◌, ◌⊎◌, ◌++◌, map, length, take, drop, MatchBool, MatchResult};
ghost use Rattle.coupling.specs.declared.coupling.Source.TheVariants.{Board};
ghost use Rattle.session.specs.Machine.{model, memory, due};
ghost use Rattle.session.specs.Calls.{Opens, Next, Puts, Steps, Kept, OnlyAnswer, OnlyOutcome, Reached, FiredAlone, DueBefore};

use crate::answers::{Firing, Refusal};
use crate::delivery::{deliver, fire};
use crate::places::Place;
use crate::scan::imminent;
use clock::clock::Clock;
use coupling::coupling::{Coupling, Source};
use part::part::Part;

// A session with a board, whose parts are in places that each call is lent.
#[derive(Clone, Copy)]
pub struct Session<C> {
    pub now: C,
}

// The earliest moment at which a part is due, or nothing where none will ever fire. It changes nothing.
pub fn next<P: Part<C>, C: Clock, K: Coupling>(
    coupling: &K,
    places: &[Place<P, C>],
) -> Result<Option<C>, Refusal>
    ensures answers_the_earliest { Next (model C.Clock.time P.Part.kind (K.Coupling.wiring coupling.now)) places.now result }
    ensures has_one_outcome { OnlyAnswer (Next (model C.Clock.time P.Part.kind (K.Coupling.wiring coupling.now)) places.now) result }
{
    let places = places.get(..coupling.parts()).ok_or(Refusal::TooFewPlaces)?;
    Ok(imminent(places).map(|due| due.moment))
}

// Whether a pin set is non-empty, and each of its pins is one of the first `inputs`.
fn good_pins(pins: u8, inputs: u8) -> bool
    requires few { inputs ≤ 8 }
    ensures value { MatchBool result ((pins ≡ 0) ⊎ (2 ^ inputs ≤ pins) → ⊥) ((pins ≡ 0) ⊎ (2 ^ inputs ≤ pins)) }
{
    pins != 0 && u16::from(pins) < 1 << inputs
}

// Whether some part is due before the moment.
fn due_before<P: Part<C>, C: Clock>(places: &[Place<P, C>], moment: C) -> bool
    ensures value { MatchBool result (DueBefore C.Clock.time (map (due C.Clock.time P.Part.kind) places.now) moment) (DueBefore C.Clock.time (map (due C.Clock.time P.Part.kind) places.now) moment → ⊥) }
{
    imminent(places).is_some_and(|due| !moment.not_after(due.moment))
}

// Puts each part in its start state.
fn start<P: Part<C>, C: Clock>(places: &mut [Place<P, C>], starts: &[P])
    requires one_each { length places.old ≡ length starts.now }
    ensures starts_each { places.new ≡ map (λ s. record { part = s; last = C.Clock.time.zero }) starts.now }
{
    let last = C::zero();
    // kept: numbered, and no `zip`: the proof did not close, since no fact says what `zip` over `iter_mut` wrote
    'parts: for (i, place) in places.iter_mut().enumerate() {
        *place = Place {
            part: starts[i],
            last,
        };
    }
}

impl<C: Clock> Session<C> {
    // A session that has not been opened.
    pub fn new() -> Session<C>
        ensures is_at_zero { result.now ≡ C.Clock.time.zero }
    {
        Session { now: C::zero() }
    }

    // Writes every part's start state to its place, and goes back to moment zero.
    pub fn open<P: Part<C>, K: Coupling>(
        &mut self,
        coupling: &K,
        places: &mut [Place<P, C>],
        starts: &[P],
    ) -> Result<(), Refusal>
        ensures starts_every_part { Opens (model C.Clock.time P.Part.kind (K.Coupling.wiring coupling.now)) starts.now (memory places.old self.old.now) (memory places.new self.new.now) result }
        ensures refusal_leaves_memory { Kept (memory places.old self.old.now) (memory places.new self.new.now) result }
        ensures has_one_outcome { OnlyOutcome (Opens (model C.Clock.time P.Part.kind (K.Coupling.wiring coupling.now)) starts.now (memory places.old self.old.now)) (memory places.new self.new.now) result }
    {
        let parts = coupling.parts();
        if places.len() < parts || starts.len() < parts {
            return Err(Refusal::TooFewPlaces);
        }
        start(&mut places[..parts], &starts[..parts]);
        self.now = C::zero();
        Ok(())
    }

    // An input from outside: each part that the pins reach takes the value.
    pub fn put<P: Part<C>, K: Coupling>(
        &mut self,
        coupling: &K,
        places: &mut [Place<P, C>],
        moment: C,
        pins: u8,
        value: u8,
    ) -> Result<(), Refusal>
        ensures delivers_the_input { Puts (model C.Clock.time P.Part.kind (K.Coupling.wiring coupling.now)) moment pins value (memory places.old self.old.now) (memory places.new self.new.now) result }
        ensures refusal_leaves_memory { Kept (memory places.old self.old.now) (memory places.new self.new.now) result }
        ensures changes_exactly_what_is_reached { MatchResult result (λ _. Reached (model C.Clock.time P.Part.kind (K.Coupling.wiring coupling.now)) moment Board pins value places.old places.new) (λ _. places.new ≡ places.old) }
        ensures has_one_outcome { OnlyOutcome (Puts (model C.Clock.time P.Part.kind (K.Coupling.wiring coupling.now)) moment pins value (memory places.old self.old.now)) (memory places.new self.new.now) result }
    {
        let parts = coupling.parts();
        if places.len() < parts {
            return Err(Refusal::TooFewPlaces);
        }
        if !moment.within_ceiling() {
            return Err(Refusal::BeyondCeiling);
        }
        if !good_pins(pins, coupling.inputs()) {
            return Err(Refusal::BadPins);
        }
        if !self.now.not_after(moment) {
            return Err(Refusal::BeforeNow);
        }
        if due_before(&places[..parts], moment) {
            return Err(Refusal::PartDueBefore);
        }
        let row = coupling.reach(Source::Board, pins);
        deliver(&mut places[..parts], &row, moment, value);
        self.now = moment;
        Ok(())
    }

    // Fires the imminent part.
    pub fn step<P: Part<C>, K: Coupling>(
        &mut self,
        coupling: &K,
        places: &mut [Place<P, C>],
    ) -> Result<Firing<C>, Refusal>
        ensures fires_the_imminent_part { Steps (model C.Clock.time P.Part.kind (K.Coupling.wiring coupling.now)) (memory places.old self.old.now) (memory places.new self.new.now) result }
        ensures refusal_leaves_memory { Kept (memory places.old self.old.now) (memory places.new self.new.now) result }
        ensures changes_only_what_fires_or_is_reached { MatchResult result (λ _. FiredAlone (model C.Clock.time P.Part.kind (K.Coupling.wiring coupling.now)) places.old places.new) (λ _. places.new ≡ places.old) }
        ensures has_one_outcome { OnlyOutcome (Steps (model C.Clock.time P.Part.kind (K.Coupling.wiring coupling.now)) (memory places.old self.old.now)) (memory places.new self.new.now) result }
    {
        let parts = coupling.parts();
        if places.len() < parts {
            return Err(Refusal::TooFewPlaces);
        }
        let due = imminent(&places[..parts]).ok_or(Refusal::NothingDue)?;
        if !due.moment.within_ceiling() {
            return Err(Refusal::DueBeyondCeiling);
        }
        self.now = due.moment;
        Ok(Firing::from(fire(places, coupling, due)))
    }
}
