// A run: steps repeated until a reason to stop.
ghost use Rattle.std.specs.Prelude.{◌≡◌, ℕ, ◌≤◌, length, MatchResult};
ghost use Rattle.session.specs.Machine.{model, memory};
ghost use Rattle.session.specs.Calls.{Run, RunsTo, Kept, OnlyOutcome, LaterKept, traced};

use crate::answers::{Ran, Refusal};
use crate::decision::decide;
use crate::delivery::fire;
use crate::places::{Event, Place};
use crate::session::Session;
use clock::clock::Clock;
use coupling::coupling::Coupling;
use part::part::Part;

// Fires part after part, and writes the events to the trace.
// kept: the arguments of `run`, one by one, since places and trace are lent for one call
fn firings<P: Part<C>, C: Clock, K: Coupling>(
    session: &mut Session<C>,
    coupling: &K,
    places: &mut [Place<P, C>],
    horizon: C,
    budget: u16,
    trace: &mut [Event<C>],
) -> Ran
    requires has_places { (K.Coupling.wiring coupling.now).parts ≤ length places.old }
    ensures runs { Run (model C.Clock.time P.Part.kind (K.Coupling.wiring coupling.now)) horizon budget (traced (memory places.old session.old.now) trace.old) (traced (memory places.new session.new.now) trace.new) result }
{
    let mut steps: u16 = 0;
    let mut events: u16 = 0;
    // kept: both counts are answered, and one match says when it stops; a range or an iterator would count again
    'firings: loop {
        let room = trace.len() - usize::from(events);
        match decide(coupling, places, horizon, budget - steps, room) {
            Err(stop) => {
                return Ran {
                    steps,
                    events,
                    stop,
                };
            }
            Ok(due) => {
                let event = fire(places, coupling, due);
                session.now = due.moment;
                steps += 1;
                if event.pins > 0 {
                    trace[usize::from(events)] = event;
                    events += 1;
                }
            }
        }
    }
}

impl<C: Clock> Session<C> {
    // Repeats step until a reason to stop; the events go to the first records of the trace.
    pub fn run<P: Part<C>, K: Coupling>(
        &mut self,
        coupling: &K,
        places: &mut [Place<P, C>],
        horizon: C,
        budget: u16,
        trace: &mut [Event<C>],
    ) -> Result<Ran, Refusal>
        ensures repeats_step { RunsTo (model C.Clock.time P.Part.kind (K.Coupling.wiring coupling.now)) horizon budget (traced (memory places.old self.old.now) trace.old) (traced (memory places.new self.new.now) trace.new) result }
        ensures refusal_leaves_memory_and_trace { Kept (traced (memory places.old self.old.now) trace.old) (traced (memory places.new self.new.now) trace.new) result }
        ensures writes_no_other_record { LaterKept result trace.old trace.new }
        ensures has_one_outcome { OnlyOutcome (RunsTo (model C.Clock.time P.Part.kind (K.Coupling.wiring coupling.now)) horizon budget (traced (memory places.old self.old.now) trace.old)) (traced (memory places.new self.new.now) trace.new) result }
    {
        if places.len() < coupling.parts() {
            return Err(Refusal::TooFewPlaces);
        }
        if !horizon.within_ceiling() {
            return Err(Refusal::BeyondCeiling);
        }
        Ok(firings(self, coupling, places, horizon, budget, trace))
    }
}
