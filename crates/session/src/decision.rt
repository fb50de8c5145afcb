// Whether a run goes on.
ghost use Rattle.std.specs.Prelude.{◌≡◌, ◌<◌, ◌≤◌, length};
ghost use Rattle.session.specs.Machine.{model, output_at};
ghost use Rattle.session.specs.Calls.{Decided};

use crate::answers::Stop;
use crate::places::Place;
use crate::scan::{Due, imminent};
use clock::clock::Clock;
use coupling::coupling::Coupling;
use part::part::Part;

// The output pins of a part.
fn output_pins<P: Part<C>, C: Clock>(places: &[Place<P, C>], part: usize) -> u8
    requires has_a_place { part < length places.now }
    ensures are_its_pins { result ≡ (output_at P.Part.kind places.now part).pins }
{
    places[part].part.output().pins
}

// What fires next, or why the run stops, with so much budget and so many records left.
// kept: the places and their coupling apart, since each call is lent its places anew
pub(crate) fn decide<P: Part<C>, C: Clock, K: Coupling>(
    coupling: &K,
    places: &[Place<P, C>],
    horizon: C,
    budget: u16,
    room: usize,
) -> Result<Due<C>, Stop>
    requires has_places { (K.Coupling.wiring coupling.now).parts ≤ length places.now }
    ensures decides_as_the_rules_say { Decided (model C.Clock.time P.Part.kind (K.Coupling.wiring coupling.now)) horizon budget room places.now result }
{
    match (budget, imminent(&places[..coupling.parts()])) {
        (0, _) => Err(Stop::Budget),
        (_, None) => Err(Stop::NothingDue),
        (_, Some(due)) if !due.moment.not_after(horizon) => Err(Stop::Horizon),
        (_, Some(due)) if !due.moment.within_ceiling() => Err(Stop::Ceiling),
        (_, Some(due)) if room == 0 && output_pins(places, due.part) > 0 => Err(Stop::TraceFull),
        (_, Some(due)) => Ok(due),
    }
}
