// Which part fires next.
ghost use Rattle.std.specs.Prelude.{◌≡◌, ◌<◌, map, length, IfSome};
ghost use Rattle.session.specs.Machine.{due, First};
ghost use Rattle.session.specs.Scan.{sooner};

use crate::places::Place;
use clock::clock::Clock;
use part::part::Part;

// A part, and the moment at which it is due.
#[derive(Clone, Copy)]
pub struct Due<C> {
    pub moment: C,
    pub part: usize,
}

impl<P: Part<C>, C: Clock> Place<P, C> {
    // When the part is due.
    fn due_moment(&self) -> Option<C>
        ensures last_moment_plus_advance { result ≡ due C.Clock.time P.Part.kind self.now }
    {
        self.part.advance().map(|span| self.last.plus(span))
    }
}

// The sooner of the best so far and the next part; on equal moments the best so far stays.
fn sooner_of<C: Clock>(best: Option<Due<C>>, part: usize, moment: Option<C>) -> Option<Due<C>>
    ensures is_the_sooner { result ≡ sooner C.Clock.time best part moment }
{
    match (best, moment) {
        (_, None) => best,
        // kept: apart from the last arm: with one for both the choice is compiled to a branch, and a run of many parts takes a third longer
        (None, Some(moment)) => Some(Due { moment, part }),
        (Some(first), Some(moment)) if first.moment.not_after(moment) => best,
        (Some(_), Some(moment)) => Some(Due { moment, part }),
    }
}

// The imminent one of the parts in these places, or nothing where none will ever fire.
pub(crate) fn imminent<P: Part<C>, C: Clock>(places: &[Place<P, C>]) -> Option<Due<C>>
    ensures is_imminent { First C.Clock.time (map (due C.Clock.time P.Part.kind) places.now) result }
    ensures is_one_of_the_parts { IfSome result (λ d. d.part < length places.now) }
{
    let mut best = None;
    'parts: for (part, place) in places.iter().enumerate() {
        best = sooner_of(best, part, place.due_moment());
    }
    best
}
