// The plain clock: whole numbers of ticks.
ghost use Rattle.std.specs.Prelude.{◌≡◌};
ghost use Rattle.clock.specs.Plain.{plain};
ghost use Rattle.clock.specs.PlainLaws.{plain_laws};

use crate::clock::Clock;
use crate::ticks::Ticks;

impl Clock for Ticks {
    ghost time = { plain };

    ghost lawful = { plain_laws };

    fn zero() -> Ticks {
        Ticks { count: 0 }
    }

    fn wait(ticks: u32) -> Ticks {
        Ticks {
            count: u64::from(ticks),
        }
    }

    fn not_after(self, other: Ticks) -> bool {
        self <= other
    }

    fn plus(self, span: Ticks) -> Ticks {
        Ticks::new(self.count + span.count).unwrap_or(Ticks::LARGEST)
    }

    fn gap_to(self, later: Ticks) -> Ticks {
        Ticks {
            count: later.count.saturating_sub(self.count),
        }
    }

    fn within_ceiling(self) -> bool {
        self <= Ticks::CEILING
    }
}
