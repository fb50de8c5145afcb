// The superdense clock: pairs tick:micro, ordered by tick and then by micro.
ghost use Rattle.std.specs.Prelude.{◌≡◌};
ghost use Rattle.clock.specs.Superdense.{superdense};
ghost use Rattle.clock.specs.SuperdenseLaws.{superdense_laws};

use crate::clock::Clock;
use crate::dense::Dense;
use std::cmp::Ordering;

impl Clock for Dense {
    ghost time = { superdense };

    ghost lawful = { superdense_laws };

    fn zero() -> Dense {
        Dense { tick: 0, micro: 0 }
    }

    // A wait of no ticks still comes later: it is one microstep.
    fn wait(ticks: u32) -> Dense {
        match ticks {
            0 => Dense { tick: 0, micro: 1 },
            _ => Dense {
                tick: u64::from(ticks),
                micro: 0,
            },
        }
    }

    fn not_after(self, other: Dense) -> bool {
        self <= other
    }

    fn plus(self, span: Dense) -> Dense {
        let tick = self.tick + span.tick;
        let micro = match span.tick {
            0 => self.micro + span.micro,
            _ => span.micro,
        };
        Dense::new(tick, micro).unwrap_or(Dense::LARGEST)
    }

    fn gap_to(self, later: Dense) -> Dense {
        match self.tick.cmp(&later.tick) {
            Ordering::Less => Dense {
                tick: later.tick - self.tick,
                micro: later.micro,
            },
            Ordering::Equal => Dense {
                tick: 0,
                micro: later.micro.saturating_sub(self.micro),
            },
            Ordering::Greater => Dense::zero(),
        }
    }

    fn within_ceiling(self) -> bool {
        self.tick <= Dense::CEILING.tick && self.micro <= Dense::CEILING.micro
    }
}
