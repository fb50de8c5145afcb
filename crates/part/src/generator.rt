// The generator: fires a value at every period, and counts it up.
ghost use Rattle.std.specs.Prelude.{◌≡◌, ◌<◌, ◌≤◌, MatchOption};
ghost use Rattle.part.specs.Gen.{generator, Generates, generator_starts};
ghost use Rattle.std.proofs.Common.{rules};

use crate::part::{Output, Part};
use clock::clock::Clock;

#[derive(Clone, Copy, PartialEq, Eq, Debug)]
pub struct Gen<C> {
    pub period: u16,
    pub value: u8,
    pub step: u8,
    // the span left until it fires
    pub left: C,
}

impl<C: Clock> Gen<C> {
    // A generator that has just been switched on, or nothing where the period is 0.
    pub fn new(period: u16, value: u8, step: u8) -> Option<Gen<C>>
        ensures starts_or_refuses { MatchOption result (period ≡ 0) (λ s. (s ≡ generator_starts C.Clock.time period value step) × Generates C.Clock.time s) }
    {
        if period == 0 {
            return None;
        }
        Some(Gen {
            period,
            value,
            step,
            left: C::wait(u32::from(period)),
        })
    }
}

impl<C: Clock> Part<C> for Gen<C> {
    ghost kind = { generator C.Clock.time };

    ghost sound = { Generates C.Clock.time };

    ghost rules = { Prim.search rules };

    fn advance(&self) -> Option<C> {
        Some(self.left)
    }

    fn output(&self) -> Output {
        Output {
            pins: 1,
            value: self.value,
        }
    }

    fn internal(&mut self) {
        self.value = self.value.wrapping_add(self.step);
        self.left = C::wait(u32::from(self.period));
    }

    fn external(&mut self, elapsed: C, pins: u8, value: u8) {
        self.value = value;
        self.left = elapsed.gap_to(self.left);
    }
}
