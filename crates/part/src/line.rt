// The delay line: repeats its latest input after a delay.
ghost use Rattle.std.specs.Prelude.{◌≡◌};
ghost use Rattle.part.specs.Line.{delay_line, Delays, line_starts};
ghost use Rattle.std.proofs.Common.{rules};

use crate::part::{Output, Part};
use clock::clock::Clock;

#[derive(Clone, Copy, PartialEq, Eq, Debug)]
pub struct Line<C> {
    pub delay: u16,
    pub value: u8,
    // the span left until it fires, or never
    pub left: Option<C>,
}

impl<C: Clock> Line<C> {
    // A delay line that has seen no input. Every delay of 16 bits is in range.
    pub fn new(delay: u16) -> Line<C>
        ensures starts_idle { result ≡ line_starts C.Clock.time delay }
        ensures is_sound { Delays C.Clock.time result }
    {
        Line {
            delay,
            value: 0,
            left: None,
        }
    }
}

impl<C: Clock> Part<C> for Line<C> {
    ghost kind = { delay_line C.Clock.time };

    ghost sound = { Delays C.Clock.time };

    ghost rules = { Prim.search rules };

    fn advance(&self) -> Option<C> {
        self.left
    }

    fn output(&self) -> Output {
        match self.left {
            Some(_) => Output {
                pins: 1,
                value: self.value,
            },
            None => Output { pins: 0, value: 0 },
        }
    }

    fn internal(&mut self) {
        self.left = None;
    }

    fn external(&mut self, elapsed: C, pins: u8, value: u8) {
        self.value = value;
        self.left = Some(C::wait(u32::from(self.delay)));
    }
}
