// The UART: sends the bytes it is given one after another, holds one, and tells how many it lost.
ghost use Rattle.std.specs.Prelude.{◌≡◌, MatchOption};
ghost use Rattle.part.specs.Uart.{serial, Transmits, uart_starts, next, takes, happens};
ghost use Rattle.std.proofs.Common.{rules};

use crate::part::{Output, Part};
use clock::clock::Clock;

#[derive(Clone, Copy, PartialEq, Eq, Debug)]
pub enum Phase<C> {
    Idle,
    // the byte on the wire, and the span left until it is sent
    Sending { byte: u8, left: C },
    // the span left until the lost count is told
    Telling { left: C },
}

#[derive(Clone, Copy, PartialEq, Eq, Debug)]
pub struct Uart<C> {
    pub baud: u16,
    pub phase: Phase<C>,
    // the holding place
    pub held: Option<u8>,
    pub lost: u8,
}

// What can happen to it.
#[derive(Clone, Copy)]
enum Event<C> {
    Fires,
    Byte { elapsed: C, byte: u8 },
}

impl<C: Clock> Uart<C> {
    // An idle UART, or nothing where the time for a bit is 0.
    pub fn new(baud: u16) -> Option<Uart<C>>
        ensures starts_idle_or_refuses { MatchOption result (baud ≡ 0) (λ s. (s ≡ uart_starts C.Clock.time baud) × Transmits C.Clock.time s) }
    {
        if baud == 0 {
            return None;
        }
        Some(Uart {
            baud,
            phase: Phase::Idle,
            held: None,
            lost: 0,
        })
    }

    // A byte on the wire: it takes ten bits.
    fn sending(self, byte: u8) -> Phase<C>
        ensures value { result ≡ Rattle.part.specs.Uart.sending C.Clock.time self.baud byte }
    {
        Phase::Sending {
            byte,
            left: C::wait(10 * u32::from(self.baud)),
        }
    }

    // A held byte is sent next; else it is idle.
    fn next(self) -> Uart<C>
        ensures value { result ≡ next C.Clock.time self.baud self.held }
    {
        Uart {
            phase: self.held.map_or(Phase::Idle, |byte| self.sending(byte)),
            held: None,
            lost: 0,
            ..self
        }
    }

    // A byte that comes while another is on the wire: it is held, or it is lost.
    fn takes(self, phase: Phase<C>, byte: u8) -> Uart<C>
        ensures value { result ≡ takes self.baud phase self.held self.lost byte }
    {
        match self.held {
            None => Uart {
                phase,
                held: Some(byte),
                ..self
            },
            Some(_) => Uart {
                phase,
                lost: self.lost.saturating_add(1),
                ..self
            },
        }
    }

    fn after(self, event: Event<C>) -> Uart<C>
        ensures value { result ≡ happens C.Clock.time self event }
    {
        match (self.phase, event) {
            (Phase::Idle, Event::Fires) => self,
            (Phase::Idle, Event::Byte { byte, .. }) => Uart {
                phase: self.sending(byte),
                ..self
            },
            (Phase::Sending { .. }, Event::Fires) if self.lost > 0 => Uart {
                phase: Phase::Telling { left: C::wait(0) },
                ..self
            },
            (Phase::Sending { .. } | Phase::Telling { .. }, Event::Fires) => self.next(),
            (Phase::Sending { byte: sent, left }, Event::Byte { elapsed, byte }) => {
                let left = elapsed.gap_to(left);
                self.takes(Phase::Sending { byte: sent, left }, byte)
            }
            (Phase::Telling { left }, Event::Byte { elapsed, byte }) => {
                let left = elapsed.gap_to(left);
                self.takes(Phase::Telling { left }, byte)
            }
        }
    }
}

impl<C: Clock> Part<C> for Uart<C> {
    ghost kind = { serial C.Clock.time };

    ghost sound = { Transmits C.Clock.time };

    ghost rules = { Prim.search rules };

    fn advance(&self) -> Option<C> {
        match self.phase {
            Phase::Idle => None,
            Phase::Sending { left, .. } | Phase::Telling { left } => Some(left),
        }
    }

    fn output(&self) -> Output {
        match self.phase {
            Phase::Idle => Output { pins: 0, value: 0 },
            Phase::Sending { byte, .. } => Output {
                pins: 1,
                value: byte,
            },
            Phase::Telling { .. } => Output {
                pins: 2,
                value: self.lost,
            },
        }
    }

    fn internal(&mut self) {
        *self = self.after(Event::Fires);
    }

    fn external(&mut self, elapsed: C, pins: u8, value: u8) {
        *self = self.after(Event::Byte {
            elapsed,
            byte: value,
        });
    }
}
