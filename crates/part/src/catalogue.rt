// The catalogue: one kind that is any of the three.
ghost use Rattle.std.specs.Prelude.{◌≡◌};
ghost use Rattle.part.specs.Catalogue.{catalogue, Stocked};
ghost use Rattle.std.proofs.Common.{rules};

use crate::generator::Gen;
use crate::line::Line;
use crate::part::{Output, Part};
use crate::uart::Uart;
use clock::clock::Clock;

#[derive(Clone, Copy, PartialEq, Eq, Debug)]
pub enum Catalogue<C> {
    Gen(Gen<C>),
    Uart(Uart<C>),
    Line(Line<C>),
}

// kept: a match in each method, since a part is Copy and a `dyn Part` is not
impl<C: Clock> Part<C> for Catalogue<C> {
    ghost kind = { catalogue C.Clock.time };

    ghost sound = { Stocked C.Clock.time };

    ghost rules = { Prim.search rules };

    fn advance(&self) -> Option<C> {
        match self {
            Catalogue::Gen(part) => part.advance(),
            Catalogue::Uart(part) => part.advance(),
            Catalogue::Line(part) => part.advance(),
        }
    }

    fn output(&self) -> Output {
        match self {
            Catalogue::Gen(part) => part.output(),
            Catalogue::Uart(part) => part.output(),
            Catalogue::Line(part) => part.output(),
        }
    }

    fn internal(&mut self) {
        match self {
            Catalogue::Gen(part) => part.internal(),
            Catalogue::Uart(part) => part.internal(),
            Catalogue::Line(part) => part.internal(),
        }
    }

    fn external(&mut self, elapsed: C, pins: u8, value: u8) {
        match self {
            Catalogue::Gen(part) => part.external(elapsed, pins, value),
            Catalogue::Uart(part) => part.external(elapsed, pins, value),
            Catalogue::Line(part) => part.external(elapsed, pins, value),
        }
    }
}
