// Parts of the catalogue in their start states.
ghost use Rattle.std.specs.Prelude.{◌≡◌, MatchOption};
ghost use Rattle.part.specs.Gen.{generator_starts};
ghost use Rattle.part.specs.Line.{line_starts};
ghost use Rattle.part.specs.Uart.{uart_starts};
ghost use Rattle.part.specs.declared.catalogue.Catalogue.TheVariants as kinds;

use clock::clock::Clock;
use part::catalogue::Catalogue;
use part::generator::Gen;
use part::line::Line;
use part::uart::Uart;

// A delay line that has seen no input.
pub fn line<C: Clock>(delay: u16) -> Catalogue<C>
    ensures starts_idle { result ≡ kinds.Line (line_starts C.Clock.time delay) }
{
    Catalogue::Line(Line::new(delay))
}

// A generator that has just been switched on, or nothing where the period is 0.
pub fn generator<C: Clock>(period: u16, value: u8, step: u8) -> Option<Catalogue<C>>
    ensures starts_or_refuses { MatchOption result (period ≡ 0) (λ s. s ≡ kinds.Gen (generator_starts C.Clock.time period value step)) }
{
    Gen::new(period, value, step).map(Catalogue::Gen)
}

// An idle UART, or nothing where the time for a bit is 0.
pub fn uart<C: Clock>(baud: u16) -> Option<Catalogue<C>>
    ensures starts_idle_or_refuses { MatchOption result (baud ≡ 0) (λ s. s ≡ kinds.Uart (uart_starts C.Clock.time baud)) }
{
    Uart::new(baud).map(Catalogue::Uart)
}
