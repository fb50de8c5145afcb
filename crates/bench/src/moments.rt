// Moments of both clocks, from numbers that each of them holds.
ghost use Rattle.std.specs.Prelude.{◌≡◌};

use clock::dense::Dense;
use clock::ticks::Ticks;

// The moment tick:micro of the superdense clock.
pub fn at(tick: u32, micro: u16) -> Dense
    ensures is_the_moment { (result.tick ≡ tick) × (result.micro ≡ micro) }
{
    Dense {
        tick: u64::from(tick),
        micro: u32::from(micro),
    }
}

// So many ticks of the plain clock.
pub fn ticks(count: u32) -> Ticks
    ensures is_the_count { result.count ≡ count }
{
    Ticks {
        count: u64::from(count),
    }
}
