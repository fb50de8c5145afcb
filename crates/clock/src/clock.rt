// What every clock answers, and the laws that it keeps.
ghost use Rattle.std.specs.Prelude.{◌≡◌};
ghost use Rattle.clock.specs.Time.{Time, Laws};

// A clock's values serve as moments, counted from opening, and as spans.
// Each answer depends on the arguments alone, and nothing is refused.
pub trait Clock: Copy {
    // what the answers mean
    ghost time: { Time Self };

    fn zero() -> Self
        ensures is_zero { result ≡ time.zero };

    // The span that a part waits which waits `ticks` ticks.
    fn wait(ticks: u32) -> Self
        ensures is_the_wait { result ≡ time.wait ticks };

    // kept: a method of the public interface, by which the laws speak of the order; each clock answers it by its derived one
    fn not_after(self, other: Self) -> bool
        ensures is_the_order { result ≡ time.leq self other };

    // The moment that lies `span` after this one.
    fn plus(self, span: Self) -> Self
        ensures is_the_sum { result ≡ time.sum self span };

    // The span from this moment to a later one.
    fn gap_to(self, later: Self) -> Self
        ensures is_the_gap { result ≡ time.gap self later };

    fn within_ceiling(self) -> bool
        ensures is_the_ceiling_test { result ≡ time.within self };

    // the clock laws
    ghost lawful: { Laws time };
}
