ghost use Rattle.std.specs.Prelude.{◌≡◌, ◌<◌, ◌≤◌, MatchOption};

// A value of the plain clock: a whole number of ticks.
#[derive(Clone, Copy, PartialEq, Eq, PartialOrd, Ord, Debug)]
pub struct Ticks {
    pub count: u64,
    // no value beyond what is held can exist
    ghost held: { count ≤ 8589934590 },
}

impl Ticks {
    // the last moment within the ceiling
    pub const CEILING: Ticks = Ticks {
        count: 4_294_967_295,
    };

    // the largest value held
    pub const LARGEST: Ticks = Ticks {
        count: 8_589_934_590,
    };

    // So many ticks, or nothing where the clock cannot hold them.
    pub fn new(count: u64) -> Option<Ticks>
        ensures holds_it_or_refuses { MatchOption result (8589934590 < count) (λ t. t.count ≡ count) }
    {
        if count > Ticks::LARGEST.count {
            return None;
        }
        Some(Ticks { count })
    }

    pub fn count(&self) -> u64
        ensures is_the_count { result ≡ self.now.count }
    {
        self.count
    }
}
