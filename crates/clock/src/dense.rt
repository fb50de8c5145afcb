ghost use Rattle.std.specs.Prelude.{◌≡◌, ◌<◌, ◌≤◌, ◌⊎◌, MatchOption};

// A value of the superdense clock: a tick, and a microstep within it.
#[derive(Clone, Copy, PartialEq, Eq, PartialOrd, Ord, Debug)]
pub struct Dense {
    pub tick: u64,
    pub micro: u32,
    // no value beyond what is held can exist
    ghost held_tick: { tick ≤ 8589934590 },
    ghost held_micro: { micro ≤ 16842750 },
}

impl Dense {
    // within the ceiling are the moments of which neither number is above these
    pub const CEILING: Dense = Dense {
        tick: 4_294_967_295,
        micro: 16_777_215,
    };

    // the largest value held
    pub const LARGEST: Dense = Dense {
        tick: 8_589_934_590,
        micro: 16_842_750,
    };

    // tick:micro, or nothing where the clock cannot hold it.
    pub fn new(tick: u64, micro: u32) -> Option<Dense>
        ensures holds_it_or_refuses { MatchOption result ((8589934590 < tick) ⊎ (16842750 < micro)) (λ t. (t.tick ≡ tick) × (t.micro ≡ micro)) }
    {
        if tick > Dense::LARGEST.tick || micro > Dense::LARGEST.micro {
            return None;
        }
        Some(Dense { tick, micro })
    }

    pub fn tick(&self) -> u64
        ensures is_the_tick { result ≡ self.now.tick }
    {
        self.tick
    }

    pub fn micro(&self) -> u32
        ensures is_the_microstep { result ≡ self.now.micro }
    {
        self.micro
    }
}
