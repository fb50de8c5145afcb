// Moments as texts.
ghost use Rattle.std.specs.Prelude.{◌≡◌, true, Some, MatchOption, ◌≢◌};
ghost use Rattle.clock.specs.declared.dense.Dense.{Dense};
ghost use Rattle.clock.specs.declared.ticks.Ticks.{Ticks};
ghost use Rattle.script.specs.Moments.{dense_text, ticks_text};

use clock::clock::Clock;
use clock::dense::Dense;
use clock::ticks::Ticks;
use grammar::cut::first_piece;
use grammar::numbers::natural;
use std::fmt;

// A clock whose moments are read as they are printed.
pub trait Moment: Clock + fmt::Display {
    // The moment that is printed as the text.
    fn read(text: &[u8]) -> Option<Self>
        ensures reads_what_is_printed { MatchOption result ((m : Self) → Self.Display.output m ≢ Some text.now) (λ m. Self.Display.output m ≡ Some text.now) };

    // The last moment at which a part may fire.
    fn ceiling() -> Self
        ensures is_within { Self.Clock.time.within result ≡ true }
        ensures is_the_last { (m : Self) → Self.Clock.time.within m ≡ true → Self.Clock.time.leq m result ≡ true };
}

// The whole number of ticks that a text writes.
#[tactic(auto, using(std::proofs::lemmas::Fmt::decimal_injective))]
fn ticks(text: &[u8]) -> Option<Ticks>
    ensures reads_or_refuses { MatchOption result ((m : Ticks) → ticks_text m ≢ text.now) (λ m. ticks_text m ≡ text.now) }
{
    Ticks::new(natural(text)?)
}

// The pair that a text writes: two numbers, with a colon between them.
#[tactic(auto, using(crate::proofs::Written::pairs_are_read))]
fn dense(text: &[u8]) -> Option<Dense>
    ensures reads_or_refuses { MatchOption result ((m : Dense) → dense_text m ≢ text.now) (λ m. dense_text m ≡ text.now) }
{
    let cut = first_piece(text, b':');
    let rest = cut.rest?;
    let tick = natural(cut.piece)?;
    let micro = u32::try_from(natural(rest)?).ok()?;
    Dense::new(tick, micro)
}

impl Moment for Ticks {
    fn read(text: &[u8]) -> Option<Ticks> {
        ticks(text)
    }

    fn ceiling() -> Ticks {
        Ticks::CEILING
    }
}

impl Moment for Dense {
    fn read(text: &[u8]) -> Option<Dense> {
        dense(text)
    }

    fn ceiling() -> Dense {
        Dense::CEILING
    }
}
