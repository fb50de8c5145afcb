// How a reason to stop is printed.
ghost use Rattle.std.specs.Prelude.{Some};
ghost use Rattle.session.specs.Numbers.{stop_words};

use crate::answers::Stop;
use std::fmt;

impl fmt::Display for Stop {
    // its words
    ghost output = { λ s. Some (stop_words s) };

    fn fmt<W: fmt::Write>(&self, f: &mut fmt::Formatter<W>) -> fmt::Result {
        match self {
            Stop::Budget => f.write_str("the budget of steps is spent"),
            Stop::NothingDue => f.write_str("no part will ever fire again"),
            Stop::Horizon => f.write_str("the next firing comes after the horizon"),
            Stop::Ceiling => f.write_str("the next firing is beyond the clock's ceiling"),
            Stop::TraceFull => f.write_str("the trace has no free record for the next event"),
        }
    }
}
