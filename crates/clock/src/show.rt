// How moments and spans are printed.
ghost use Rattle.std.specs.Prelude.{◌∷◌, ◌++◌, Some, decimal};

use crate::dense::Dense;
use crate::ticks::Ticks;
use std::fmt;

impl fmt::Display for Ticks {
    // the number of ticks
    ghost output = { λ a. Some (decimal a.count) };

    fn fmt<W: fmt::Write>(&self, f: &mut fmt::Formatter<W>) -> fmt::Result {
        let count = self.count;
        write!(f, "{count}")
    }
}

impl fmt::Display for Dense {
    // tick:micro, with a colon between the numbers
    ghost output = { λ a. Some (decimal a.tick ++ 58 ∷ decimal a.micro) };

    fn fmt<W: fmt::Write>(&self, f: &mut fmt::Formatter<W>) -> fmt::Result {
        let tick = self.tick;
        let micro = self.micro;
        write!(f, "{tick}:{micro}")
    }
}
