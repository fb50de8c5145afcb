// The text layer: the size of a file, and its lines.
ghost use Rattle.std.specs.Prelude.{◌≡◌, ℕ, List, [], ◌∷◌, MatchResult};
ghost use Rattle.grammar.specs.Pieces.{split};
ghost use Rattle.grammar.specs.declared.fault.TextFault.TheVariants.{BadSize};
ghost use Rattle.grammar.specs.declared.fault.LineFault.TheVariants.{Missing};
ghost use Rattle.netlist.specs.Files.{Sized};
ghost use Rattle.netlist.specs.Steps.{Begins, Line};

use crate::lines::Lines;
use grammar::cut::first_piece;
use grammar::fault::{LineFault, TextFault};

impl<'a> Lines<'a> {
    // The lines of a file of 1 to 32,768 bytes, the last being 10.
    pub(crate) fn of(file: &'a [u8]) -> Result<Lines<'a>, TextFault>
        ensures begins_or_refuses { MatchResult result (λ lines. Begins file.now lines) (λ e. (Sized file.now → ⊥) × (e ≡ BadSize)) }
    {
        match file {
            [.., b'\n'] if file.len() <= 32_768 => Ok(Lines {
                rest: file,
                number: 1,
                taken: 0,
            }),
            _ => Err(TextFault::BadSize),
        }
    }

    pub(crate) fn next_line(&mut self) -> Result<&'a [u8], LineFault>
        ensures takes_one_or_misses { MatchResult result (λ line. Line self.old line.now self.new) (λ e. ((last : List ℕ) × (split 10 self.old.rest.now ≡ last ∷ [])) × (e ≡ Missing self.old.number)) }
    {
        let cut = first_piece(self.rest, b'\n');
        let line = cut.piece;
        let number = self.number;
        let rest = cut.rest.ok_or(LineFault::Missing { line: number })?;
        let taken = self.taken;
        *self = Lines {
            rest,
            number: number + 1,
            taken: taken + (line.len() + 1),
        };
        Ok(line)
    }
}
