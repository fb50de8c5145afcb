// The text of a line.
ghost use Rattle.std.specs.Prelude.{◌≡◌, ◌∷◌, [], length, Decides, MatchOption, MatchResult, ◌≢◌};
ghost use Rattle.grammar.specs.Pieces.{split};
ghost use Rattle.grammar.specs.Lines.{Word, Tidy};
ghost use Rattle.grammar.specs.Rules.{first};
ghost use Rattle.grammar.specs.declared.fault.TextFault.TheVariants.{BadText};

use crate::fault::TextFault;
use crate::words::Words;

// Whether a text is a field: not empty, and of printable bytes other than the space.
fn is_word(text: &[u8]) -> bool
    ensures value { Decides result (Word text.now) }
{
    !text.is_empty() && text.iter().all(|b| b.is_ascii_graphic())
}

// How many fields a line has, or nothing where its text is none of a line: short, and of fields with single spaces between them.
#[tactic(auto, using(crate::proofs::Rejoining::split_few))]
fn fields_in(text: &[u8]) -> Option<usize>
    ensures counts_or_refuses { MatchOption result (Tidy text.now → ⊥) (λ n. Tidy text.now × (n ≡ length (split 32 text.now))) }
{
    if text.len() > 80 {
        return None;
    }
    let mut count = 0;
    'fields: for word in Words::of(text) {
        if !is_word(word) {
            return None;
        }
        count += 1;
    }
    Some(count)
}

// A line whose text is one of a line, with its number in the file and the count of its fields.
#[derive(Clone, Copy)]
pub(crate) struct Line<'a> {
    pub(crate) text: &'a [u8],
    pub(crate) number: usize,
    pub(crate) count: usize,
    ghost counted: { count ≡ length (split 32 text.now) },
}

impl<'a> Line<'a> {
    pub(crate) fn of(text: &'a [u8], number: usize) -> Result<Line<'a>, TextFault>
        ensures passes_or_refuses { MatchResult result (λ line. Tidy text.now × (line.text.now ≡ text.now) × (line.number ≡ number)) (λ e. (Tidy text.now → ⊥) × (e ≡ BadText number)) }
    {
        let count = fields_in(text).ok_or(TextFault::BadText { line: number })?;
        Ok(Line {
            text,
            number,
            count,
        })
    }

    // The letter that it begins with.
    pub(crate) fn letter(self) -> Option<char>
        ensures is_the_letter { MatchOption result (length (first (split 32 self.entry.text.now)) ≢ 1) (λ c. first (split 32 self.entry.text.now) ≡ c ∷ []) }
    {
        match Words::of(self.text).next()? {
            [letter] => Some(char::from(*letter)),
            _ => None,
        }
    }
}
