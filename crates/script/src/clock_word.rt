// The words of clocks.
ghost use Rattle.std.specs.Prelude.{◌≡◌, MatchOption, ◌≢◌};
ghost use Rattle.script.specs.Words.{clock_word};

use grammar::word::Word;

// The clock that a board is run on.
#[derive(Clone, Copy, PartialEq, Eq, Debug)]
pub enum ClockWord {
    Superdense,
    Plain,
}

impl ClockWord {
    // The clock that a word names; it is called without the trait too.
    pub fn named(word: &[u8]) -> Option<ClockWord>
        ensures names_it_or_refuses { MatchOption result ((k : ClockWord) → clock_word k ≢ word.now) (λ k. clock_word k ≡ word.now) }
    {
        <ClockWord as Word>::named(word)
    }
}

impl Word for ClockWord {
    ghost spelling = { clock_word };

    fn named(text: &[u8]) -> Option<ClockWord> {
        match text {
            b"superdense" => Some(ClockWord::Superdense),
            b"plain" => Some(ClockWord::Plain),
            _ => None,
        }
    }
}
