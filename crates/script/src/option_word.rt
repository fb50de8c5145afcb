// The words of options.
ghost use Rattle.std.specs.Prelude.{◌≡◌, MatchOption, ◌≢◌};
ghost use Rattle.script.specs.Words.{option_word};

use grammar::word::Word;

// What a command may be told besides.
#[derive(Clone, Copy, PartialEq, Eq, Debug)]
pub enum OptionWord {
    Until,
    Budget,
    Clock,
    Summary,
}

impl OptionWord {
    // The option that a word names; it is called without the trait too.
    pub fn named(word: &[u8]) -> Option<OptionWord>
        ensures names_it_or_refuses { MatchOption result ((k : OptionWord) → option_word k ≢ word.now) (λ k. option_word k ≡ word.now) }
    {
        <OptionWord as Word>::named(word)
    }
}

impl Word for OptionWord {
    ghost spelling = { option_word };

    fn named(text: &[u8]) -> Option<OptionWord> {
        match text {
            b"--until" => Some(OptionWord::Until),
            b"--budget" => Some(OptionWord::Budget),
            b"--clock" => Some(OptionWord::Clock),
            b"--summary" => Some(OptionWord::Summary),
            _ => None,
        }
    }
}
