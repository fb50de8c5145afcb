// The words of calls.
ghost use Rattle.std.specs.Prelude.{◌≡◌, MatchOption, ◌≢◌};
ghost use Rattle.script.specs.Words.{call_word};

use grammar::word::Word;

// The word that a call begins with.
#[derive(Clone, Copy, PartialEq, Eq, Debug)]
pub enum CallWord {
    Put,
    Step,
    Next,
    Run,
    Lend,
}

impl CallWord {
    // The call that a word names; it is called without the trait too.
    pub fn named(word: &[u8]) -> Option<CallWord>
        ensures names_it_or_refuses { MatchOption result ((k : CallWord) → call_word k ≢ word.now) (λ k. call_word k ≡ word.now) }
    {
        <CallWord as Word>::named(word)
    }
}

impl Word for CallWord {
    ghost spelling = { call_word };

    fn named(text: &[u8]) -> Option<CallWord> {
        match text {
            b"put" => Some(CallWord::Put),
            b"step" => Some(CallWord::Step),
            b"next" => Some(CallWord::Next),
            b"run" => Some(CallWord::Run),
            b"lend" => Some(CallWord::Lend),
            _ => None,
        }
    }
}
