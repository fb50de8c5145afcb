// Kinds that are written as words.
ghost use Rattle.std.specs.Prelude.{◌≡◌, ℕ, List, MatchOption, ◌≢◌};

// A kind that is written as a word.
pub trait Word: Copy {
    // how each case is spelled
    ghost spelling: { Self → List ℕ };

    // The case that a text spells.
    fn named(text: &[u8]) -> Option<Self>
        ensures names_it_or_refuses { MatchOption result ((k : Self) → spelling k ≢ text.now) (λ k. spelling k ≡ text.now) };
}
