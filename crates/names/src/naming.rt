// Making and comparing names.
ghost use Rattle.std.specs.Prelude.{◌≡◌, true, false, length, Decides, IfSome, MatchOption};
ghost use Rattle.names.specs.Names.{all_letters_or_digits, name_text, well_named, Spelled};

use crate::name::Name;

fn is_letter(b: u8) -> bool
    ensures value { result ≡ Rattle.names.specs.Names.letter b }
{
    b.is_ascii_lowercase()
}

fn is_letter_or_digit(b: u8) -> bool
    ensures value { result ≡ Rattle.names.specs.Names.letter_or_digit b }
{
    is_letter(b) || b.is_ascii_digit()
}

fn are_letters_or_digits(text: &[u8]) -> bool
    ensures value { result ≡ all_letters_or_digits text.now }
{
    text.iter().all(|b| is_letter_or_digit(*b))
}

fn is_well_named(text: &[u8]) -> bool
    ensures value { result ≡ well_named text.now }
{
    !text.is_empty() && text.len() <= 8 && is_letter(text[0]) && are_letters_or_digits(text)
}

impl Name {
    // The name that a text spells, or nothing where it is no name.
    #[tactic(auto, using(crate::proofs::Spelling::spelled, crate::proofs::Spelling::zeros_after, crate::proofs::Spelling::eight))]
    pub fn new(text: &[u8]) -> Option<Name>
        ensures spells_it_or_refuses { MatchOption result (well_named text.now ≡ false) (λ n. (well_named text.now ≡ true) × (name_text n ≡ text.now)) }
        ensures holds_the_text_alone { IfSome result Spelled }
    {
        if !is_well_named(text) {
            return None;
        }
        let mut letters = [0; 8];
        letters[..text.len()].copy_from_slice(text);
        Some(Name {
            letters,
            len: text.len(),
        })
    }

    // The bytes of the name.
    pub fn text(&self) -> &[u8]
        ensures is_the_text { result.now ≡ name_text self.now }
    {
        &self.letters[..self.len]
    }

    // Whether two names are spelled alike.
    // kept: the derived `==` also compares the bytes after the name, and this promises that they do not count
    pub fn spells(&self, other: &Name) -> bool
        ensures is_spelled_alike { Decides result (name_text self.now ≡ name_text other.now) }
    {
        self.text() == other.text()
    }
}
