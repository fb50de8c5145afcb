// The fields of a call.
ghost use Rattle.std.specs.Prelude.{◌≡◌, ℕ, ◌<◌, [], ◌∷◌, length, MatchOption, ◌≢◌};
ghost use Rattle.grammar.specs.Pieces.{split};
ghost use Rattle.script.specs.Calls.{hex_digit, PinSet};

use grammar::cut::first_piece;

// The fields of a text that has three.
#[tactic(auto, using(grammar::proofs::Rejoining::split_some))]
pub(crate) fn three_fields(text: &[u8]) -> Option<(&[u8], &[u8], &[u8])>
    ensures parts_or_refuses { MatchOption result (length (split 32 text.now) ≢ 3) (λ t. split 32 text.now ≡ t.0.now ∷ t.1.now ∷ t.2.now ∷ []) }
{
    let first = first_piece(text, b' ');
    let second = first_piece(first.rest?, b' ');
    let third = first_piece(second.rest?, b' ');
    third
        .rest
        .is_none()
        .then_some((first.piece, second.piece, third.piece))
}

// The number that a lower-case hexadecimal digit writes.
fn hex_value(digit: u8) -> Option<u8>
    ensures reads_or_refuses { MatchOption result ((v : ℕ) → v < 16 → hex_digit v ≢ digit) (λ v. (v < 16) × (hex_digit v ≡ digit)) }
{
    match digit {
        b'0'..=b'9' => Some(digit - b'0'),
        b'a'..=b'f' => Some(digit - b'a' + 10),
        _ => None,
    }
}

// The pin set that two lower-case hexadecimal digits write.
pub fn pin_set(text: &[u8]) -> Option<u8>
    ensures reads_or_refuses { MatchOption result ((v : ℕ) → PinSet v text.now → ⊥) (λ v. PinSet v text.now) }
{
    let [high, low] = text else {
        return None;
    };
    Some(16 * hex_value(*high)? + hex_value(*low)?)
}
