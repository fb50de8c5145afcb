// Numbers as a netlist writes them.
ghost use Rattle.std.specs.Prelude.{◌≡◌, ℕ, ◌<◌, decimal, MatchOption, ◌≢◌};
ghost use Rattle.grammar.specs.Fields.{Numeral};

// The number that a text of at most ten digits writes, without a leading zero.
// kept: no `parse`, which also takes a plus sign and leading zeros
pub fn natural(text: &[u8]) -> Option<u64>
    ensures reads_or_refuses { MatchOption result ((v : ℕ) → v < 10000000000 → decimal v ≢ text.now) (λ v. (v < 10000000000) × (decimal v ≡ text.now)) }
{
    if text.is_empty() || text.len() > 10 {
        return None;
    }
    if let [b'0', _, ..] = text {
        return None;
    }
    let mut value = 0;
    'digits: for digit in text {
        if !digit.is_ascii_digit() {
            return None;
        }
        value = 10 * value + u64::from(*digit - b'0');
    }
    Some(value)
}

// The number between low and high that a text writes.
// kept: low and high apart, since this function is public
pub fn number(text: &[u8], low: u16, high: u16) -> Option<u16>
    ensures reads_or_refuses { MatchOption result ((v : ℕ) → Numeral low high v text.now → ⊥) (λ v. Numeral low high v text.now) }
{
    let value = u16::try_from(natural(text)?).ok()?;
    if value < low || value > high {
        return None;
    }
    Some(value)
}
