// The flattened network as a value.
ghost use Rattle.std.specs.Prelude.{◌≡◌, ℕ, ◌+◌, ◌*◌, ◌<◌, ◌≤◌, vec_len};
ghost use Rattle.coupling.specs.Rows.{row_at, set_of};

use crate::rows::Row;

// A row for each board input, 0 to 7, and then for each output pin of each part in turn.
// kept: one list of rows, eight for each source, since its invariants are public
#[derive(Drop)]
pub struct Network {
    pub parts: usize,
    pub inputs: u8,
    pub rows: Vec<Row>,
    ghost few_parts: { parts ≤ 64 },
    ghost few_inputs: { inputs ≤ 8 },
    ghost a_row_for_each_pin: { vec_len rows ≡ 8 * (parts + 1) },
    // no wire leads from a part to itself
    ghost none_to_itself: { (i k : ℕ) → (i < parts) × (k < 8) → set_of (row_at rows.items (8 * (i + 1) + k)) i ≡ 0 },
    // no wire leads to a part that is absent
    ghost none_to_absent: { (r j : ℕ) → parts ≤ j → set_of (row_at rows.items r) j ≡ 0 },
}
