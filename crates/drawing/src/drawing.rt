// A board that is being drawn.
ghost use Rattle.std.specs.Prelude.{◌≡◌, ℕ, ◌<◌, Some, vec_len};

use board::plan::Plan;

#[derive(Drop)]
pub struct Drawing<P> {
    pub plan: Plan,
    // by part number
    // kept: beside the components, as the board lends them
    pub starts: Vec<P>,
    // the open block; none before the board is opened and after it is closed
    pub current: Option<usize>,
    ghost a_start_for_each: { vec_len starts ≡ vec_len plan.components },
    ghost open_is_there: { (b : ℕ) → current ≡ Some b → b < vec_len plan.blocks },
}
