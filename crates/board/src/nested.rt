// A nested board: a plan, and a start state for each part.
ghost use Rattle.std.specs.Prelude.{◌≡◌, ◌<◌, vec_len};

use crate::plan::Plan;

#[derive(Drop)]
pub struct Board<P> {
    pub plan: Plan,
    // by part number
    // kept: beside the components and not in them, since `starts` lends them as one slice without taking memory
    pub starts: Vec<P>,
    ghost has_the_board: { 0 < vec_len plan.blocks },
    ghost a_start_for_each: { vec_len starts ≡ vec_len plan.components },
}
