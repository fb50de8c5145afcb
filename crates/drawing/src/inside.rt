// Inside a block that is there.
ghost use Rattle.std.specs.Prelude.{◌<◌, vec_len};

use board::plan::Plan;

#[derive(Clone, Copy)]
pub(crate) struct Inside<'a> {
    pub plan: &'a Plan,
    pub block: usize,
    ghost is_there: { block < vec_len plan.now.blocks },
}
