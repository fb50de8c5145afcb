// The flattened network of a board.
ghost use Rattle.std.specs.Prelude.{IfOk, vec_len};
ghost use Rattle.coupling.specs.Networks.{wired};
ghost use Rattle.coupling.specs.Wiring.{Wiring};
ghost use Rattle.board.specs.Paths.{Flattened, Agrees, NeverItself};
ghost use Rattle.board.specs.Wires.{block_at};

use crate::flatten::sweep;
use crate::nested::Board;
use coupling::network::Network;
use coupling::wires::blank;
use std::alloc::{AllocError, Global};

impl<P> Board<P> {
    // The network in which a pin belongs to a row's set exactly when a path leads to it; it fails only for want of memory.
    pub fn flatten(&self, heap: Global) -> Result<Network, AllocError>
        ensures rows_are_the_paths { IfOk result (λ n. Flattened self.now.plan.wires.items (vec_len self.now.plan.components) (block_at self.now.plan.blocks.items 0).ins (wired n)) }
        ensures is_the_only_one { IfOk result (λ n. (v : Wiring) → Flattened self.now.plan.wires.items (vec_len self.now.plan.components) (block_at self.now.plan.blocks.items 0).ins v → Agrees (vec_len self.now.plan.components) (wired n) v) }
        ensures no_path_leads_back { NeverItself self.now.plan.wires.items }
    {
        let parts = self.plan.components.len();
        let blocks = self.plan.blocks.len();
        let mut rows = blank(heap, 8 * (parts + blocks + blocks) + 1)?;
        'turns: for turn in 0..blocks + blocks + 1 {
            sweep(&mut rows, &self.plan, turn);
        }
        rows.truncate(8 * (parts + 1));
        Ok(Network {
            parts,
            inputs: self.plan.blocks[0].ins,
            rows,
        })
    }
}
