// What a board lends to programs: its start states, and the names and paths of its parts.
ghost use Rattle.std.specs.Prelude.{◌≡◌, ℕ, ◌<◌, ◌≤◌, List, ◌++◌, IfOk, vec_len, MatchOption, OnOk};
ghost use Rattle.names.specs.Names.{name_text};
ghost use Rattle.board.specs.Lending.{Into, PathOf};
ghost use Rattle.board.specs.Wires.{component_at};

use crate::nested::Board;
use crate::plan::Plan;
use names::name::Name;
use std::alloc::{AllocError, Global};

// Adds the way from the board down into a block.
fn push_blocks(out: &mut Vec<u8>, plan: &Plan, block: usize) -> Result<(), AllocError>
    requires is_there { block < vec_len plan.now.blocks }
    ensures adds_the_way { OnOk result ((text : List ℕ) × Into plan.now.blocks.items block text × (out.new.items ≡ out.old.items ++ text)) }
{
    if block == 0 {
        return Ok(());
    }
    let inner = plan.blocks[block];
    push_blocks(out, plan, inner.parent)?;
    push_name(out, &inner.name)?;
    out.push(b'/')?;
    Ok(())
}

fn push_name(out: &mut Vec<u8>, name: &Name) -> Result<(), AllocError>
    ensures adds_the_name { OnOk result (out.new.items ≡ out.old.items ++ name_text name.now) }
{
    out.extend_from_slice(name.text())
}

impl<P> Board<P> {
    // The start states, by part number.
    pub fn starts(&self) -> &[P]
        ensures are_the_starts { result.now ≡ self.now.starts.items }
    {
        self.starts.as_slice()
    }

    // The name of a part; none where there is no such part.
    pub fn name(&self, part: usize) -> Option<Name>
        ensures is_the_name { MatchOption result (vec_len self.now.plan.components ≤ part) (λ n. (part < vec_len self.now.plan.components) × (n ≡ (component_at self.now.plan.components.items part).name)) }
    {
        self.plan
            .components
            .get(part)
            .map(|component| component.name)
    }

    // The path of a part, as io/a; empty where there is no such part.
    pub fn path(&self, heap: Global, part: usize) -> Result<Vec<u8>, AllocError>
        ensures is_the_path { IfOk result (λ v. PathOf self.now.plan.blocks.items self.now.plan.components.items part v.items) }
    {
        let mut out = Vec::new(heap);
        let Some(component) = self.plan.components.get(part) else {
            return Ok(out);
        };
        push_blocks(&mut out, &self.plan, component.block)?;
        push_name(&mut out, &component.name)?;
        Ok(out)
    }
}
