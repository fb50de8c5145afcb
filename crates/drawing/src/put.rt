// Adding to a plan what was asked about.
// kept: three functions, since a generic one needs a trait that says what each list asks of its item, and is longer
ghost use Rattle.std.specs.Prelude.{◌≡◌, ◌<◌, ◌≤◌, true, vec_len, MatchResult};
ghost use Rattle.board.specs.Wires.{sound_wire};
ghost use Rattle.drawing.specs.declared.fault.Fault.TheVariants.{Memory};
ghost use Rattle.drawing.specs.Children.{Stands};
ghost use Rattle.drawing.specs.Lists.{lists, with_block, with_component, with_wire};

use crate::fault::Fault;
use board::parts::{Block, Component};
use board::pins::Wire;
use board::plan::Plan;

pub(crate) fn put_block(plan: &mut Plan, block: Block) -> Result<(), Fault>
    requires room { vec_len plan.old.blocks < 32 }
    requires pins { (block.ins ≤ 8) × (block.outs ≤ 8) }
    requires parent_first { 0 < vec_len plan.old.blocks → block.parent < vec_len plan.old.blocks }
    ensures puts_it_or_refuses { MatchResult result (λ _. lists plan.new ≡ with_block (lists plan.old) block) (λ e. (e ≡ Memory) × (lists plan.new ≡ lists plan.old)) }
{
    Ok(plan.blocks.push(block)?)
}

pub(crate) fn put_component(plan: &mut Plan, component: Component) -> Result<(), Fault>
    requires room { vec_len plan.old.components < 64 }
    requires pins { (component.ins ≤ 8) × (component.outs ≤ 8) }
    requires in_a_block { component.block < vec_len plan.old.blocks }
    ensures puts_it_or_refuses { MatchResult result (λ _. lists plan.new ≡ with_component (lists plan.old) component) (λ e. (e ≡ Memory) × (lists plan.new ≡ lists plan.old)) }
{
    Ok(plan.components.push(component)?)
}

pub(crate) fn put_wire(plan: &mut Plan, wire: Wire) -> Result<(), Fault>
    requires room { vec_len plan.old.wires < 256 }
    requires sound { sound_wire plan.old.blocks.items plan.old.components.items wire ≡ true }
    requires once { Stands plan.old.wires.items wire → ⊥ }
    ensures puts_it_or_refuses { MatchResult result (λ _. lists plan.new ≡ with_wire (lists plan.old) wire) (λ e. (e ≡ Memory) × (lists plan.new ≡ lists plan.old)) }
{
    Ok(plan.wires.push(wire)?)
}
