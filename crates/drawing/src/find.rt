// Looking for children and wires.
ghost use Rattle.std.specs.Prelude.{◌≡◌, ℕ, Decides, MatchOption};
ghost use Rattle.board.specs.Wires.{no_block, no_component};
ghost use Rattle.drawing.specs.declared.ends.Found.{Found};
ghost use Rattle.drawing.specs.declared.ends.Wanted.{Wanted};
ghost use Rattle.drawing.specs.Children.{Fits, IsWanted, IsChild, Stands, wanted_block, wanted_part};

use crate::ends::{Found, Wanted};
use board::parts::{Block, Component};
use board::pins::{Pin, Wire};
use board::plan::Plan;
use names::name::Name;

// Whether a thing of this block, name and pins is the wanted one.
fn is_wanted(wanted: &Wanted, block: usize, name: &Name, ins: u8, outs: u8) -> bool
    ensures value { Decides result (Fits wanted.now block name.now ins outs) }
{
    wanted.block == block && wanted.ins <= ins && wanted.outs <= outs && name.spells(&wanted.name)
}

// A thing that may be a child of a block.
trait Child {
    // what asks for just this thing
    ghost asks: { Self → Wanted };

    // what stands for one that is absent
    ghost absent: { Self };

    fn fits(&self, wanted: &Wanted) -> bool
        ensures value { let its = asks self.now in Decides result (Fits wanted.now its.block its.name its.ins its.outs) };
}

impl Child for Block {
    ghost asks = { wanted_block };

    ghost absent = { no_block };

    fn fits(&self, wanted: &Wanted) -> bool {
        is_wanted(wanted, self.parent, &self.name, self.ins, self.outs)
    }
}

impl Child for Component {
    ghost asks = { wanted_part };

    ghost absent = { no_component };

    fn fits(&self, wanted: &Wanted) -> bool {
        is_wanted(wanted, self.block, &self.name, self.ins, self.outs)
    }
}

// The number of the wanted child, from the first number that may be a child's.
fn find<C: Child>(things: &[C], first: usize, wanted: &Wanted) -> Option<usize>
    ensures finds_it { MatchOption result ((i : ℕ) → IsWanted C.asks C.absent things.now first wanted.now i → ⊥) (λ i. IsWanted C.asks C.absent things.now first wanted.now i) }
{
    // kept: a test of the number, and no `skip`, which asks for it at each thing
    things
        .iter()
        .enumerate()
        .find(|(number, thing)| first <= *number && thing.fits(wanted))
        .map(|(number, _)| number)
}

// The wanted child, a part before a block. The board, block 0, is no child.
pub(crate) fn find_child(plan: &Plan, wanted: &Wanted) -> Option<Found>
    ensures finds_it { MatchOption result ((f : Found) → IsChild plan.now.blocks.items plan.now.components.items wanted.now f → ⊥) (λ f. IsChild plan.now.blocks.items plan.now.components.items wanted.now f) }
{
    find(&plan.components, 0, wanted)
        .map(Found::Part)
        .or_else(|| find(&plan.blocks, 1, wanted).map(Found::Block))
}

// kept: by hand, and no derived `==`, which takes half as long again in `has_wire`, over all wires for each new one
fn same_pin(a: Pin, b: Pin) -> bool
    ensures value { Decides result (a ≡ b) }
{
    match (a, b) {
        (Pin::PartIn { part: i, pin: k }, Pin::PartIn { part: j, pin: l }) => i == j && k == l,
        (Pin::PartOut { part: i, pin: k }, Pin::PartOut { part: j, pin: l }) => i == j && k == l,
        (Pin::BlockIn { block: i, pin: k }, Pin::BlockIn { block: j, pin: l }) => i == j && k == l,
        (Pin::BlockOut { block: i, pin: k }, Pin::BlockOut { block: j, pin: l }) => i == j
            && k == l,
        (_, _) => false,
    }
}

fn same_wire(a: Wire, b: Wire) -> bool
    ensures value { Decides result (a ≡ b) }
{
    same_pin(a.from, b.from) && same_pin(a.to, b.to)
}

// Whether the wire stands already.
pub(crate) fn has_wire(wires: &[Wire], wire: Wire) -> bool
    ensures value { Decides result (Stands wires.now wire) }
{
    // kept: `any`, and no `contains`, which compares through a call for each wire
    wires.iter().any(|other| same_wire(*other, wire))
}
