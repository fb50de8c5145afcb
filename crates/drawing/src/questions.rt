// The questions of each call, in their order.
ghost use Rattle.std.specs.Prelude.{◌≡◌, ℕ, ◌<◌, Ok, Decides, MatchOption};
ghost use Rattle.board.specs.declared.pins.Pin.{Pin};
ghost use Rattle.board.specs.Wires.{apart};
ghost use Rattle.drawing.specs.Children.{Taken, Finds, end_pin};
ghost use Rattle.drawing.specs.Lists.{lists};
ghost use Rattle.drawing.specs.Questions.{BlockAsked, PartAsked, ChildAsked, JoinAsked, WireAsked};

use crate::ends::{Heading, Side, Site, Wanted, WireEnd};
use crate::fault::Fault;
use crate::find::{find_child, has_wire};
use crate::inside::Inside;
use board::parts::{Block, Component};
use board::pins::{Pin, Wire};
use board::plan::Plan;
use names::name::Name;

// Whether a child of the block has this name.
fn taken(plan: &Plan, block: usize, name: Name) -> bool
    ensures value { Decides result (Taken plan.now.blocks.items plan.now.components.items block name) }
{
    find_child(plan, &Wanted::called(block, name)).is_some()
}

// The questions of any new child of the block.
fn ask_of_child(plan: &Plan, block: usize, child: Heading) -> Result<(), Fault>
    ensures asks_in_order { ChildAsked (lists plan.now) block child.name child.ins child.outs result (result ≡ Ok tt) }
{
    if child.ins > 8 || child.outs > 8 {
        return Err(Fault::BadPins);
    }
    if taken(plan, block, child.name) {
        return Err(Fault::NameTaken);
    }
    Ok(())
}

pub(crate) fn block_at(plan: &Plan, site: Site, child: Heading) -> Result<Block, Fault>
    ensures asks_in_order { BlockAsked (lists plan.now) site child.name child.ins child.outs result }
{
    ask_of_child(plan, site.parent, child)?;
    if plan.blocks.len() >= 32 {
        return Err(Fault::TooManyBlocks);
    }
    if site.depth >= 8 {
        return Err(Fault::TooDeep);
    }
    Ok(Block {
        name: child.name,
        parent: site.parent,
        depth: site.depth + 1,
        ins: child.ins,
        outs: child.outs,
    })
}

// Whether a wire joins two things.
fn are_apart(from: Pin, to: Pin) -> bool
    ensures value { result ≡ apart from to }
{
    match (from, to) {
        (Pin::PartOut { part: from, .. }, Pin::PartIn { part: to, .. }) => from != to,
        (Pin::BlockOut { block: from, .. }, Pin::BlockIn { block: to, .. }) => from != to,
        (Pin::PartIn { .. }, _)
        | (_, Pin::PartOut { .. })
        | (Pin::BlockIn { .. }, Pin::BlockOut { .. }) => false,
        (_, _) => true,
    }
}

// Whether a wire between two pins may be added.
fn joined(wires: &[Wire], wire: Wire) -> Result<Wire, Fault>
    ensures asks_in_order { JoinAsked wires.now wire result }
{
    if !are_apart(wire.from, wire.to) {
        return Err(Fault::Loop);
    }
    if has_wire(wires, wire) {
        return Err(Fault::Twice);
    }
    Ok(wire)
}

impl Inside<'_> {
    pub(crate) fn component(self, child: Heading) -> Result<Component, Fault>
        ensures asks_in_order { PartAsked (lists self.entry.plan.now) self.entry.block child.name child.ins child.outs result }
    {
        ask_of_child(self.plan, self.block, child)?;
        if self.plan.components.len() >= 64 {
            return Err(Fault::TooManyParts);
        }
        Ok(Component {
            name: child.name,
            block: self.block,
            ins: child.ins,
            outs: child.outs,
        })
    }

    // The pin at which a wire in the block begins, or ends.
    fn pin_at(self, side: Side, end: WireEnd) -> Option<Pin>
        requires in_range { end_pin end < 8 }
        ensures finds_it { let found = Finds side self.entry.plan.now.blocks.items self.entry.plan.now.components.items self.entry.block end in MatchOption result ((p : Pin) → found p → ⊥) found }
    {
        let block = self.block;
        let own = self.plan.blocks[block];
        match (end, side) {
            (WireEnd::Own { pin }, Side::From) => (pin < own.ins).then_some(Pin::BlockIn {
                block,
                pin,
            }),
            (WireEnd::Own { pin }, Side::To) => (pin < own.outs).then_some(Pin::BlockOut {
                block,
                pin,
            }),
            (WireEnd::Child { name, pin }, _) => {
                let called = Wanted::called(block, name);
                let wanted = match side {
                    Side::From => Wanted {
                        outs: pin + 1,
                        ..called
                    },
                    Side::To => Wanted {
                        ins: pin + 1,
                        ..called
                    },
                };
                Some(find_child(self.plan, &wanted)?.pin(side, pin))
            }
        }
    }

    pub(crate) fn wire(self, from: WireEnd, to: WireEnd) -> Result<Wire, Fault>
        ensures asks_in_order { WireAsked (lists self.entry.plan.now) self.entry.block from to result }
    {
        if from.pin() >= 8 || to.pin() >= 8 {
            return Err(Fault::BadPins);
        }
        if self.plan.wires.len() >= 256 {
            return Err(Fault::TooManyWires);
        }
        let from = self.pin_at(Side::From, from).ok_or(Fault::NoFrom)?;
        let to = self.pin_at(Side::To, to).ok_or(Fault::NoTo)?;
        joined(&self.plan.wires, Wire { from, to })
    }
}
