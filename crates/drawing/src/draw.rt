// Drawing a board.
ghost use Rattle.std.specs.Prelude.{◌≡◌, MatchResult};
ghost use Rattle.drawing.specs.Calls.{sheet, blank, next_site, outer, OpensBlock, AddsPart, AddsWire, ClosesBlock, Kept, Finished, Unfinished};
ghost use Rattle.drawing.specs.Lists.{lists, nothing};
ghost use Rattle.drawing.specs.Unique.{Unique, OnlyOutcome};

use crate::drawing::Drawing;
use crate::ends::{Heading, Site, WireEnd};
use crate::fault::Fault;
use crate::inside::Inside;
use crate::put::{put_block, put_component, put_wire};
use crate::questions::block_at;
use board::nested::Board;
use board::plan::Plan;
use names::name::Name;
use std::alloc::Global;

// A plan with nothing in it.
fn bare(heap: Global) -> Plan
    ensures is_bare { lists result ≡ nothing }
{
    Plan {
        blocks: Vec::new(heap),
        components: Vec::new(heap),
        wires: Vec::new(heap),
    }
}

impl<P: Drop> Drawing<P> {
    pub fn new(heap: Global) -> Drawing<P>
        ensures is_blank { sheet result ≡ blank }
    {
        Drawing {
            plan: bare(heap),
            starts: Vec::new(heap),
            current: None,
        }
    }

    fn next_site(&self) -> Option<Site>
        ensures value { result ≡ next_site self.now.plan.blocks.items self.now.current }
    {
        if self.plan.blocks.is_empty() {
            return Some(Site {
                parent: 0,
                depth: 0,
            });
        }
        let parent = self.current?;
        Some(Site {
            parent,
            depth: self.plan.blocks[parent].depth,
        })
    }

    // Opens a block in the open block; the first block is the board.
    pub fn open_block(&mut self, name: Name, ins: u8, outs: u8) -> Result<(), Fault>
        ensures adds_the_block_or_refuses { OpensBlock name ins outs (sheet self.old) (sheet self.new) result }
        ensures refusal_changes_nothing { Kept (sheet self.old) (sheet self.new) result }
        ensures has_one_outcome { OnlyOutcome (OpensBlock name ins outs (sheet self.old)) (sheet self.new) result }
    {
        let site = self.next_site().ok_or(Fault::Misplaced)?;
        let block = block_at(&self.plan, site, Heading { name, ins, outs })?;
        let number = self.plan.blocks.len();
        put_block(&mut self.plan, block)?;
        self.current = Some(number);
        Ok(())
    }

    // Closes the open block; the block that holds it is open then.
    pub fn close_block(&mut self) -> Result<(), Fault>
        ensures closes_it_or_refuses { ClosesBlock (sheet self.old) (sheet self.new) result }
        ensures refusal_changes_nothing { Kept (sheet self.old) (sheet self.new) result }
        ensures has_one_outcome { OnlyOutcome (ClosesBlock (sheet self.old)) (sheet self.new) result }
    {
        let block = self.current.ok_or(Fault::Misplaced)?;
        self.current = (block != 0).then_some(self.plan.blocks[block].parent);
        Ok(())
    }

    // Adds a part to the open block, with its start state.
    pub fn add_part(&mut self, name: Name, ins: u8, outs: u8, start: P) -> Result<(), Fault>
        ensures adds_the_part_or_refuses { AddsPart name ins outs start (sheet self.old) (sheet self.new) result }
        ensures refusal_changes_nothing { Kept (sheet self.old) (sheet self.new) result }
        ensures has_one_outcome { OnlyOutcome (AddsPart name ins outs start (sheet self.old)) (sheet self.new) result }
    {
        let block = self.current.ok_or(Fault::Misplaced)?;
        let inside = Inside {
            plan: &self.plan,
            block,
        };
        let component = inside.component(Heading { name, ins, outs })?;
        self.starts.reserve(1)?;
        put_component(&mut self.plan, component)?;
        self.starts.push_reserved(start);
        Ok(())
    }

    // Adds a wire inside the open block.
    pub fn add_wire(&mut self, from: WireEnd, to: WireEnd) -> Result<(), Fault>
        ensures adds_the_wire_or_refuses { AddsWire from to (sheet self.old) (sheet self.new) result }
        ensures refusal_changes_nothing { Kept (sheet self.old) (sheet self.new) result }
        ensures has_one_outcome { Unique (sheet self.old).plan → OnlyOutcome (AddsWire from to (sheet self.old)) (sheet self.new) result }
    {
        let block = self.current.ok_or(Fault::Misplaced)?;
        let inside = Inside {
            plan: &self.plan,
            block,
        };
        let wire = inside.wire(from, to)?;
        put_wire(&mut self.plan, wire)
    }

    // The board, once it is drawn and closed; else the drawing is given back.
    pub fn finish(self) -> Result<Board<P>, Drawing<P>>
        ensures gives_the_board_or_the_drawing_back { MatchResult result (λ b. Finished self b) (λ d. (d ≡ self) × Unfinished self) }
    {
        if self.current.is_some() || self.plan.blocks.is_empty() {
            return Err(self);
        }
        let Drawing { plan, starts, .. } = self;
        Ok(Board { plan, starts })
    }
}
