// Flattening: the network in which a pin belongs to a row's set exactly when a path of wires leads to it.
ghost use Rattle.std.specs.Prelude.{◌≡◌, ℕ, ◌+◌, ◌*◌, ◌<◌, ◌≤◌, length, vec_len};
ghost use Rattle.board.specs.Ranks.{rank, place};
ghost use Rattle.board.specs.Sweep.{Small, Only, Extended, Swept};

use crate::layout::Layout;
use crate::pins::{Pin, Wire};
use crate::plan::Plan;
use coupling::rows::Row;

// kept: each function asks for a `Small` pin, since `Pin` is public and promises no range
impl Layout {
    pub(crate) fn of(plan: &Plan) -> Layout
        ensures counts_the_parts { result.parts ≡ vec_len plan.now.components }
        ensures counts_the_blocks { result.blocks ≡ vec_len plan.now.blocks }
    {
        Layout {
            parts: plan.components.len(),
            blocks: plan.blocks.len(),
        }
    }

    // How far along a path a pin comes.
    fn rank_of(self, pin: Pin) -> usize
        requires in_range { Small pin }
        ensures is_the_rank { result ≡ rank self.blocks pin }
    {
        match pin {
            Pin::PartOut { .. } => 0,
            Pin::BlockOut { block, .. } => self.blocks.saturating_sub(block),
            Pin::BlockIn { block, .. } => self.blocks + 1 + block,
            Pin::PartIn { .. } => self.blocks + self.blocks + 1,
        }
    }

    // Where the row of a pin stands.
    fn place_of(self, pin: Pin) -> usize
        requires in_range { Small pin }
        ensures is_the_place { result ≡ place self.parts self.blocks pin }
    {
        match pin {
            Pin::PartOut { part, pin } => 8 * (part + 1) + usize::from(pin),
            Pin::BlockIn { block: 0, pin } => usize::from(pin),
            Pin::BlockIn { block, pin } => 8 * (self.parts + block) + usize::from(pin),
            Pin::BlockOut { block, pin } => {
                8 * (self.parts + self.blocks + block) + usize::from(pin)
            }
            Pin::PartIn { .. } => 8 * (self.parts + self.blocks + self.blocks),
        }
    }
}

// The row that reaches this pin alone.
fn alone(to: Pin) -> Row
    requires in_range { Small to }
    ensures reaches_it_alone { Only to result }
{
    let mut row = Row::empty();
    match to {
        Pin::PartIn { part, pin } => row.sets[part] = 1 << pin,
        Pin::BlockOut { block, pin } => {
            if block == 0 {
                row.board = 1 << pin;
            }
        }
        // kept: two arms; with one for both the proof did not close
        Pin::PartOut { .. } => {}
        Pin::BlockIn { .. } => {}
    }
    row
}

// Adds to the row of a wire's source its target, and what the target reaches.
fn extend(rows: &mut [Row], wire: Wire, layout: Layout)
    requires in_range { (Small wire.from) × (Small wire.to) }
    requires have_rows { (place layout.parts layout.blocks wire.from < length rows.old) × (place layout.parts layout.blocks wire.to < length rows.old) }
    ensures extends { Extended rows.old (place layout.parts layout.blocks wire.from) (place layout.parts layout.blocks wire.to) wire.to rows.new }
{
    let from = layout.place_of(wire.from);
    let to = layout.place_of(wire.to);
    let onto = alone(wire.to).join(&rows[to]);
    let row = rows[from];
    rows[from] = row.join(&onto);
}

// Takes the wires whose source has the rank of this turn.
pub(crate) fn sweep(rows: &mut [Row], plan: &Plan, turn: usize)
    requires few_turns { turn ≤ 64 }
    requires before { Swept plan.now.wires.items (vec_len plan.now.components) (vec_len plan.now.blocks) turn 0 rows.old }
    ensures after { Swept plan.now.wires.items (vec_len plan.now.components) (vec_len plan.now.blocks) turn (length plan.now.wires.items) rows.new }
{
    let layout = Layout::of(plan);
    'wires: for wire in &plan.wires {
        if layout.rank_of(wire.from) + turn == layout.blocks + layout.blocks {
            extend(rows, *wire, layout);
        }
    }
}
