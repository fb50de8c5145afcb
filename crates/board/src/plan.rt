// The plan of a nested board: what is drawn, whatever the kind of its parts.
ghost use Rattle.std.specs.Prelude.{◌≡◌, ℕ, ◌<◌, ◌≤◌, true, vec_len, ◌≢◌};
ghost use Rattle.board.specs.Wires.{block_at, component_at, wire_at, sound_wire};

use crate::parts::{Block, Component};
use crate::pins::Wire;

#[derive(Drop)]
pub struct Plan {
    // in the order in which they are opened
    // kept: a list and no tree, since the rules number the blocks in this order, and pins and parents name them by number
    pub blocks: Vec<Block>,
    // in the order in which they are written, across blocks
    pub components: Vec<Component>,
    pub wires: Vec<Wire>,
    ghost few_blocks: { vec_len blocks ≤ 32 },
    ghost few_components: { vec_len components ≤ 64 },
    ghost few_wires: { vec_len wires ≤ 256 },
    // at most 8 pins on each side
    ghost block_pins: { (b : ℕ) → ((block_at blocks.items b).ins ≤ 8) × ((block_at blocks.items b).outs ≤ 8) },
    ghost component_pins: { (i : ℕ) → ((component_at components.items i).ins ≤ 8) × ((component_at components.items i).outs ≤ 8) },
    // a block comes after the block that holds it
    ghost parents_first: { (b : ℕ) → (0 < b) × (b < vec_len blocks) → (block_at blocks.items b).parent < b },
    ghost in_blocks: { (i : ℕ) → i < vec_len components → (component_at components.items i).block < vec_len blocks },
    // each wire joins pins that are there, on the right sides, of two things in one block
    ghost sound_wires: { (n : ℕ) → n < vec_len wires → sound_wire blocks.items components.items (wire_at wires.items n) ≡ true },
    // no wire stands twice
    ghost wires_once: { (n k : ℕ) → (n < k) × (k < vec_len wires) → wire_at wires.items n ≢ wire_at wires.items k },
}
