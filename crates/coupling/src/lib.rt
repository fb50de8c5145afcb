// Couplings: what an output reaches. And the flattened network, which looks it up in rows.
#![tactic(auto)]

pub mod coupling;
pub mod network;
pub mod rows;
pub mod wires;
