// Nested boards: blocks in blocks, parts in blocks, and wires inside blocks; and their flattening.
#![tactic(auto)]

pub mod flat;
mod flatten;
mod layout;
pub mod lending;
pub mod nested;
pub mod parts;
pub mod pins;
pub mod plan;
