// The names of blocks and parts.
#![tactic(auto)]

pub mod name;
pub mod naming;
