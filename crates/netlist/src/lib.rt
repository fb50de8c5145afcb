// Netlist files: the reader, which builds the board that a file writes.
#![tactic(auto)]

mod blocks;
pub mod fault;
mod lines;
pub mod reader;
mod text;
