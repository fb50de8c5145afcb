// Drawing a nested board, block by block, part by part and wire by wire.
#![tactic(auto)]

pub mod draw;
pub mod drawing;
pub mod ends;
pub mod fault;
mod find;
mod inside;
mod put;
mod questions;
