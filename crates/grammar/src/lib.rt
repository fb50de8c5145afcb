// The lines of a netlist file: their text, and what each says.
#![tactic(auto)]

pub mod cut;
mod ends;
pub mod fault;
mod field;
mod kinds;
pub mod numbers;
pub mod rules;
mod show;
pub mod statement;
mod text;
pub mod word;
mod words;
