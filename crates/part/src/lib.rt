// Parts: what every kind of part does, and the kinds of the catalogue.
#![tactic(auto)]

pub mod catalogue;
pub mod generator;
pub mod line;
pub mod part;
pub mod uart;
