// Clocks: moments counted from opening, and spans between them.
#![tactic(auto)]

pub mod clock;
pub mod dense;
pub mod plain;
pub mod show;
pub mod superdense;
pub mod ticks;
