// A session: a board's parts in the caller's memory, and the calls that move them.
#![tactic(auto)]

pub mod answers;
mod decision;
mod delivery;
pub mod places;
pub mod run;
mod scan;
pub mod session;
mod show;
