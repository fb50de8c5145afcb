// A bench: boards wired by hand, and on them the tests of clocks, parts, networks and sessions.
#![tactic(auto)]

pub mod boards;
#[cfg(test)]
mod clocks;
#[cfg(test)]
mod helpers;
pub mod moments;
#[cfg(test)]
mod networks;
#[cfg(test)]
mod parts;
#[cfg(test)]
mod refusals;
#[cfg(test)]
mod runs;
#[cfg(test)]
mod sessions;
#[cfg(test)]
mod shortages;
pub mod stock;
