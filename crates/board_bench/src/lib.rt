// A bench for nested boards: on it the tests of drawing, flattening and lending.
#![tactic(auto)]

#[cfg(test)]
mod counts;
#[cfg(test)]
mod flattened;
#[cfg(test)]
mod helpers;
pub mod letters;
#[cfg(test)]
mod order;
#[cfg(test)]
mod questions;
