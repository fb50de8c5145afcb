// A bench for netlist files: on it the tests of the boards that are read and of the faults that are found.
#![tactic(auto)]

#[cfg(test)]
mod example;
#[cfg(test)]
mod faults;
#[cfg(test)]
mod helpers;
#[cfg(test)]
mod kinds;
#[cfg(test)]
mod twice;
