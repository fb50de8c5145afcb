// Tests of what the command line and the files of the program say.
#![tactic(auto)]

#[cfg(test)]
mod files;
#[cfg(test)]
mod lines;
#[cfg(test)]
mod moments;
#[cfg(test)]
mod words;
