// What the command line and the files of the program say: moments, calls, and the words of commands.
#![tactic(auto)]

pub mod call;
pub mod call_word;
pub mod calls;
pub mod clock_word;
pub mod command;
pub mod fields;
pub mod line;
pub mod moment;
pub mod option_word;
pub mod options;
pub mod spot;
