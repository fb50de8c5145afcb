// What can go wrong, and what is said of it.
use session::answers::Refusal;
use std::alloc::AllocError;
use std::io;
use thiserror::Error;

#[derive(Debug, Drop, Error)]
pub enum Trouble {
    #[error("the command line is not understood. Run boardsim --help for the usage.")]
    Usage,
    #[error("--until takes a moment of the clock. Write TICK:MICRO, or TICK with --clock plain.")]
    Until,
    #[error("the reason is told already")]
    Told,
    #[error("the run is refused, number {number}. Give --until a moment within the clock's ceiling.", number = .0.number())]
    Refused(#[from] Refusal),
    // the reader of a file finds no memory
    #[error("there is no memory left. Free some memory, and run it again.")]
    Reader,
    #[error("there is no memory left. Free some memory, and run it again.")]
    Memory(#[from(alloc)] AllocError),
    #[error("the output could not be written. Write it to a place with room, and run it again.")]
    Output(#[from] io::Error),
}
