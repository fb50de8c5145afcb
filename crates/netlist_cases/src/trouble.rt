// What can go wrong.
use std::alloc::AllocError;
use std::io;
use thiserror::Error;

#[derive(Debug, Drop, Error)]
pub enum Trouble {
    #[error("a line is not NAME, a space and the text of a case")]
    Case,
    #[error("the text of a case is not in the escaped form")]
    Escape,
    // the reader finds no memory
    #[error("there is no memory left")]
    Reader,
    #[error("there is no memory left")]
    Memory(#[from(alloc)] AllocError),
    #[error("the input could not be read, or the output not written")]
    Stream(#[from] io::Error),
}
