// What can go wrong, and what is said of it.
use drawing::fault::Fault;
use session::answers::Refusal;
use std::alloc::AllocError;
use std::io;
use thiserror::Error;

#[derive(Debug, Drop, Error)]
pub enum Trouble {
    #[error("a name is not well formed")]
    Name,
    #[error("a part's numbers are out of range")]
    Part,
    #[error("the drawing was refused")]
    Drawing(#[from] Fault),
    #[error("a block is still open")]
    Open,
    #[error("there is no memory left")]
    Memory(#[from] AllocError),
    #[error("a call was refused")]
    Call(#[from] Refusal),
    #[error("the output could not be written")]
    Print(#[from] io::Error),
}
