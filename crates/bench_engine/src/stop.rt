// Why the program ends early.
use deck::fault::Fault;
use netlist::refusal::Refusal;
use std::alloc::AllocError;
use std::io;
use thiserror::Error;

#[derive(Debug, Drop, Error)]
pub enum Stop {
    #[error("{0}")]
    Fault(#[from] Fault),
    #[error("refused: {0}")]
    Refusal(#[from] Refusal),
    #[error("{0} is no number of stretches")]
    Misuse(String),
    #[error("{0}")]
    Io(#[from] io::Error),
    #[error("out of memory")]
    Memory(#[from(alloc)] AllocError),
}
