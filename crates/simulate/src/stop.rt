// Why the program ends early.
use crate::options::Misuse;
use deck::fault::Fault;
use netlist::refusal::Refusal;
use std::alloc::AllocError;
use std::io;
use thiserror::Error;

#[derive(Debug, Drop, Error)]
pub enum Stop {
    #[error("{0}")]
    Misuse(#[from] Misuse),
    #[error("{path}: cannot be {action}: {error}")]
    File {
        path: String,
        action: &'static str,
        error: io::Error,
    },
    #[error("standard input cannot be read: {0}")]
    Input(io::Error),
    #[error("{0}")]
    Fault(#[from] Fault),
    // The bytes read end too early, and more follow.
    #[error("{0}")]
    CutOff(Fault),
    #[error("record {record} feeds X, which only --system three has")]
    Unnamed {
        record: usize,
    },
    #[error("--store {records} is too small: {needed} records are needed, 2 for each line")]
    Store {
        records: usize,
        needed: usize,
    },
    #[error("refused: {}", crate::explanation::of(*.0))]
    Session(#[from] Refusal),
    #[error("the same job, cut otherwise, ended with another store, which must not be")]
    Differs,
    #[error("only {tied} of {compared} values are tied, and all must be")]
    Untied {
        compared: u64,
        tied: u64,
    },
    #[error("standard output cannot be written: {0}")]
    Output(#[from] io::Error),
    #[error("out of memory")]
    Memory(#[from(alloc)] AllocError),
}
