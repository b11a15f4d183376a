// Why a netlist or the program ends early.
use crate::answer::{Answer, Asked, Difference};
use std::alloc::AllocError;
use std::io;
use thiserror::Error;

#[derive(Debug, Drop, Error)]
pub enum Stop {
    #[error("{0}")]
    Differs(Difference),
    #[error("{0} is no number; compare_tickwise SEED NETLISTS")]
    Misuse(String),
    #[error("{0} is one argument too many; compare_tickwise SEED NETLISTS")]
    OneMore(String),
    #[error("{0}")]
    Io(#[from] io::Error),
    #[error("out of memory")]
    Memory(#[from(alloc)] AllocError),
}

// Both must answer the same.
pub fn compare(asked: Asked, engine: Answer, tickwise: Answer) -> Result<(), Stop> {
    if engine == tickwise {
        return Ok(());
    }
    Err(Stop::Differs(Difference {
        asked,
        engine,
        tickwise,
    }))
}
