// The simulator: sessions on closed netlists, in any value system.
#![tactic(auto)]

mod asking;
mod evaluation;
mod giving;
mod lines;
mod making;
mod readers;
mod records;
mod running;
pub mod session;
mod taking;
mod trimming;
