// Decks: a netlist as columns of bytes, read record by record into a draft.
#![tactic(auto)]

pub mod closing;
pub mod entry;
pub mod fault;
pub mod phase;
pub mod reader;
pub mod record;
