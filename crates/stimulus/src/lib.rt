// Stimuli: what the inputs of a netlist are given, as columns of bytes that are read record by record.
#![tactic(auto)]

pub mod entry;
pub mod reader;
mod record;
