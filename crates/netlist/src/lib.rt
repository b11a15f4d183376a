// Kinds of gates, refusals, gate rows; a draft of a netlist, and the closed netlist.
#![tactic(auto)]

pub mod closed;
pub mod draft;
pub mod kind;
pub mod progress;
pub mod refusal;
pub mod row;
pub mod size;
