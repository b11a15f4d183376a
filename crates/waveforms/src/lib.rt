// Waveforms: the changes of a session's lines, to be looked at. As a value change dump, which wave viewers open, and as
// rows of text.
#![tactic(auto)]

pub mod drawing;
pub mod dump;
mod history;
pub mod level;
pub mod name;
