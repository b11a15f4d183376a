// The rule of a line, logs and distance, and the laws of settled lines, proved for every value system.
//
// The definitions are in specs/. The functions of this crate do no work of their own: by its contract each bears a law, or
// shows by a worked log that there is something for the laws to speak of.
#![tactic(auto)]

pub mod laws;
pub mod netlists;
pub mod ties;
pub mod worked;
