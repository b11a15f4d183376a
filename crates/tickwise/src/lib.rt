// A simulator in the plainest form of the rules: it keeps the value of every line at every tick in a table, filled tick
// after tick. It shares no code with the engine, which is compared with it.
#![tactic(auto)]

pub mod circuit;
mod distance;
pub mod draft;
pub mod refusal;
pub mod session;
mod table;
#[cfg(test)]
mod tests;
pub mod three;
pub mod two;
pub mod value;
pub mod walks;
pub mod word;
