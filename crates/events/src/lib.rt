// Lists of events in lent records: a base, and the kept changes after it.
#![tactic(auto)]

pub mod events;
pub mod list;
pub mod record;
mod records;
