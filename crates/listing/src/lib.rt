// Listings: a deck and its stimulus are simulated, and the changes of the outputs are listed.
#![tactic(auto)]

pub mod lister;
pub mod rows;
pub mod sink;
