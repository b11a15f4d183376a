// Value systems: what the simulator asks of the values on lines, three systems, and relations between systems.
#![tactic(auto)]

pub mod bit;
pub mod element;
pub mod lane;
pub mod lanes;
pub mod relation;
pub mod stands_for;
pub mod system;
pub mod ternary;
