// Nothing but tests: of the value systems, of the relations between them, and of gates.
#![tactic(auto)]

#[cfg(test)]
mod tests;
