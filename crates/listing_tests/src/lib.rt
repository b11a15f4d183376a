// Nothing but tests: of stimuli and their faults, and of listings.
#![tactic(auto)]

#[cfg(test)]
mod tests;
