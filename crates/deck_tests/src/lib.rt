// Nothing but tests: of drafts and netlists, and of decks and their faults.
#![tactic(auto)]

#[cfg(test)]
mod tests;
