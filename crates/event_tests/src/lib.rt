// Nothing but tests: of lists of events.
#![tactic(auto)]

#[cfg(test)]
mod tests;
