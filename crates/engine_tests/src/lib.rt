// Nothing but tests: of sessions.
#![tactic(auto)]

#[cfg(test)]
mod tests;
