// Nothing but tests: of dumps, which a reader of their own reads, and of drawings.
#![tactic(auto)]

#[cfg(test)]
mod tests;
