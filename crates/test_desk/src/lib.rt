//! The public calls of the crates of the desk, on bytes whose answers were worked out by hand.
#![tactic(auto)]

#[cfg(test)]
mod tests;
