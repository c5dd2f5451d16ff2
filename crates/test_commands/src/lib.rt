//! The public calls of the crates of bags, of folders, of the policy and of the commands, each on
//! texts whose answers were worked out by hand.
#![tactic(auto)]

#[cfg(test)]
mod tests;
