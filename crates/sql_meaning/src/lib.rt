//! Lemmas on what SQL statements mean, for any schema. This crate has no code.
#![tactic(auto)]
