//! The office: what it answers over its whole history.
#![tactic(auto)]

pub mod judging;
pub mod laws;
