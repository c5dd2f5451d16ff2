//! By the rows that picture a history, an office answers what the history says.
#![tactic(auto)]

pub mod laws;
