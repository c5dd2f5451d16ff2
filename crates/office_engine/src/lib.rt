//! The office over its tables.
#![tactic(auto)]

mod installing;
pub mod laws;
mod listing;
mod office;
mod transacting;

pub use office::Office;
pub use office_queries::Stock;
