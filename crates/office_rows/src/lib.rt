//! The rows of the office's tables as plain records, for the definitions of the office and for the
//! calls on its tables, and their laws.
#![tactic(auto)]

pub mod laws;
mod limits;

pub use limits::{MAX_LIMIT, is_limit};
