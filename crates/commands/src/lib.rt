//! What is said of the bytes of a transfer form and of a policy, and how a run of the program ends.
#![tactic(auto)]

mod asked;
mod check;
mod ending;
mod explain;
mod failure;
mod outcome;
mod policy_file;
mod trouble;

pub use asked::Asked;
pub use check::{check_outcome, judge};
pub use ending::Ending;
pub use explain::{explain_outcome, explain_policy};
pub use failure::Failure;
pub use outcome::Outcome;
pub use policy_file::{RefusedPolicy, read_policy_from};
pub use trouble::Trouble;
