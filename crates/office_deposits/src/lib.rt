//! Deposits of bags, and their disposal, over the tables.
#![tactic(auto)]

mod depositing;
mod details;
mod disposing;
mod storing;

pub use depositing::deposit;
pub use details::DepositDetails;
pub use disposing::dispose;
