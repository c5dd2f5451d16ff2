//! The tables of an older version, taken over into those of the newest.
#![tactic(auto)]

pub mod laws;
mod office;
mod upgrading;

pub use office::upgrade_office;
pub use upgrading::upgrade;
