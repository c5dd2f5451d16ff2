//! Holds, and their release, over the tables.
#![tactic(auto)]

mod asking;
mod counting;
mod days;
mod placing;
mod releasing;

pub use placing::{hold_class, hold_collection, hold_deposit};
pub use releasing::release;
