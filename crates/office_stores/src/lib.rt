//! The offices that the program works with, in memory or in a file that is found by its name, and how a command on one ends.
#![tactic(auto)]

mod done;
mod fault;
mod stores;

pub use done::Done;
pub use fault::{Cause, CommandFault, StoreFault, failed_by};
pub use stores::{close_office, office_in_memory, open_office, table_fault};
