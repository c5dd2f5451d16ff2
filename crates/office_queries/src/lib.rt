//! The requests that read over the tables of an office, and change nothing.
#![tactic(auto)]

mod allowances;
mod audits;
mod bags;
mod counts;
mod due_lists;
mod files;
mod hold_lists;
mod kinds;
pub mod laws;
mod lists;
mod records;
mod stocks;

pub use audits::audit;
pub use bags::download_bag;
pub use due_lists::{due_list, due_numbers};
pub use files::download_file;
pub use hold_lists::holds;
pub use lists::list;
pub use records::record;
pub use stocks::{Stock, stock_of};
