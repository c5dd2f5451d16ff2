//! A plain office in memory: the list of its accepted changes, and every question answered by going over that
//! list. It is slow and obvious: what any other office is compared with.
#![tactic(auto)]

mod answering;
mod change;
mod contents;
mod history;
mod judging;
mod reading;
mod refusals;
mod refusing;
mod running;
mod stepping;
mod stocks;
mod stored;

pub use history::Office;
pub use stocks::Stock;
