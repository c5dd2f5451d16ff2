//! What a request asks of the tables before it is answered: who asks, which rule decides, which
//! deposit is meant, and which refusal comes first.
#![tactic(auto)]

mod asker;
mod deposits;
mod due;
mod holds;
mod limits;
mod rows;

pub use asker::{Asker, denial};
pub use deposits::{DepositDays, days_in, kept_deposit};
pub use due::{disposal_facts, least_hold, stored_due_row};
pub use holds::{hold_in, holds_over, live_count, named_in, told_hold};
pub use limits::number_after;
pub use rows::{
    check_between, check_there, day_numbered, due_numbered, optional_day_numbered, text_of_kind,
    text_read, there, years_numbered,
};
