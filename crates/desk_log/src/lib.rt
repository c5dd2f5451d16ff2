//! What is printed to standard error as the desk serves: that requests failed because memory ran out or the store
//! failed, and that they succeed again.
#![tactic(auto)]

mod lines;
mod note;
mod telling;
mod watch;

pub use note::{OfficeFailure, OfficeNote, OfficeOutcome, RequestKind, note_of};
pub use telling::tell_end;
pub use watch::{Streak, Watch};
