//! Worked sessions with an office, which is any of two: who asks what on which day, and what is
//! answered.
#![tactic(auto)]

mod asking;
mod derived;
mod files;
mod offices;
mod session_fault;
mod sessions;
mod showing;
mod wording;

pub use asking::{TestRequest, number, word};
pub use derived::{derived_otherwise, look};
pub use files::{Disks, MANY, SMALL_CACHES, copy_files, empty, has_stopped, lose};
pub use offices::AnyOffice;
pub use session_fault::SessionFault;
pub use sessions::{
    OPENING, POLICY, POLICY_WITH_DAYS, Row, answer_in_words, differs, differs_in_run, install, open,
};
pub use showing::{held_rows, shown_rows};
pub use wording::words;
