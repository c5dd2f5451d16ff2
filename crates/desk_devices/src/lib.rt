//! Readers and writers of the desk: devices whose failures are counted, bytes that are read until there are enough,
//! and bytes that are written whole.
#![tactic(auto)]

mod counted;
mod fail_at;
mod filling;
mod whole;

pub use counted::Counted;
pub use fail_at::{FailAt, Portion};
pub use filling::{FillFault, fill};
pub use whole::{WriteFailed, write_whole};
