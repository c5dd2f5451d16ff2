//! Heads of requests: where one ends, how it is read from a device, and what it says, or why the desk refuses it.
#![tactic(auto)]

mod field;
mod head;
mod head_end;
pub mod laws;
mod length;
mod reading;
mod refusal;

pub use head::{Head, judge_head};
pub use head_end::{HeadEnd, find_head_end};
pub use length::MAX_BODY;
pub use reading::{HeadBytes, HeadFault, read_head};
pub use refusal::HeadRefusal;
