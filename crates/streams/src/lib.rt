//! Streams of bytes: reading to the end, and writing whole.
#![tactic(auto)]

mod reading;
mod writing;

pub use reading::{read_at_most, read_whole};
pub use writing::{write_bytes, write_text};
