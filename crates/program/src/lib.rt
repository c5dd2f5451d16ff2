//! The program's whole work, over the runtime, words and the three standard streams.
#![tactic(auto)]

mod answering;
mod detail;
mod folders;
mod performing;
mod reporting;
mod running;
mod standard;
mod stopped;
mod telling;
mod tried;

pub use running::run;
pub use standard::Streams;
pub use telling::refuse_words;
