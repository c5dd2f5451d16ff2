//! What the desk hears: a request read from the bytes of a reader, or why it is refused.
#![tactic(auto)]

mod fault;
mod heard;
mod judging;
pub mod laws;
mod owned_request;
mod question;
mod reading;

pub use fault::HeardFault;
pub use heard::Heard;
pub use reading::{hear_request, read_request};
