//! The bytes of the desk's answers: each answer of the office, and each refusal of the desk, as a
//! response of HTTP/1.1.
#![tactic(auto)]

mod answers;
mod bodies;
mod content;
mod head;
pub mod laws;
mod methods;
mod object;
mod refusals;
mod rows;
mod status;
mod told;

pub use answers::{answer_bytes, refusal_bytes};
