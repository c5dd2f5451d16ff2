//! One request, from the bytes that a reader gives to the bytes that a writer takes: heard, served by the office, answered.
#![tactic(auto)]

pub mod laws;
mod serving;
mod telling;

pub use serving::{DeskFault, Response, Unanswered, respond, serve_one, serve_with_routes};
