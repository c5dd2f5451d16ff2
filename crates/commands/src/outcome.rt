//! The outcome of a run: what it prints to standard output and to standard error, and how the program ends.

use crate::ending::Ending;

/// What goes to standard output, a line with its end; why the answer is no, where standard error
/// says so to a person, in lines with their ends; and how the program ends.
#[derive(Drop)]
pub struct Outcome {
    pub text: String,
    pub reason: Option<String>,
    pub ending: Ending,
}
