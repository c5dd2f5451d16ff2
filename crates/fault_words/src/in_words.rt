//! A fault that is said in words.

/// A fault, to be printed as a sentence: what was found and what was expected, with the names and
/// the numbers of the fault, and its code at the end.
#[derive(Drop)]
pub struct InWords<'a, F>(pub &'a F);
