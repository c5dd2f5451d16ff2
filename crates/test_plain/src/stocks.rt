//! How much an office keeps.

/// How much an office keeps.
#[derive(Clone, Copy, Debug, PartialEq, Eq)]
pub struct Stock {
    /// How many different contents the files of the kept bags have.
    pub contents: usize,
    /// How many bytes those contents have together, each counted once.
    pub bytes: usize,
}
