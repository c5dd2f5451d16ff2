//! What is found under a folder.

use fault_words::OddCause;

/// An entry of a folder: its path from the first folder on, and what it is.
#[derive(Debug, Drop)]
pub struct Entry {
    pub path: String,
    pub kind: Kind,
}

/// What an entry of a folder is.
#[derive(Clone, Copy, Debug, PartialEq, Eq)]
pub enum Kind {
    /// A file, and how many bytes it has.
    File(u64),
    Folder,
    /// It has no place in a form.
    Odd(OddCause),
}

/// An entry that has no place in a form: its path from the first folder on, and why.
#[derive(Debug, Drop)]
pub struct Odd {
    pub path: String,
    pub cause: OddCause,
}

/// A file that was found under a folder: its path from the folder on, and how many bytes it has.
#[derive(Debug, Drop)]
pub struct Listed {
    pub path: String,
    pub size: u64,
}

/// What was found under a folder.
#[derive(Debug, Drop)]
pub struct Found {
    /// The files, in no order.
    pub files: Vec<Listed>,
    /// The first entry that has no place in a form.
    pub odd: Option<Odd>,
}
