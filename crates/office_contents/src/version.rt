//! The versions of the tables.

/// A version of the tables of an office that is known here.
#[derive(Clone, Copy, Debug, PartialEq, Eq)]
pub enum TableVersion {
    /// Holds name a deposit or a collection, and rules have no days. Contents are stored once, and each deposit has its
    /// due day and its count of holds.
    Third,
    /// Holds may name a class.
    Fourth,
    /// Rules have days.
    Fifth,
}

/// The number of the newest of them, which each office has once it was opened.
pub const NEWEST_VERSION: i64 = 5;
