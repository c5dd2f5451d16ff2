//! Why a call on the tables fails.

ghost use Rattle.std.specs.Prelude.{◌≡◌};
ghost use Rattle.office_contents.specs.declared.fault.TableFault.TheVariants.{Memory};
ghost use Rattle.office_contents.specs.Faults.{IsToldAs};

use sqlite::{Error, ErrorCode};
use std::alloc::{AllocError, AllocFailed};

/// Why a call on the tables fails. Its text is its code.
#[derive(Clone, Copy, Debug, PartialEq, Eq, thiserror::Error)]
pub enum TableFault {
    /// Q1: the database has no table `office` with its columns, or no row 1 in it of whole numbers with limits in range.
    #[error("Q1")]
    NotAnOffice,
    /// Q2: the office has tables of another version.
    #[error("Q2")]
    OtherVersion,
    /// Q3: the store answers that memory ran out, or a growth was refused.
    #[error("Q3")]
    Memory,
    /// Q4: the store names another cause, or holds a value that no row of this crate can have.
    #[error("Q4")]
    Store,
}

/// What a call on the tables answers.
pub type Result<T> = std::result::Result<T, TableFault>;

impl From<Error> for TableFault {
    ghost from_gives = { IsToldAs };

    fn from(error: Error) -> TableFault {
        match error {
            Error::SqliteFailure(ErrorCode::OutOfMemory) => TableFault::Memory,
            _ => TableFault::Store,
        }
    }
}

impl From<AllocError> for TableFault {
    ghost from_gives = { λ _ fault. fault ≡ Memory };

    fn from(_: AllocError) -> TableFault {
        TableFault::Memory
    }
}

impl<T: Drop> From<AllocFailed<T>> for TableFault {
    ghost from_gives = { λ _ fault. fault ≡ Memory };

    fn from(_: AllocFailed<T>) -> TableFault {
        TableFault::Memory
    }
}
