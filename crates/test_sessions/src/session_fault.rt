//! Why a session stops.

use office_tables::TableFault;
use std::alloc::{AllocError, AllocFailed};

/// Why a session stops before its end.
#[derive(Clone, Copy, Debug, thiserror::Error)]
pub enum SessionFault {
    /// Memory ran out.
    #[error("memory")]
    Memory,
    /// A row's day is no day, or what it asks is no request.
    #[error("a row asks nothing")]
    AsksNothing,
    /// The policy is malformed.
    #[error("the policy is malformed")]
    NoPolicy,
    /// The policy was not installed.
    #[error("not installed: {0}")]
    NotInstalled(TableFault),
}

impl From<AllocError> for SessionFault {
    fn from(_: AllocError) -> SessionFault {
        SessionFault::Memory
    }
}

impl<T: Drop> From<AllocFailed<T>> for SessionFault {
    fn from(_: AllocFailed<T>) -> SessionFault {
        SessionFault::Memory
    }
}
