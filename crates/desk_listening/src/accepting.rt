//! An `accept` that fails, and what it ends.

ghost use Rattle.std.specs.Prelude.{◌↔◌, IsTrue};
ghost use Rattle.desk_listening.specs.Accepting.{EndsAlone};

use std::io;
use std::io::ErrorKind;

/// What came of the connections.
#[derive(Clone, Copy, Debug, PartialEq, Eq)]
pub struct Served {
    /// Those whose whole answer was written.
    pub answered: u32,
    /// The others.
    pub failed: u32,
}

/// An `accept` failed, and not for its one connection alone.
#[derive(Clone, Copy, Debug)]
pub struct AcceptFailed {
    /// What came of the connections before it.
    pub served: Served,
    /// Why it failed.
    pub error: io::Error,
}

/// Whether an `accept` that failed so ends one connection alone: its peer went before it was accepted,
/// or a signal interrupted the call. Any other failure is the machine's, and would come again.
pub(crate) fn ends_one_connection(kind: ErrorKind) -> bool
    ensures { IsTrue result ↔ EndsAlone kind }
{
    matches!(kind, ErrorKind::ConnectionAborted | ErrorKind::Interrupted)
}
