//! What is set and shut of a connection.

use std::net::Shutdown;
use std::time::Duration;

/// A call that sets or shuts something of a connection.
#[derive(Clone, Copy, Debug, PartialEq, Eq)]
pub enum PeerCall {
    /// Each read is to wait that long at most.
    ReadWait(Duration),
    /// Each write is to wait that long at most.
    WriteWait(Duration),
    /// A side is to be shut, or both.
    Shut(Shutdown),
}
