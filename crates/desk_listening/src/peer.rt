//! A connection with a peer, as the desk sees it.

ghost use Rattle.std.specs.Prelude.{Bool, Result, is_ok};
ghost use Rattle.std.specs.declared.io.Error.{Error};
ghost use Rattle.desk_listening.specs.declared.call.PeerCall.{PeerCall};

use std::io;
use std::io::{Read, Write};
use std::net::Shutdown;
use std::time::Duration;

/// A connection with a peer. What is read and written goes through its ends; all that is set, shut
/// and opened goes through the connection itself, whose ghost members say which calls were made.
pub trait Peer {
    /// What reads from the peer.
    type Reader: Read + Drop;

    /// What writes to the peer.
    type Writer: Write + Drop;

    /// A state, a call that is made in it, whether that worked, and the state after it.
    ghost does: { Self → PeerCall → Bool → Self → Type 0 };

    /// A state, what asking for the ends gave in it, and the state after that.
    ghost opens: { Self → Result (Self.Reader × Self.Writer) Error → Self → Type 0 };

    /// Has each read wait that long at most.
    fn set_read_wait(&mut self, wait: Duration) -> io::Result<()>
        ensures { does self.old (PeerCall.ReadWait wait) (is_ok result) self.new };

    /// Has each write wait that long at most.
    fn set_write_wait(&mut self, wait: Duration) -> io::Result<()>
        ensures { does self.old (PeerCall.WriteWait wait) (is_ok result) self.new };

    /// The two ends.
    fn ends(&mut self) -> io::Result<(Self::Reader, Self::Writer)>
        ensures { opens self.old result self.new };

    /// Shuts a side, or both.
    fn shut(&mut self, side: Shutdown) -> io::Result<()>
        ensures { does self.old (PeerCall.Shut side) (is_ok result) self.new };
}
