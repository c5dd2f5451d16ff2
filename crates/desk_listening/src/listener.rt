//! What peers connect to, as the desk sees it.

ghost use Rattle.std.specs.Prelude.{Result};
ghost use Rattle.std.specs.declared.io.Error.{Error};

use std::io;

/// What peers connect to. Its ghost members say which calls were made, and what they gave.
pub trait Listener {
    /// A connection. It isn't dropped, but closed.
    type Stream;

    /// A state, what `accept` answered in it, and the state after that.
    ghost accepts: { Self → Result Self.Stream Error → Self → Type 0 };

    /// A state, the connection that was closed in it, and the state after that.
    ghost closes: { Self → Self.Stream → Self → Type 0 };

    /// Waits for a connection.
    fn accept(&mut self) -> io::Result<Self::Stream>
        ensures { accepts self.old result self.new };

    /// Closes a connection.
    fn close(&mut self, stream: Self::Stream)
        ensures { closes self.old stream self.new };
}
