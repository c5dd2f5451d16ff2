//! How long the desk waits for a peer.

ghost use Rattle.std.specs.Prelude.{◌≡◌};
ghost use Rattle.std.specs.Duration.{as_nanos};

use std::time::Duration;

/// How long the desk waits for a peer, and how much it takes that it doesn't need.
///
/// A wait of no time is refused by the socket, and the connection ends there.
#[derive(Clone, Copy, Debug, PartialEq, Eq)]
pub struct Patience {
    /// The longest wait of one read or write, until the answer is written.
    pub talk: Duration,
    /// The longest wait of one read after that.
    pub rest: Duration,
    /// The most bytes that are read and dropped after that.
    pub rest_bytes: usize,
}

impl Default for Patience {
    ghost is_default = { λ p.
        (as_nanos p.talk ≡ 30_000_000_000) × (as_nanos p.rest ≡ 1_000_000_000)
        × (p.rest_bytes ≡ 16_777_216) };

    /// 30 seconds for a read or a write, 1 second for a read after the answer, and 16 MiB there.
    fn default() -> Patience {
        Patience {
            talk: Duration::from_secs(30),
            rest: Duration::from_secs(1),
            rest_bytes: 16_777_216,
        }
    }
}
