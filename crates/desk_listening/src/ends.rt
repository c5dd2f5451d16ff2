//! The ends of a connection: how they are opened, and how the peer is left.

ghost use Rattle.std.specs.Prelude.{◌≡◌, IfOk, OnErr, OnOk};
ghost use Rattle.desk_listening.specs.Peers.{Drops, Fails, Opens, Works, leaving};

use crate::draining::{Drained, drain};
use crate::patience::Patience;
use crate::peer::Peer;
use desk_devices::Counted;
use std::io;
use std::net::Shutdown;
use std::time::Duration;

/// What reads from a peer, and what writes to it.
#[derive(Debug, Drop)]
pub(crate) struct Ends<R, W> {
    pub(crate) reader: Counted<R>,
    pub(crate) writer: Counted<W>,
}

/// The ends of a connection, each call of which waits that long at most.
pub(crate) fn open<P: Peer>(peer: &mut P, wait: Duration) -> io::Result<Ends<P::Reader, P::Writer>>
    ensures { Opens P.Peer wait peer.old result peer.new }
{
    peer.set_read_wait(wait)?;
    peer.set_write_wait(wait)?;
    let (reader, writer) = peer.ends()?;
    Ok(Ends {
        reader: Counted::new(reader),
        writer: Counted::new(writer),
    })
}

/// Ends what is written to a peer, and drops what it still sends: a socket that is closed while it has
/// unread bytes may take back what was written.
pub(crate) fn hang_up<P: Peer>(
    peer: &mut P,
    reader: &mut Counted<P::Reader>,
    patience: &Patience,
) -> io::Result<Drained>
    ensures shut { OnOk result (Works P.Peer.does (leaving patience.now.rest) peer.old peer.new) }
    ensures dropped { IfOk result
        (Drops P.Reader.Read patience.now.rest_bytes reader.old reader.new) }
    ensures failed { OnErr result
        (Fails P.Peer.does (leaving patience.now.rest) peer.old peer.new) }
    ensures same { OnErr result (reader.new ≡ reader.old) }
{
    peer.shut(Shutdown::Write)?;
    peer.set_read_wait(patience.rest)?;
    Ok(drain(reader, patience.rest_bytes))
}
