//! Peers, what they do, and what they get.

use crate::desk::compare;
use std::io::{Read, Write};
use std::net::{Shutdown, SocketAddr, TcpStream};
use std::test::Fail;
use std::time::Duration;

/// What a peer does when it has sent its bytes.
#[derive(Clone, Copy)]
pub(crate) enum Then {
    /// It waits.
    Waits,
    /// It says that it sends no more, and waits.
    EndsItsInput,
    /// It goes.
    HangsUp,
}

/// A peer, and what it gets.
#[derive(Clone, Copy)]
pub(crate) struct Peer {
    pub(crate) sends: &'static str,
    /// How many letters it sends after that.
    pub(crate) letters: usize,
    pub(crate) then: Then,
    pub(crate) gets: &'static [u8],
}

impl Peer {
    /// Connects, sends, and does what comes then: the stream, unless it has gone.
    fn call(&self, rt: &HostRuntime, address: SocketAddr) -> Result<Option<TcpStream>, Fail> {
        let mut stream = TcpStream::connect(rt, address)?;
        stream.set_read_timeout(Some(Duration::from_secs(5)))?;
        stream.set_write_timeout(Some(Duration::from_secs(5)))?;
        stream.write_all(self.sends.as_bytes())?;
        stream.write_all(&vec![in rt.alloc(); b'x'; self.letters]?)?;
        match self.then {
            Then::Waits => Ok(Some(stream)),
            Then::EndsItsInput => {
                stream.shutdown(Shutdown::Write)?;
                Ok(Some(stream))
            }
            Then::HangsUp => Ok(None),
        }
    }
}

/// Has the peers connect one after the other: their streams.
pub(crate) fn call_all(
    rt: &HostRuntime,
    peers: &[Peer],
    address: SocketAddr,
) -> Result<Vec<Option<TcpStream>>, Fail> {
    let mut streams = Vec::new(rt.alloc());
    for peer in peers {
        streams.push(peer.call(rt, address)?)?;
    }
    Ok(streams)
}

/// Fails where a peer that is still there gets something else than was worked out.
pub(crate) fn hear_all(
    rt: &HostRuntime,
    peers: &[Peer],
    streams: Vec<Option<TcpStream>>,
) -> Result<(), Fail> {
    for (peer, stream) in peers.iter().zip(streams) {
        if let Some(mut stream) = stream {
            let mut bytes = Vec::new(rt.alloc());
            stream.read_to_end(&mut bytes)?;
            compare(rt.alloc(), &bytes, peer.gets)?;
        }
    }
    Ok(())
}
