//! The sockets of the system, as listeners and peers of the desk.

ghost use Rattle.std.specs.Prelude.{◌≡◌, ⊤};
ghost use Rattle.desk_listening.specs.Sockets.{socket_of};

use crate::listener::Listener;
use crate::peer::Peer;
use std::alloc::Global;
use std::io;
use std::io::{Read, Write};
use std::net::{Shutdown, TcpListener, TcpStream};
use std::rc::Rc;
use std::time::Duration;

/// A listening socket.
#[derive(Debug, Drop)]
pub struct Sockets<'a> {
    alloc: Global,
    listener: &'a TcpListener,
}

impl<'a> Sockets<'a> {
    /// The connections that come to the socket.
    pub fn new(alloc: Global, listener: &'a TcpListener) -> Sockets<'a>
        ensures { socket_of result ≡ listener.now }
    {
        Sockets { alloc, listener }
    }
}

impl Listener for Sockets<'_> {
    type Stream = Socket;

    // Of a socket of the system nothing is known.
    ghost accepts = { λ _ _ _. ⊤ };

    ghost closes = { λ _ _ _. ⊤ };

    fn accept(&mut self) -> io::Result<Socket> {
        let (stream, _) = self.listener.accept()?;
        Ok(Socket(Rc::new(self.alloc, stream)?))
    }

    fn close(&mut self, _stream: Socket) {}
}

/// A connected socket, or an end of it. They share one descriptor, so a lack of descriptors shows when
/// a connection is accepted, and not after that.
#[derive(Debug, Drop)]
pub struct Socket(Rc<TcpStream>);

impl Socket {
    fn share(&self) -> io::Result<Socket> {
        Ok(Socket(self.0.clone()?))
    }
}

impl Peer for Socket {
    type Reader = Socket;

    type Writer = Socket;

    ghost does = { λ _ _ _ _. ⊤ };

    ghost opens = { λ _ _ _. ⊤ };

    fn set_read_wait(&mut self, wait: Duration) -> io::Result<()> {
        self.0.set_read_timeout(Some(wait))
    }

    fn set_write_wait(&mut self, wait: Duration) -> io::Result<()> {
        self.0.set_write_timeout(Some(wait))
    }

    fn ends(&mut self) -> io::Result<(Socket, Socket)> {
        Ok((self.share()?, self.share()?))
    }

    fn shut(&mut self, side: Shutdown) -> io::Result<()> {
        self.0.shutdown(side)
    }
}

impl Read for Socket {
    fn read(&mut self, buf: &mut [u8]) -> io::Result<usize> {
        let mut stream: &TcpStream = &self.0;
        stream.read(buf)
    }
}

impl Write for Socket {
    fn write(&mut self, buf: &[u8]) -> io::Result<usize> {
        let mut stream: &TcpStream = &self.0;
        stream.write(buf)
    }

    fn flush(&mut self) -> io::Result<()> {
        let mut stream: &TcpStream = &self.0;
        stream.flush()
    }
}
