//! What the program prints and tells, and the peers that connect once it listens.

ghost use Rattle.std.specs.Io.{WritesAtMost};

use std::io;
use std::io::{Error, ErrorKind, Read, Write};
use std::net::{Ipv4Addr, Shutdown, TcpStream};
use std::time::Duration;

/// What becomes of the bytes that a stream is to take.
#[derive(Clone, Copy, Debug, PartialEq, Eq)]
pub(crate) enum Taking {
    /// It takes them.
    All,
    /// It takes none of a call.
    Nothing,
    /// A call that writes fails.
    Fails,
    /// It takes them, and fails as it is flushed.
    Unflushed,
}

impl Taking {
    /// Adds to what was said what is taken of these bytes.
    fn write(self, said: &mut Vec<u8>, buf: &[u8]) -> io::Result<usize>
        ensures { WritesAtMost result buf.now }
    {
        match self {
            Taking::All | Taking::Unflushed => said.write(buf),
            Taking::Nothing => Ok(0),
            Taking::Fails => Err(Error::from(ErrorKind::BrokenPipe)),
        }
    }

    fn flush(self) -> io::Result<()> {
        match self {
            Taking::Unflushed => Err(Error::from(ErrorKind::BrokenPipe)),
            _ => Ok(()),
        }
    }
}

/// Standard error of a run.
#[derive(Drop)]
pub(crate) struct Told {
    /// What it is told.
    pub(crate) said: Vec<u8>,
    pub(crate) taking: Taking,
}

impl Write for Told {
    fn write(&mut self, buf: &[u8]) -> io::Result<usize> {
        self.taking.write(&mut self.said, buf)
    }

    fn flush(&mut self) -> io::Result<()> {
        self.taking.flush()
    }
}

/// Standard output of a run. Once it holds the line that says where the program listens, and is
/// flushed, that line is taken out, and peers connect, each of which sends its request.
#[derive(Drop)]
pub(crate) struct Output<'a> {
    pub(crate) rt: &'a HostRuntime,
    /// What is printed.
    pub(crate) said: Vec<u8>,
    pub(crate) taking: Taking,
    /// What the peers send, with `#` between them.
    pub(crate) peers: &'a str,
    /// Their ends of the connections.
    pub(crate) streams: Vec<TcpStream>,
}

impl Output<'_> {
    /// The port, where the line that names it is all that is printed.
    fn port(&self) -> Option<u16> {
        let line = str::from_utf8(self.said.as_slice()).ok()?;
        line.strip_prefix("listening ")?
            .strip_suffix("\n")?
            .parse()
            .ok()
    }

    /// Has a peer connect and send its request, all of it.
    fn call(&mut self, port: u16, request: &str) -> io::Result<()> {
        let mut stream = TcpStream::connect(self.rt, (Ipv4Addr::LOCALHOST, port))?;
        stream.set_read_timeout(Some(Duration::from_secs(5)))?;
        stream.write_all(request.as_bytes())?;
        stream.shutdown(Shutdown::Write)?;
        self.streams.push(stream)?;
        Ok(())
    }

    /// Adds to what is printed what each peer got, and `#` after it.
    pub(crate) fn hear(&mut self) -> io::Result<()> {
        for stream in self.streams.iter_mut() {
            stream.read_to_end(&mut self.said)?;
            self.said.push(b'#')?;
        }
        Ok(())
    }
}

impl Write for Output<'_> {
    fn write(&mut self, buf: &[u8]) -> io::Result<usize> {
        self.taking.write(&mut self.said, buf)
    }

    fn flush(&mut self) -> io::Result<()> {
        self.taking.flush()?;
        let Some(port) = self.port() else {
            return Ok(());
        };
        self.said.clear();
        for request in self.peers.split('#') {
            self.call(port, request)?;
        }
        Ok(())
    }
}
