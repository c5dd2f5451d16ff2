//! Reading and writing whole, from a reader and to a writer that are interrupted.

use std::alloc::Global;
use std::io;
use std::io::{Error, ErrorKind, Read, Write};
use std::test::*;
use streams::{read_at_most, read_whole, write_bytes, write_text};

/// Bytes that come and go one by one, each after a call that is interrupted.
#[derive(Drop)]
struct Slow<'a> {
    rest: &'a [u8],
    taken: Vec<u8>,
    is_interrupted: bool,
}

impl<'a> Slow<'a> {
    fn new(rt: &HostRuntime, rest: &'a [u8]) -> Slow<'a> {
        Slow {
            rest,
            taken: Vec::new(rt.alloc()),
            is_interrupted: false,
        }
    }

    /// Fails at each second call.
    fn interrupt(&mut self) -> io::Result<()> {
        self.is_interrupted = !self.is_interrupted;
        if self.is_interrupted {
            return Err(Error::from(ErrorKind::Interrupted));
        }
        Ok(())
    }
}

impl Read for Slow<'_> {
    fn read(&mut self, buf: &mut [u8]) -> io::Result<usize> {
        self.interrupt()?;
        let room = buf.len().min(1);
        self.rest.read(&mut buf[..room])
    }
}

impl Write for Slow<'_> {
    fn write(&mut self, buf: &[u8]) -> io::Result<usize> {
        self.interrupt()?;
        let room = buf.len().min(1);
        self.taken.extend_from_slice(&buf[..room])?;
        Ok(room)
    }

    fn flush(&mut self) -> io::Result<()> {
        Ok(())
    }
}

/// Whether the reader gives these bytes, where no more are asked for.
fn gives(alloc: Global, most: u64, reader: &mut Slow<'_>, bytes: &[u8]) -> Result<bool, Fail> {
    Ok(read_at_most(alloc, most, reader)?.as_slice() == bytes)
}

/// Whether the reader gives these bytes to its end.
fn gives_all(alloc: Global, reader: &mut Slow<'_>, bytes: &[u8]) -> Result<bool, Fail> {
    Ok(read_whole(alloc, reader)?.as_slice() == bytes)
}

#[test]
fn reads_and_writes_whole(rt: HostRuntime) -> Result<(), Fail> {
    let mut reader = Slow::new(&rt, b"abcde");
    assert!(rt; gives(rt.alloc(), 2, &mut reader, b"ab")?);
    assert!(rt; gives_all(rt.alloc(), &mut reader, b"cde")?);
    assert!(rt; gives(rt.alloc(), 2, &mut reader, b"")?);
    Ok(())
}

#[test]
fn writes_whole(rt: HostRuntime) -> Result<(), Fail> {
    let mut writer = Slow::new(&rt, b"");
    write_text("ab", &mut writer)?;
    write_bytes(b"cde", &mut writer)?;
    assert!(rt; writer.taken.as_slice() == b"abcde".as_slice());
    Ok(())
}
