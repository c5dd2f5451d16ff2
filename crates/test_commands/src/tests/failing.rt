//! The file system of the host, of which something fails.

use std::alloc::Global;
use std::cell::Cell;
use std::fs::{Metadata, OpenFile, OpenOptions};
use std::io;
use std::io::{Error, ErrorKind, Read, Seek, SeekFrom, Write};
use std::rt::Files;

/// What goes wrong.
#[derive(Clone, Copy, PartialEq, Eq)]
pub enum Fault {
    /// The call with this number, from 0.
    Call(u32),
    /// Nothing can be written to a file.
    Write,
    /// No file comes to the disk.
    Sync,
    /// Each folder has a name that isn't UTF-8.
    Name,
    /// Each file was one byte longer as it was listed.
    Size,
}

/// The files of the host, with a fault.
#[derive(Drop)]
pub struct Failing<'a> {
    host: &'a HostRuntime,
    fault: Fault,
    calls: Cell<u32>,
}

impl<'a> Failing<'a> {
    pub(crate) fn new(host: &'a HostRuntime, fault: Fault) -> Failing<'a> {
        Failing {
            host,
            fault,
            calls: Cell::new(0),
        }
    }

    /// Whether the call that was to fail was made.
    pub(crate) fn has_failed(&self) -> bool {
        match self.fault {
            Fault::Call(number) => self.calls.get() > number,
            _ => true,
        }
    }

    /// Counts a call, which may be the one that fails.
    fn count(&self) -> io::Result<()> {
        let number = self.calls.get();
        self.calls.set(number.saturating_add(1));
        if self.fault == Fault::Call(number) {
            return Err(Error::from(ErrorKind::BrokenPipe));
        }
        Ok(())
    }
}

impl<'a> Alloc for Failing<'a> {
    type A = Global;

    fn alloc(&self) -> Global {
        self.host.alloc()
    }
}

/// A file of the host.
#[derive(Drop)]
pub struct FailingFile {
    file: std::fs::File,
    fault: Fault,
}

impl Read for FailingFile {
    fn read(&mut self, buf: &mut [u8]) -> io::Result<usize> {
        self.file.read(buf)
    }
}

impl Write for FailingFile {
    fn write(&mut self, buf: &[u8]) -> io::Result<usize> {
        if self.fault == Fault::Write {
            return Err(Error::from(ErrorKind::StorageFull));
        }
        self.file.write(buf)
    }

    fn flush(&mut self) -> io::Result<()> {
        self.file.flush()
    }
}

impl Seek for FailingFile {
    fn seek(&mut self, to: SeekFrom) -> io::Result<u64> {
        self.file.seek(to)
    }
}

impl OpenFile for FailingFile {
    fn metadata(&self) -> io::Result<Metadata> {
        self.file.metadata()
    }

    fn set_len(&self, size: u64) -> io::Result<()> {
        self.file.set_len(size)
    }

    fn sync_all(&self) -> io::Result<()> {
        if self.fault == Fault::Sync {
            return Err(Error::from(ErrorKind::StorageFull));
        }
        self.file.sync_all()
    }

    fn sync_data(&self) -> io::Result<()> {
        self.file.sync_data()
    }
}

/// A folder of the host.
#[derive(Drop)]
pub struct FailingDir {
    dir: <HostRuntime as Files>::Dir,
    has_odd_name: bool,
}

impl Read for FailingDir {
    fn read(&mut self, buf: &mut [u8]) -> io::Result<usize> {
        if self.has_odd_name {
            self.has_odd_name = false;
            let mut name = b"a\xFF\0".as_slice();
            return name.read(buf);
        }
        self.dir.read(buf)
    }
}

impl<'a> Files for Failing<'a> {
    type File = FailingFile;

    type Dir = FailingDir;

    fn open_file(&self, how: &OpenOptions, path: &str) -> io::Result<FailingFile> {
        self.count()?;
        Ok(FailingFile {
            file: self.host.open_file(how, path)?,
            fault: self.fault,
        })
    }

    fn open_dir(&self, path: &str) -> io::Result<FailingDir> {
        self.count()?;
        Ok(FailingDir {
            dir: self.host.open_dir(path)?,
            has_odd_name: self.fault == Fault::Name,
        })
    }

    fn metadata(&self, path: &str) -> io::Result<Metadata> {
        self.count()?;
        self.host.metadata(path)
    }

    fn symlink_metadata(&self, path: &str) -> io::Result<Metadata> {
        self.count()?;
        let metadata = self.host.symlink_metadata(path)?;
        if self.fault == Fault::Size && metadata.is_file() {
            return Ok(Metadata::of_file(metadata.len().saturating_add(1)));
        }
        Ok(metadata)
    }

    fn copy(&self, from: &str, to: &str) -> io::Result<u64> {
        self.count()?;
        self.host.copy(from, to)
    }

    fn rename(&self, from: &str, to: &str) -> io::Result<()> {
        self.count()?;
        self.host.rename(from, to)
    }

    fn remove_file(&self, path: &str) -> io::Result<()> {
        self.host.remove_file(path)
    }

    fn create_dir(&self, path: &str) -> io::Result<()> {
        self.count()?;
        self.host.create_dir(path)
    }

    fn remove_dir(&self, path: &str) -> io::Result<()> {
        self.count()?;
        self.host.remove_dir(path)
    }

    fn remove_dir_all<B: std::alloc::Allocator>(&self, alloc: B, path: &str) -> io::Result<()> {
        self.count()?;
        self.host.remove_dir_all(alloc, path)
    }
}
