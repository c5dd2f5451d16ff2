//! A test device over memory.

ghost use Rattle.std.specs.Prelude.{◌≡◌, ℕ, ◌-◌, ◌<◌, min, length, IsErr, IsOk, Some, Ok, IfOk, IfErr};
ghost use Rattle.std.specs.Io.{ReadsAtMost, WritesAtMost};
ghost use Rattle.std.specs.Io.KnownBytes.{ReadConsumes, WriteAppends, Keeps};
ghost use Rattle.std.specs.IoError.{error_kind};
ghost use Rattle.desk_devices.specs.Devices.{count_in};

use std::io;
use std::io::{Error, ErrorKind, Read, Write};

/// How many bytes a call gives or takes.
#[derive(Clone, Copy, Debug, PartialEq, Eq)]
pub enum Portion {
    /// One, where there is one.
    OneByte,
    /// As many as there are.
    All,
}

impl Portion {
    fn of(self, bytes: usize) -> usize
        ensures { result ≡ count_in self bytes }
    {
        match self {
            Portion::OneByte => bytes.min(1),
            Portion::All => bytes,
        }
    }
}

/// A test device over memory: a slice is read, a `Vec` is written. It works for a number of calls,
/// and each call from then on fails and changes nothing.
#[derive(Debug, Drop)]
pub struct FailAt<M> {
    /// What is still to be read, or what has been written.
    pub memory: M,
    /// How many bytes a call gives or takes.
    pub portion: Portion,
    /// How many calls work from here on.
    pub calls_left: u64,
}

impl<M> FailAt<M> {
    /// A device that works for this number of calls: it fails from its call `calls` on, counted from 0.
    pub fn new(memory: M, portion: Portion, calls: u64) -> FailAt<M>
        ensures memory { result.memory ≡ memory }
        ensures portion { result.portion ≡ portion }
        ensures calls { result.calls_left ≡ calls }
    {
        FailAt {
            memory,
            portion,
            calls_left: calls,
        }
    }

    /// Counts a call, which works or fails.
    fn count_call(&mut self) -> io::Result<()>
        ensures fails { self.old.calls_left ≡ 0 → IsErr result }
        ensures works { 0 < self.old.calls_left → IsOk result }
        ensures calls { self.new.calls_left ≡ self.old.calls_left - 1 }
        ensures memory { self.new.memory ≡ self.old.memory }
        ensures portion { self.new.portion ≡ self.old.portion }
    {
        if self.calls_left == 0 {
            return Err(Error::from(ErrorKind::BrokenPipe));
        }
        self.calls_left -= 1;
        Ok(())
    }
}

impl Read for FailAt<&[u8]> {
    ghost remaining = { λ device. Some device.memory.now };

    fn read(&mut self, buf: &mut [u8]) -> io::Result<usize>
        ensures bound { ReadsAtMost result buf.new }
        ensures bytes { ReadConsumes (Some self.old.memory.now)
            (Some self.new.memory.now) result buf.new }
        ensures fails { self.old.calls_left ≡ 0 → IsErr result }
        ensures gives { 0 < self.old.calls_left
            → result
            ≡ Ok (count_in self.old.portion (min (length self.old.memory.now) (length buf.old))) }
        ensures calls { self.new.calls_left ≡ self.old.calls_left - 1 }
        ensures portion { self.new.portion ≡ self.old.portion }
    {
        self.count_call()?;
        let room = self.portion.of(buf.len());
        self.memory.read(&mut buf[..room])
    }
}

impl Write for FailAt<Vec<u8>> {
    ghost contents = { λ device. Some device.memory.items };

    fn write(&mut self, buf: &[u8]) -> io::Result<usize>
        ensures bound { WritesAtMost result buf.now }
        ensures bytes { WriteAppends (Some self.old.memory.items)
            (Some self.new.memory.items) result buf.now }
        ensures fails { self.old.calls_left ≡ 0 → IsErr result }
        ensures takes { IfOk result (λ n. n ≡ count_in self.old.portion (length buf.now)) }
        ensures works { 0 < self.old.calls_left
            → IfErr result (λ e. error_kind e ≡ ErrorKind.OutOfMemory) }
        ensures calls { self.new.calls_left ≡ self.old.calls_left - 1 }
        ensures portion { self.new.portion ≡ self.old.portion }
    {
        self.count_call()?;
        let room = self.portion.of(buf.len());
        self.memory.write(&buf[..room])
    }

    fn flush(&mut self) -> io::Result<()>
        ensures bytes { Keeps (Some self.old.memory.items) (Some self.new.memory.items) }
        ensures fails { self.old.calls_left ≡ 0 → IsErr result }
        ensures works { 0 < self.old.calls_left → IsOk result }
        ensures calls { self.new.calls_left ≡ self.old.calls_left - 1 }
        ensures portion { self.new.portion ≡ self.old.portion }
    {
        self.count_call()
    }
}
