//! Devices whose failures are counted.

ghost use Rattle.std.specs.Prelude.{◌≡◌, None, Some};
ghost use Rattle.std.specs.Io.{ReadsAtMost, WritesAtMost};
ghost use Rattle.std.specs.Io.KnownBytes.{ReadConsumes, WriteAppends, Keeps};
ghost use Rattle.desk_devices.specs.Devices.{CountsFailure, CountsFailedWrite, NotesError, NotesWriteError, device_of, failures_of, last_error_of, one_more};

use std::io;
use std::io::{Error, ErrorKind, Read, Write};

/// A reader or a writer, the number of its calls that failed, and the error of the last of them.
/// Those calls failed that answered an error, and those writes that took nothing of some bytes.
/// At 2^64 - 1 the number stays. The device is private, so that no call goes round the counter.
#[derive(Debug, Drop)]
pub struct Counted<D> {
    device: D,
    failures: u64,
    last_error: Option<Error>,
}

impl<D> Counted<D> {
    /// A device of which no call has failed.
    pub fn new(device: D) -> Counted<D>
        ensures device { device_of result ≡ device }
        ensures failures { failures_of result ≡ 0 }
        ensures error { last_error_of result ≡ None }
    {
        Counted {
            device,
            failures: 0,
            last_error: None,
        }
    }

    /// What is read or written.
    pub fn device(&self) -> &D
        ensures { result.now ≡ device_of self.now }
    {
        &self.device
    }

    /// What was read or written, whose calls are counted no more.
    pub fn into_device(self) -> D
        ensures { result ≡ device_of self }
    {
        self.device
    }

    /// How many calls failed.
    pub fn failures(&self) -> u64
        ensures { result ≡ failures_of self.now }
    {
        self.failures
    }

    /// The error of the last call that failed, if one did.
    pub fn last_error(&self) -> Option<Error>
        ensures { result ≡ last_error_of self.now }
    {
        self.last_error
    }

    /// Counts a call that failed with this error.
    fn count(&mut self, error: Error)
        ensures device { device_of self.new ≡ device_of self.old }
        ensures failures { failures_of self.new ≡ one_more (failures_of self.old) }
        ensures error { last_error_of self.new ≡ Some error }
    {
        self.failures = self.failures.saturating_add(1);
        self.last_error = Some(error);
    }
}

impl<R: Read> Read for Counted<R> {
    ghost remaining = { λ c. R.remaining (device_of c) };

    fn read(&mut self, buf: &mut [u8]) -> io::Result<usize>
        ensures bound { ReadsAtMost result buf.new }
        ensures bytes { ReadConsumes (R.remaining (device_of self.old))
            (R.remaining (device_of self.new)) result buf.new }
        ensures counted { CountsFailure (failures_of self.old) (failures_of self.new) result }
        ensures error { NotesError (last_error_of self.old) (last_error_of self.new) result }
    {
        let result = self.device.read(buf);
        if let Err(error) = &result {
            self.count(*error);
        }
        result
    }
}

impl<W: Write> Write for Counted<W> {
    ghost contents = { λ c. W.contents (device_of c) };

    fn write(&mut self, buf: &[u8]) -> io::Result<usize>
        ensures bound { WritesAtMost result buf.now }
        ensures bytes { WriteAppends (W.contents (device_of self.old))
            (W.contents (device_of self.new)) result buf.now }
        ensures counted { CountsFailedWrite (failures_of self.old)
            (failures_of self.new) result buf.now }
        ensures error { NotesWriteError (last_error_of self.old)
            (last_error_of self.new) result buf.now }
    {
        let result = self.device.write(buf);
        match &result {
            Ok(n) if *n == 0 && !buf.is_empty() => self.count(Error::from(ErrorKind::WriteZero)),
            Ok(_) => {}
            Err(error) => self.count(*error),
        }
        result
    }

    fn flush(&mut self) -> io::Result<()>
        ensures bytes { Keeps (W.contents (device_of self.old)) (W.contents (device_of self.new)) }
        ensures counted { CountsFailure (failures_of self.old) (failures_of self.new) result }
        ensures error { NotesError (last_error_of self.old) (last_error_of self.new) result }
    {
        let result = self.device.flush();
        if let Err(error) = &result {
            self.count(*error);
        }
        result
    }
}
