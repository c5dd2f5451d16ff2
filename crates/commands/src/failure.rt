//! Failures of what the program depends on: devices and memory.

ghost use Rattle.std.specs.Prelude.{◌≡◌};
ghost use Rattle.std.specs.IoError.{error_kind};
ghost use Rattle.commands.specs.Failing.{failure_of_kind, message_of};

use std::io::{Error, ErrorKind};

/// A failure of a device or of memory.
#[derive(Clone, Copy, Debug, PartialEq, Eq)]
pub enum Failure {
    /// A file, a standard stream or another device failed.
    Device,
    /// A growth was refused.
    Memory,
}

impl Failure {
    /// The line that says so on standard error.
    pub fn message(self) -> &'static str
        ensures { result.now ≡ message_of self }
    {
        match self {
            Failure::Device => "device\n",
            Failure::Memory => "memory\n",
        }
    }
}

impl From<Error> for Failure {
    ghost from_gives = { λ error failure. failure ≡ failure_of_kind (error_kind error) };

    fn from(error: Error) -> Failure {
        match error.kind() {
            ErrorKind::OutOfMemory => Failure::Memory,
            _ => Failure::Device,
        }
    }
}
