//! Why a run fails.

ghost use Rattle.std.specs.Prelude.{◌≡◌, IfOk, string_bytes};
ghost use Rattle.program.specs.Telling.{ending_told, line_told};
ghost use Rattle.program.specs.declared.stopped.Stopped.TheVariants.{Unread};

use bag_folders::Failed;
use commands::{Ending, Failure, Trouble};
use office_stores::CommandFault;
use std::alloc::{AllocError, Global};
use std::io;

/// Why a run fails, or is refused as it goes on.
#[derive(Drop)]
pub enum Stopped {
    /// A form or a policy could not be read, or there was no memory to judge it.
    Unread(Trouble),
    /// A folder or a file could not be packed or unpacked.
    Folder(Failed),
    /// Standard output.
    Output(io::Error),
    /// The store, its policy, its records, or what they depend on.
    Store(CommandFault),
}

impl From<Trouble> for Stopped {
    ghost from_gives = { λ trouble stopped. stopped ≡ Unread trouble };

    fn from(trouble: Trouble) -> Stopped {
        Stopped::Unread(trouble)
    }
}

impl Stopped {
    /// The line that is printed to standard error first.
    pub fn line(&self, alloc: Global) -> Result<String, AllocError>
        ensures { IfOk result (λ text. string_bytes text ≡ line_told self.now) }
    {
        let line = match self {
            Stopped::Unread(Trouble::Device(_)) => Failure::Device.message(),
            Stopped::Unread(Trouble::Memory) => Failure::Memory.message(),
            Stopped::Folder(Failed::Device(_)) => Failure::Device.message(),
            Stopped::Folder(Failed::Memory) => Failure::Memory.message(),
            Stopped::Output(error) => Failure::from(*error).message(),
            Stopped::Store(fault) => return fault.line(alloc),
        };
        String::from_str(alloc, line)
    }

    /// How the program ends, once the lines were printed to standard error.
    pub fn ending(&self) -> Ending
        ensures { result ≡ ending_told self.now }
    {
        match self {
            Stopped::Unread(_) | Stopped::Folder(_) | Stopped::Output(_) => Ending::Failed,
            Stopped::Store(fault) => fault.ending(),
        }
    }
}
