//! A device or memory that failed, and what was tried.

ghost use Rattle.std.specs.Prelude.{◌≡◌, ◌↔◌, Some, ◌≢◌};
ghost use Rattle.std.specs.IoError.{error_kind};
ghost use Rattle.std.specs.declared.io.ErrorKind.TheVariants.{OutOfMemory};
ghost use Rattle.bag_folders.specs.declared.failed.Failed.TheVariants.{Memory};

use fault_words::{Escaped, OtherFile};
use std::alloc::{AllocError, Global};
use std::error::Error;
use std::io::ErrorKind;
use std::{fmt, io};

/// What was tried on a file or a folder.
#[derive(Clone, Copy, Debug, PartialEq, Eq)]
pub enum Tried {
    /// The names in a folder were read.
    List,
    /// It was asked what is at a path.
    Look,
    /// A file's bytes were read.
    Read,
    /// The bytes of a bag's form were read.
    Form,
    /// A file or a folder was made.
    Make,
    /// Bytes were written to a file.
    Write,
    /// A file was given the name that it is to have.
    Rename,
}

impl fmt::Display for Tried {
    fn fmt<W: fmt::Write>(&self, f: &mut fmt::Formatter<W>) -> fmt::Result {
        match self {
            Tried::List => f.write_str("list"),
            Tried::Look => f.write_str("look at"),
            Tried::Read | Tried::Form => f.write_str("read"),
            Tried::Make => f.write_str("make"),
            Tried::Write => f.write_str("write"),
            Tried::Rename => f.write_str("rename"),
        }
    }
}

/// What a device refused, on which file or folder, and its error. The path is none where no memory
/// was left for it.
#[derive(Debug, Drop)]
pub struct Trouble {
    pub tried: Tried,
    pub path: Option<String>,
    pub error: io::Error,
}

impl fmt::Display for Trouble {
    fn fmt<W: fmt::Write>(&self, f: &mut fmt::Formatter<W>) -> fmt::Result {
        let tried = self.tried;
        write!(f, "cannot {tried}")?;
        if let Some(path) = &self.path {
            let path = Escaped(path.as_str());
            write!(f, " {path}")?;
        }
        // A folder is often named where its form is wanted.
        match (tried, self.error.kind()) {
            (Tried::Form, ErrorKind::IsADirectory) => {
                let why = OtherFile::Folder;
                write!(f, ": {why}")
            }
            _ => write!(f, ": {}", self.error),
        }
    }
}

impl Error for Trouble {}

/// What a call depends on has failed.
#[derive(Debug, Drop, thiserror::Error)]
pub enum Failed {
    /// A file, a folder or another device.
    #[error("{0}")]
    Device(Trouble),
    /// A growth was refused.
    #[error("memory")]
    Memory,
}

impl From<AllocError> for Failed {
    ghost from_gives = { λ _ failed. failed ≡ Memory };

    fn from(_: AllocError) -> Failed {
        Failed::Memory
    }
}

/// What a device's error comes to.
pub fn failed_at(alloc: Global, tried: Tried, path: &str, error: io::Error) -> Failed
    ensures { result ≡ Memory ↔ error_kind error ≡ OutOfMemory }
{
    if error.kind() == ErrorKind::OutOfMemory {
        return Failed::Memory;
    }
    Failed::Device(Trouble {
        tried,
        path: String::from_str(alloc, path).ok(),
        error,
    })
}
