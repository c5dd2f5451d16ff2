//! Invalid arguments.

ghost use Rattle.std.specs.Prelude.{◌≡◌, Some};
ghost use Rattle.clap.specs.Words.{kind_of};
ghost use Rattle.command_line.specs.Usage.{IsExplainedBy, use_fault_text};
ghost use Rattle.clap.specs.declared.error.kind.ErrorKind.TheVariants.{OutOfMemory};
ghost use Rattle.command_line.specs.declared.use_fault.UseFault.TheVariants.{Memory};

use clap::Error;
use clap::error::ErrorKind;
use std::alloc::{AllocError, Global};
use std::fmt;

/// Why a command line asks for nothing.
#[derive(Debug, Drop)]
pub enum UseFault {
    /// The arguments are invalid. The text says why, or how the program is used.
    Use(String),
    /// A growth was refused.
    Memory,
}

impl fmt::Display for UseFault {
    ghost output = { λ fault. Some (use_fault_text fault) };

    fn fmt<W: fmt::Write>(&self, f: &mut fmt::Formatter<W>) -> fmt::Result {
        match self {
            UseFault::Use(text) => write!(f, "{text}"),
            UseFault::Memory => write!(f, "memory"),
        }
    }
}

impl std::error::Error for UseFault {}

impl From<AllocError> for UseFault {
    ghost from_gives = { λ _ e. e ≡ Memory };

    fn from(_error: AllocError) -> UseFault {
        UseFault::Memory
    }
}

/// What a refusal of clap's comes to.
pub fn clap_fault(alloc: Global, error: &Error) -> UseFault
    ensures memory { kind_of error.now ≡ OutOfMemory → result ≡ Memory }
{
    if error.kind() == ErrorKind::OutOfMemory {
        return UseFault::Memory;
    }
    match format!(in alloc; "{error}") {
        Ok(text) => UseFault::Use(text),
        Err(_) => UseFault::Memory,
    }
}

/// A fault of use that this text explains.
pub fn fault_of_use(alloc: Global, why: &str) -> UseFault
    ensures { IsExplainedBy why.now result }
{
    match String::from_str(alloc, why) {
        Ok(text) => UseFault::Use(text),
        Err(_) => UseFault::Memory,
    }
}
