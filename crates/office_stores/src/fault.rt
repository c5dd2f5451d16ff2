//! Why a command on a store fails, and what is printed of that to standard error.

ghost use Rattle.std.specs.Prelude.{◌≡◌, ◌++◌, IfOk, None, Some, false, string_bytes};
ghost use Rattle.commands.specs.Explaining.{bad_policy_text};
ghost use Rattle.office_stores.specs.Texts.{IsOfOpening, IsOfStore, IsUnopenable, ending_of, command_fault_text, found_nothing, is_of_nothing, is_of_search, is_sought, message_of};
ghost use Rattle.office_stores.specs.declared.fault.CommandFault.TheVariants.{Failed};

use commands::{Ending, Failure, RefusedPolicy};
use office_tables::TableFault;
use std::alloc::{AllocError, Global};
use std::{fmt, io};

/// A failure of a store, or of what the program depends on.
#[derive(Clone, Copy, Debug, PartialEq, Eq)]
pub enum StoreFault {
    /// There is no office: nothing is there, or it is another database.
    NotAnOffice,
    /// An office of another version.
    OtherVersion,
    /// A growth was refused.
    Memory,
    /// The store can't be opened or closed, or refused a statement, for another cause than memory.
    Store,
    /// The policy's file, a standard stream or another device failed.
    Device,
}

impl StoreFault {
    /// The line that says so on standard error.
    pub fn message(self) -> &'static str
        ensures { result.now ≡ message_of self }
    {
        match self {
            StoreFault::NotAnOffice => "store Q1\n",
            StoreFault::OtherVersion => "store Q2\n",
            StoreFault::Memory => Failure::Memory.message(),
            StoreFault::Store => "store Q4\n",
            StoreFault::Device => Failure::Device.message(),
        }
    }
}

/// What a failure came from.
#[derive(Clone, Copy, Debug)]
pub enum Cause {
    /// The policy's file could not be read.
    Policy(io::Error),
    /// Where the store is to be, the host's files could not be asked.
    Search(io::Error),
    /// The host's files don't let the store be read and written.
    Refused(io::Error),
    /// The store could not be opened.
    Open(sqlite::Error),
    /// The log could not be copied into the store. What was changed is in the log.
    Close(sqlite::Error),
    /// The address of the desk could not be had.
    Listen(io::Error),
    /// A connection could not be accepted.
    Accept(io::Error),
    /// There is no file.
    Missing,
    /// The file is empty.
    Empty,
    /// Standard input could not be read.
    Input,
    /// Standard output could not be written.
    Output,
    /// The store was opened before.
    Taken,
    /// The policy could not be installed.
    Install(TableFault),
}

impl fmt::Display for Cause {
    fn fmt<W: fmt::Write>(&self, f: &mut fmt::Formatter<W>) -> fmt::Result {
        match self {
            Cause::Policy(error)
            | Cause::Search(error)
            | Cause::Refused(error)
            | Cause::Listen(error)
            | Cause::Accept(error) => write!(f, "{error}"),
            Cause::Open(error) | Cause::Close(error) => write!(f, "{error}"),
            Cause::Missing => write!(f, "there is no file"),
            Cause::Empty => write!(f, "the file is empty"),
            Cause::Input => write!(f, "it can't be read"),
            Cause::Output => write!(f, "it can't be written"),
            Cause::Taken => write!(f, "it was opened before"),
            Cause::Install(TableFault::Memory) => write!(f, "out of memory"),
            Cause::Install(_) => write!(f, "the store failed"),
        }
    }
}

/// Why a command on a store doesn't come to its end.
#[derive(Debug, Drop)]
pub enum CommandFault {
    /// The policy that is to be installed before a replay is refused.
    Policy(RefusedPolicy),
    /// What comes as the record of this number, from 1, is malformed, or one more than there may be. Those before
    /// it are answered.
    BadRecord {
        index: u64,
    },
    /// The store, memory or a device failed.
    Failed {
        fault: StoreFault,
        /// What it came from, where that is known.
        cause: Option<Cause>,
    },
}

/// A failure, and what it came from.
pub fn failed_by(fault: StoreFault, cause: Cause) -> CommandFault
    ensures is { result ≡ Failed fault (Some cause) }
    ensures nothing { found_nothing result ≡ is_of_nothing (Some cause) }
    ensures sought { is_sought result ≡ is_of_search (Some cause) }
    ensures unopenable { IsOfStore fault → IsOfOpening (Some cause) → IsUnopenable result }
{
    CommandFault::Failed {
        fault,
        cause: Some(cause),
    }
}

/// The line of a policy that is refused, and the sentence that says why.
fn refused_lines(alloc: Global, refused: &RefusedPolicy) -> Result<String, AllocError>
    ensures { IfOk result (λ text. string_bytes text
        ≡ bad_policy_text refused.now.fault ++ string_bytes refused.now.reason) }
{
    let mut lines = refused.line(alloc)?;
    lines.push_str(refused.reason.as_str())?;
    Ok(lines)
}

impl CommandFault {
    /// A failure of which no more is known.
    pub fn without_cause(fault: StoreFault) -> CommandFault
        ensures is { result ≡ Failed fault None }
        ensures sought { is_sought result ≡ false }
        ensures unopenable { IsOfStore fault → IsUnopenable result }
    {
        CommandFault::Failed { fault, cause: None }
    }

    /// The line that says so on standard error, and after it why a policy is refused.
    pub fn line(&self, alloc: Global) -> Result<String, AllocError>
        ensures { IfOk result (λ text. string_bytes text ≡ command_fault_text self.now) }
    {
        match self {
            CommandFault::Policy(refused) => refused_lines(alloc, refused),
            CommandFault::BadRecord { index } => format!(in alloc; "record {index}\n"),
            CommandFault::Failed { fault, .. } => String::from_str(alloc, fault.message()),
        }
    }

    /// How the program ends, once the line was printed to standard error.
    pub fn ending(&self) -> Ending
        ensures { result ≡ ending_of self.now }
    {
        match self {
            CommandFault::Policy(_) | CommandFault::BadRecord { .. } => Ending::Refused,
            CommandFault::Failed { .. } => Ending::Failed,
        }
    }
}
