//! What was tried, on what and why it failed, for a person who reads standard error.

use crate::stopped::Stopped;
use crate::tried::Tried;
use bag_folders::Failed;
use command_line::Line;
use commands::Trouble;
use fault_words::{Escaped, OtherFile};
use office_stores::{Cause, CommandFault, StoreFault};
use std::io::ErrorKind;
use std::{fmt, io};

/// Why a run fails.
#[derive(Clone, Copy)]
pub(crate) enum Detail<'a> {
    /// What was tried can't be done, and why, where that is known.
    Cannot(Tried<'a>, Option<Why>),
    /// A folder, or a file in it.
    Folder(&'a bag_folders::Trouble),
    /// The record with this number is malformed.
    Record(u64),
    /// What is so of the file of this name.
    File(&'a str, &'static str),
    Text(&'static str),
}

/// Why something can't be done.
#[derive(Clone, Copy)]
pub(crate) enum Why {
    Device(io::Error),
    /// A folder is where a form is wanted.
    Folder,
    Store(Cause),
}

/// The errors of the calls of the two streams that failed last.
#[derive(Clone, Copy)]
pub(crate) struct LastErrors {
    pub input: Option<io::Error>,
    pub output: Option<io::Error>,
}

const OUT_OF_MEMORY: Detail<'static> = Detail::Text("out of memory");

/// The names of the store and of the policy, empty where the line has none.
fn names_in<'a>(line: &Line<'a>) -> (&'a str, &'a str) {
    match line {
        Line::Policy { store, policy } => (store, policy),
        Line::Replay { policy, store } => (store, policy.unwrap_or("")),
        Line::Ask { store, .. } | Line::Serve { store, .. } => (store, ""),
        _ => ("", ""),
    }
}

/// The port to listen on, 0 where the line has none.
fn port_in(line: &Line<'_>) -> u16 {
    match line {
        Line::Serve { port, .. } => *port,
        _ => 0,
    }
}

/// What was tried can't be done, for this error of a device, where one is known.
fn cannot(tried: Tried<'_>, error: Option<io::Error>) -> Detail<'_> {
    match error {
        Some(error) => Detail::Cannot(tried, Some(Why::Device(error))),
        None => Detail::Cannot(tried, None),
    }
}

/// What the line has the program read failed so.
fn unread_detail<'a>(line: &Line<'a>, error: io::Error) -> Detail<'a> {
    match line {
        Line::Check { file: "-" } => cannot(Tried::Input, Some(error)),
        Line::Check { file } if error.kind() == ErrorKind::IsADirectory => {
            Detail::Cannot(Tried::Read(file), Some(Why::Folder))
        }
        Line::Check { file } => cannot(Tried::Read(file), Some(error)),
        Line::Explain(asked) => cannot(Tried::Read(asked.policy), Some(error)),
        _ => Detail::Text("a file can't be read"),
    }
}

fn cause_detail<'a>(line: &Line<'a>, cause: Cause, errors: LastErrors) -> Detail<'a> {
    let (store, policy) = names_in(line);
    let why = Some(Why::Store(cause));
    match cause {
        Cause::Policy(_) => Detail::Cannot(Tried::Read(policy), why),
        Cause::Search(_) => Detail::Cannot(Tried::Look(store), why),
        Cause::Refused(_) | Cause::Open(_) => Detail::Cannot(Tried::Open(store), why),
        Cause::Close(_) => Detail::Cannot(Tried::Close(store), why),
        Cause::Listen(_) => Detail::Cannot(Tried::Listen(port_in(line)), why),
        Cause::Accept(_) => Detail::Cannot(Tried::Accept, why),
        Cause::Missing => Detail::File(store, "is not there"),
        Cause::Empty => Detail::File(store, "is an empty file, and no office"),
        Cause::Input => cannot(Tried::Input, errors.input),
        Cause::Output => cannot(Tried::Output, errors.output),
        Cause::Taken => Detail::File(store, "was opened before"),
        Cause::Install(_) => Detail::Cannot(Tried::Install(store), why),
    }
}

fn fault_detail<'a>(store: &'a str, fault: StoreFault) -> Detail<'a> {
    match fault {
        StoreFault::NotAnOffice => Detail::File(store, "is another database, and no office"),
        StoreFault::OtherVersion => Detail::File(store, "is an office of another version"),
        StoreFault::Memory => OUT_OF_MEMORY,
        StoreFault::Store => Detail::File(store, "failed"),
        StoreFault::Device => Detail::Text("standard input or output failed"),
    }
}

fn command_detail<'a>(line: &Line<'a>, fault: &CommandFault, errors: LastErrors) -> Detail<'a> {
    let (store, policy) = names_in(line);
    match fault {
        CommandFault::Policy(_) => Detail::File(policy, "is no policy"),
        CommandFault::BadRecord { index } => Detail::Record(*index),
        CommandFault::Failed {
            cause: Some(cause),
            ..
        } => cause_detail(line, *cause, errors),
        CommandFault::Failed { fault, cause: None } => fault_detail(store, *fault),
    }
}

/// Why what the line asks for fails.
pub(crate) fn detail_of<'a>(
    line: &Line<'a>,
    stopped: &'a Stopped,
    errors: LastErrors,
) -> Detail<'a> {
    match stopped {
        Stopped::Unread(Trouble::Device(error)) => unread_detail(line, *error),
        Stopped::Unread(Trouble::Memory) => OUT_OF_MEMORY,
        Stopped::Folder(Failed::Device(trouble)) => Detail::Folder(trouble),
        Stopped::Folder(Failed::Memory) => OUT_OF_MEMORY,
        Stopped::Output(error) => cannot(Tried::Output, Some(*error)),
        Stopped::Store(fault) => command_detail(line, fault, errors),
    }
}

impl fmt::Display for Why {
    fn fmt<W: fmt::Write>(&self, f: &mut fmt::Formatter<W>) -> fmt::Result {
        match self {
            Why::Device(error) => write!(f, "{error}"),
            Why::Folder => {
                let folder = OtherFile::Folder;
                write!(f, "{folder}")
            }
            Why::Store(cause) => write!(f, "{cause}"),
        }
    }
}

impl fmt::Display for Detail<'_> {
    fn fmt<W: fmt::Write>(&self, f: &mut fmt::Formatter<W>) -> fmt::Result {
        match self {
            Detail::Cannot(tried, Some(why)) => write!(f, "cannot {tried}: {why}"),
            Detail::Cannot(tried, None) => write!(f, "cannot {tried}"),
            Detail::Folder(trouble) => write!(f, "{trouble}"),
            Detail::Record(index) => write!(f, "record {index} of the input is malformed"),
            Detail::File(name, text) => {
                let name = Escaped(name);
                write!(f, "{name} {text}")
            }
            Detail::Text(text) => f.write_str(text),
        }
    }
}
