//! What was tried.

ghost use Rattle.std.specs.Prelude.{Some};
ghost use Rattle.program.specs.Telling.{tried_text};

use fault_words::Escaped;
use std::fmt;

/// What was tried.
#[derive(Clone, Copy)]
pub(crate) enum Tried<'a> {
    /// A file was read.
    Read(&'a str),
    /// It was asked what is at the path of a store.
    Look(&'a str),
    /// A store was opened.
    Open(&'a str),
    /// A store was closed.
    Close(&'a str),
    /// A policy was to be installed in a store.
    Install(&'a str),
    /// This port of 127.0.0.1 was to be had.
    Listen(u16),
    /// The next connection was to be accepted.
    Accept,
    Input,
    Output,
}

impl fmt::Display for Tried<'_> {
    ghost output = { λ tried. Some (tried_text tried) };

    fn fmt<W: fmt::Write>(&self, f: &mut fmt::Formatter<W>) -> fmt::Result {
        match self {
            Tried::Read(file) => {
                let file = Escaped(file);
                write!(f, "read {file}")
            }
            Tried::Look(store) => {
                let store = Escaped(store);
                write!(f, "look at {store}")
            }
            Tried::Open(store) => {
                let store = Escaped(store);
                write!(f, "open {store}")
            }
            Tried::Close(store) => {
                let store = Escaped(store);
                write!(f, "close {store}")
            }
            Tried::Install(store) => {
                let store = Escaped(store);
                write!(f, "install the policy in {store}")
            }
            Tried::Listen(port) => write!(f, "listen on 127.0.0.1:{port}"),
            Tried::Accept => f.write_str("accept a connection"),
            Tried::Input => f.write_str("read standard input"),
            Tried::Output => f.write_str("write standard output"),
        }
    }
}
