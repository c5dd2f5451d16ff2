//! Readers that may fail, and what is told of an outcome.

use commands::Outcome;
use std::io;
use std::io::{Error, ErrorKind, Read};

/// A reader of these bytes, which may fail after them.
#[derive(Drop)]
pub struct Given<'a> {
    pub rest: &'a [u8],
    pub fails: bool,
}

impl<'a> Read for Given<'a> {
    fn read(&mut self, buf: &mut [u8]) -> io::Result<usize> {
        if self.fails && self.rest.is_empty() {
            return Err(Error::from(ErrorKind::BrokenPipe));
        }
        self.rest.read(buf)
    }
}

/// What is printed to standard error of an outcome: nothing where there is no reason.
pub(crate) fn told(outcome: &Outcome) -> &str {
    match &outcome.reason {
        Some(reason) => reason.as_str(),
        None => "",
    }
}
