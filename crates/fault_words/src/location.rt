//! Where a fault of a policy is, in words.

ghost use Rattle.std.specs.Prelude.{Some};
ghost use Rattle.fault_words.specs.Locations.{location_words};

use crate::escaped::Escaped;
use std::fmt;

/// Where a fault of a policy is, to be printed after its sentence.
#[derive(Clone, Copy)]
pub enum Location<'a> {
    /// It isn't known.
    Nowhere,
    /// In this line, counted from 1.
    Line(usize),
    /// At this key.
    Key(&'a str),
    /// At the caller of this name.
    Caller(&'a str),
}

impl<'a> fmt::Display for Location<'a> {
    ghost output = { λ location. Some (location_words location) };

    fn fmt<W: fmt::Write>(&self, f: &mut fmt::Formatter<W>) -> fmt::Result {
        match self {
            Location::Nowhere => Ok(()),
            Location::Line(number) => write!(f, ": line {number}"),
            Location::Key(key) => {
                let key = Escaped(key);
                write!(f, ": the key {key}")
            }
            Location::Caller(name) => {
                let name = Escaped(name);
                write!(f, ": the caller {name}")
            }
        }
    }
}
