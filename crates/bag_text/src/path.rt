//! Paths inside a bag.

ghost use Rattle.std.specs.Prelude.{◌≡◌, List, length, None, Some, Ok, Err, ℕ, IfOk, IfErr, true, ◌==◌, option_copied, if◌then◌else◌};
ghost use Rattle.std.specs.List.{list_any};
ghost use Rattle.bag_text.specs.Paths.{GoodPath, path_fault, is_good, is_dots_of, segments};
ghost use Rattle.bag_text.specs.declared.path.PathFault.{PathFault};

use crate::text::as_text;
use std::marker::Model;

/// Why a text is no path of a bag.
#[derive(Clone, Copy, Debug, PartialEq, Eq)]
pub enum PathFault {
    /// P1: the text is empty.
    Empty,
    /// P2: the text has more than 1,024 bytes.
    TooLong,
    /// P3: a segment is empty.
    EmptySegment,
    /// P4: a segment is `.` or `..`.
    DotSegment,
    /// P5: the text has a NUL.
    Nul,
}

/// The most bytes that a path of a bag has.
pub const MAX_PATH: usize = 1024;

/// A good path: UTF-8 of 1 to 1,024 bytes with `/` between its segments, none of which is empty, `.` or
/// `..`, and without NUL.
#[derive(Debug, Drop)]
pub struct BagPath<'a> {
    text: &'a str,
}

impl<'a> Model for BagPath<'a> {
    ghost Value = { List ℕ };

    ghost view = { λ path. path.text.now };

    ghost invariant = { λ path. is_good path.text.now ≡ true };
}

fn is_dots(segment: &[u8]) -> bool
    ensures { result ≡ is_dots_of segment.now }
{
    matches!(segment, b"." | b"..")
}

pub fn has_empty_segment(path: &[u8]) -> bool
    ensures { result ≡ list_any (λ s. length s == 0) (segments path.now) }
{
    path.split(|b| *b == b'/').any(|s| s.is_empty())
}

fn has_dot_segment(path: &[u8]) -> bool
    ensures { result ≡ list_any is_dots_of (segments path.now) }
{
    path.split(|b| *b == b'/').any(|s| is_dots(s))
}

pub fn has_nul(path: &[u8]) -> bool
    ensures { result ≡ list_any (λ b. b == 0) path.now }
{
    path.iter().any(|b| *b == 0)
}

/// The first fault of a text as a path.
pub fn fault_of(text: &str) -> Option<PathFault>
    ensures { result ≡ path_fault text.now }
{
    let bytes = text.as_bytes();
    if bytes.is_empty() {
        Some(PathFault::Empty)
    } else if bytes.len() > MAX_PATH {
        Some(PathFault::TooLong)
    } else if has_empty_segment(bytes) {
        Some(PathFault::EmptySegment)
    } else if has_dot_segment(bytes) {
        Some(PathFault::DotSegment)
    } else if has_nul(bytes) {
        Some(PathFault::Nul)
    } else {
        None
    }
}

impl<'a> BagPath<'a> {
    /// The path that the text is, or the least fault of it.
    pub fn read(text: &'a str) -> Result<BagPath<'a>, PathFault>
        ensures good { IfOk result (λ path. (path ≡ text.now) × GoodPath path) }
        ensures answered { GoodPath text.now → result ≡ Ok text.now }
        ensures refused { IfErr result (λ fault. path_fault text.now ≡ Some fault) }
        ensures named { (fault : PathFault) →
            path_fault text.now ≡ Some fault → result ≡ Err fault }
    {
        match fault_of(text) {
            None => Ok(BagPath { text }),
            Some(fault) => Err(fault),
        }
    }

    /// The path's text.
    pub fn as_str(&self) -> &'a str
        ensures same { result.now ≡ self.now }
        ensures good { GoodPath self.now }
    {
        self.text
    }
}

/// The path that the bytes are, where they are a good one.
pub fn good_path(bytes: &[u8]) -> Option<&str>
    ensures { option_copied result ≡ (if is_good bytes.now then Some bytes.now else None) }
{
    let path = as_text(bytes)?;
    match fault_of(path) {
        None => Some(path),
        Some(_) => None,
    }
}
