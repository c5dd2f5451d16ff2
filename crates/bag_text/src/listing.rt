//! What a manifest lists, and why one is refused.

ghost use Rattle.std.specs.Prelude.{◌≡◌};
ghost use Rattle.bag_text.specs.declared.listing.LineFault.TheVariants.{Memory};

use crate::checksum::Checksum;
use std::alloc::{AllocFailed, Global};
use std::borrow::CowStr;
use std::collections::BTreeMap;

/// What a manifest says of a path: its checksum, and on which line, counted from 1 with the blank ones.
#[derive(Clone, Copy, Debug, PartialEq, Eq)]
pub struct Listing {
    /// The checksum that the line spells.
    pub checksum: Checksum,
    /// The line's number, from 1.
    pub line: usize,
}

/// What a manifest lists, ascending by path. A path is borrowed from the manifest's text where nothing was
/// decoded for it.
#[derive(Debug, Drop)]
pub struct Manifest<'a> {
    /// Each path that a line lists, with what is said of it.
    pub entries: BTreeMap<CowStr<'a, Global>, Listing>,
}

/// Why a manifest is refused: the first fault of its text. A fault with a number is of the line of that number,
/// the first that is at fault; lines are counted from 1, those of blanks too.
#[derive(Clone, Copy, Debug, PartialEq, Eq)]
pub enum LineFault {
    /// L1: the text is not UTF-8.
    NotUtf8,
    /// L2: the text begins with a byte order mark.
    ByteOrderMark,
    /// L3: what comes before the first blank is not the right number of hex digits.
    BadChecksum(usize),
    /// L4: no path follows the blanks.
    NoPath(usize),
    /// L5: the spelled path begins with `*`, or the path is no good one.
    BadPath(usize),
    /// L6: a line before lists the path too.
    ListedTwice(usize),
    /// L7: memory ran out.
    Memory,
}

impl<T: Drop> From<AllocFailed<T>> for LineFault {
    ghost from_gives = { λ _ e. e ≡ Memory };

    fn from(_e: AllocFailed<T>) -> LineFault {
        LineFault::Memory
    }
}
