//! What `bag-info.txt` says, and why one is refused.

ghost use Rattle.std.specs.Prelude.{◌≡◌};
ghost use Rattle.bag_text.specs.declared.bag_info.InfoFault.TheVariants.{Memory};

use std::alloc::{AllocError, Global};
use std::borrow::CowStr;

/// What `bag-info.txt` says: its labels and values, in order. A label is a slice of the text, and so is a value
/// that no line continues; another is owned, its lines joined by one LF.
#[derive(Debug, Drop)]
pub struct BagInfo<'a> {
    /// Each label with its value, in the order of the text.
    pub pairs: Vec<(&'a str, CowStr<'a, Global>)>,
}

/// Why a text is no `bag-info.txt`. A line's number counts from 1.
#[derive(Clone, Copy, Debug, PartialEq, Eq)]
pub enum InfoFault {
    /// I1: the text isn't UTF-8.
    NotUtf8,
    /// I2: the text begins with a byte order mark.
    ByteOrderMark,
    /// I3: a line has no colon.
    NoColon(usize),
    /// I4: a line's label is empty.
    EmptyLabel(usize),
    /// I5: a line continues a value, and no label comes before it.
    StrayContinuation(usize),
    /// I6: a growth was refused.
    Memory,
}

impl From<AllocError> for InfoFault {
    ghost from_gives = { λ _ e. e ≡ Memory };

    fn from(_e: AllocError) -> InfoFault {
        InfoFault::Memory
    }
}
