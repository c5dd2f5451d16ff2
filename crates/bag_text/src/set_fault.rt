//! Why a text, or a list of files, is no bag.

ghost use Rattle.std.specs.Prelude.{◌≡◌};
ghost use Rattle.bag_text.specs.declared.set_fault.SetFault.TheVariants.{Memory};

use std::alloc::AllocFailed;

/// Why a text is no transfer form of a bag. An offset is that of the entry at fault, in bytes from 0;
/// for a list of files it is the position in the list, from 0.
#[derive(Clone, Copy, Debug, PartialEq, Eq)]
pub enum SetFault {
    /// S1: the text doesn't begin with `BAGSET 1` and LF.
    BadOpening,
    /// S2: here is neither the end nor a header, or the byte after a content isn't LF.
    BadEntry(usize),
    /// S3: the text ends too soon.
    Truncated,
    /// S4: the path isn't greater than the one before it.
    OutOfOrder(usize),
    /// S5: the path isn't good.
    BadPath(usize),
    /// S6: a header after the 2,000th file.
    TooManyFiles,
    /// S7: bytes after the end.
    TrailingBytes,
    /// S8: a path is `data`, or begins another as a folder does.
    PathClash,
    /// S9: a growth was refused.
    Memory,
}

impl<T: Drop> From<AllocFailed<T>> for SetFault {
    ghost from_gives = { λ _ e. e ≡ Memory };

    fn from(_e: AllocFailed<T>) -> SetFault {
        SetFault::Memory
    }
}
