//! Why a form isn't unpacked.

ghost use Rattle.std.specs.Prelude.{◌≡◌};
ghost use Rattle.fault_words.specs.OtherFiles.{hint_for};
ghost use Rattle.bag_folders.specs.Unpacking.{unpack_fault_of, unpack_failed};

use crate::failed::{Failed, Trouble};
use bag_text::SetFault;
use fault_words::{OtherFile, hint_for};

/// Why a form isn't unpacked.
#[derive(Debug, Drop, thiserror::Error)]
pub enum UnpackFault {
    /// The text is the form of no bag. It may look like another file.
    #[error("{fault}")]
    Set {
        fault: SetFault,
        other: Option<OtherFile>,
    },
    /// The text has too many bytes.
    #[error("SIZE")]
    Size,
    /// Something is already where the folder is to be made.
    #[error("exists")]
    Exists,
    /// A file, a folder or another device failed.
    #[error("{0}")]
    Device(Trouble),
    /// A growth was refused.
    #[error("memory")]
    Memory,
}

/// The fault of a text that is no form, and what the text looks like.
pub fn unreadable(fault: SetFault, text: &[u8]) -> UnpackFault
    ensures { result ≡ unpack_fault_of fault (hint_for fault text.now) }
{
    match fault {
        SetFault::Memory => UnpackFault::Memory,
        fault => UnpackFault::Set {
            fault,
            other: hint_for(fault, text),
        },
    }
}

impl From<Failed> for UnpackFault {
    ghost from_gives = { λ failed unpacked. unpacked ≡ unpack_failed failed };

    fn from(failed: Failed) -> UnpackFault {
        match failed {
            Failed::Device(trouble) => UnpackFault::Device(trouble),
            Failed::Memory => UnpackFault::Memory,
        }
    }
}
