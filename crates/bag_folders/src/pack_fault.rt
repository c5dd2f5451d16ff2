//! Why a folder isn't packed.

ghost use Rattle.std.specs.Prelude.{◌≡◌, IfOk, option_copied, option_map, string_bytes};
ghost use Rattle.bag_folders.specs.Packing.{IsNamedAs, pack_failed, fault_offset};

use crate::failed::{Failed, Trouble};
use crate::listed::Odd;
use bag_text::SetFault;
use std::alloc::{AllocError, Global};

/// Why a folder isn't packed.
#[derive(Debug, Drop, thiserror::Error)]
pub enum PackFault {
    /// The entry has no place in a form.
    #[error("NAME")]
    Name(Odd),
    /// The files, in the order of their paths, are no bag. The path is that of the file at fault, where
    /// the fault is one file's.
    #[error("{fault}")]
    Set {
        fault: SetFault,
        path: Option<String>,
    },
    /// The form has too many bytes.
    #[error("SIZE")]
    Size,
    /// A file, a folder or another device failed.
    #[error("{0}")]
    Device(Trouble),
    /// A growth was refused.
    #[error("memory")]
    Memory,
}

impl From<Failed> for PackFault {
    ghost from_gives = { λ failed packed. packed ≡ pack_failed failed };

    fn from(failed: Failed) -> PackFault {
        match failed {
            Failed::Device(trouble) => PackFault::Device(trouble),
            Failed::Memory => PackFault::Memory,
        }
    }
}

/// The offset of the file at fault, where the fault is one file's.
pub fn fault_offset(fault: SetFault) -> Option<usize>
    ensures { result ≡ fault_offset fault }
{
    match fault {
        SetFault::BadEntry(position)
        | SetFault::OutOfOrder(position)
        | SetFault::BadPath(position) => { Some(position) }
        _ => None,
    }
}

/// The path as a text of its own.
fn own_path(alloc: Global, path: Option<&str>) -> Result<Option<String>, AllocError>
    ensures { IfOk result (λ own. option_map string_bytes own ≡ option_copied path.entry) }
{
    match path {
        Some(path) => Ok(Some(String::from_str(alloc, path)?)),
        None => Ok(None),
    }
}

/// The fault of files, with the path of the file at fault, where there is one.
pub fn named_fault(alloc: Global, fault: SetFault, path: Option<&str>) -> PackFault
    ensures { IsNamedAs fault (option_copied path.entry) result }
{
    if fault == SetFault::Memory {
        return PackFault::Memory;
    }
    match own_path(alloc, path) {
        Ok(path) => PackFault::Set { fault, path },
        Err(_) => PackFault::Memory,
    }
}
