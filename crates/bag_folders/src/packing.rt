//! A folder becomes a form.

ghost use Rattle.std.specs.Prelude.{◌≡◌, IfOk, IfErr};
ghost use Rattle.bag_folders.specs.Listing.{AreToldOfSome};
ghost use Rattle.bag_folders.specs.Packing.{is_any_declared, IsFoundUnder, IsPacked, IsPackedOf, IsRefusedUnder, MayBeRefused};
ghost use Rattle.bag_folders.specs.declared.listed.Found.{Found};

use crate::folders::{Folders, FoldersUnder};
use crate::form::form_of;
use crate::listed::Listed;
use crate::listing::found_under;
use crate::pack_fault::PackFault;
use crate::planning::plan;
use crate::putting::put;
use std::alloc::Global;
use std::fs::ReadDir;
use std::rt::Files;

/// What was packed.
#[derive(Clone, Copy, Debug, PartialEq, Eq)]
pub struct Packed {
    /// How many files.
    pub files: usize,
    /// How many bytes the form has.
    pub bytes: usize,
    /// Whether a `bagit.txt` is among them, without which no bag is.
    pub is_declared: bool,
}

/// Whether a bag's declaration is among the files that are listed.
fn is_declared(files: &[Listed]) -> bool
    ensures { result ≡ is_any_declared files.now }
{
    files.iter().any(|file| file.path.as_str() == "bagit.txt")
}

/// Writes the transfer form of all files that are listed in the folders to the file. The form is made of
/// what was found before the file is made. The files are read under the folder of this path.
fn pack_listed<R: Files + AllocGlobal, F: Folders>(
    rt: &R,
    folders: &F,
    folder: &str,
    file: &str,
) -> Result<Packed, PackFault>
    // What is packed is all that is listed.
    ensures packed { IfOk result (λ packed. (found : Found)
        × IsFoundUnder (F.lists folders.now) found × IsPackedOf found packed) }
    // What is refused is so for what is listed, or for what was read of it.
    ensures refused { IfErr result (IsRefusedUnder (F.lists folders.now)) }
{
    let found = found_under(rt.alloc(), folders)?;
    let files = plan(rt.alloc(), found)?;
    let form = form_of(rt, folder, files.as_slice())?;
    put(rt, file, form.as_slice())?;
    Ok(Packed {
        files: files.len(),
        bytes: form.len(),
        is_declared: is_declared(files.as_slice()),
    })
}

/// Writes the transfer form of all files under the folder to the file. The form is made of what was
/// found before the file is made.
pub fn pack<'a, R: Files + AllocGlobal>(
    rt: &'a R,
    folder: &'a str,
    file: &str,
) -> Result<Packed, PackFault>
    // What is packed is the form of some list of files, with these numbers of files and bytes, and it is said whether
    // a declaration is among them.
    ensures packed { IfOk result IsPacked }
    // It has all that the system lists under the folder.
    ensures listed { IfOk result (λ packed. (found : Found)
        × IsFoundUnder (AreToldOfSome ⟦<ReadDir<&'a R, Global> as Iterator>⟧.next_gives) found
        × IsPackedOf found packed) }
    // What is refused is so for files that have the fault that is named.
    ensures refused { IfErr result MayBeRefused }
{
    let folders = FoldersUnder { rt, root: folder };
    pack_listed(rt, &folders, folder, file)
}
