//! What is to be packed.

ghost use Rattle.std.specs.Prelude.{◌≡◌, None, IfOk, IfErr};
ghost use Rattle.bag_text.specs.TransferForm.{IsBag};
ghost use Rattle.bag_folders.specs.Packing.{AllFilesOf, AreInPathOrder, IsUnpackable};

use crate::listed::{Found, Listed};
use crate::order::in_order;
use crate::pack_fault::PackFault;
use crate::sizes::judge;
use std::alloc::Global;

/// The files to be packed, in the order of their paths; or the first fault of what was found, as far as
/// paths and sizes show. An entry without a place in a form comes before any fault of the files.
pub fn plan(alloc: Global, found: Found) -> Result<Vec<Listed>, PackFault>
    // All entries are files, and these are they, in order.
    ensures order { IfOk result (λ files.
        (found.odd ≡ None) × AreInPathOrder found.files.items files.items) }
    // Whatever bytes they have, they are a bag.
    ensures bag { IfOk result (λ files. AllFilesOf files.items IsBag) }
    // What is refused has the fault that is named.
    ensures refused { IfErr result (IsUnpackable found) }
{
    let Found { files, odd } = found;
    match odd {
        Some(entry) => return Err(PackFault::Name(entry)),
        None => {}
    }
    let files = in_order(files);
    judge(alloc, files.as_slice())?;
    Ok(files)
}
