//! A form becomes a folder.

ghost use Rattle.std.specs.Prelude.{◌≡◌, IfErr, IfOk, IfSome};
ghost use Rattle.bag_folders.specs.Unpacking.{IsOfForm, IsUnpacked, IsUnpackedFrom, IsUnpackedFromFile, MayBeUnreadable, judged_part};

use crate::failed::{Tried, failed_at};
use crate::making::{Maker, NewFolder, make_bag};
use crate::reading::{bag_of, read_form};
use crate::unpack_fault::UnpackFault;
use std::alloc::Global;
use std::fs;
use std::io::Read;
use std::rt::Files;

/// What was unpacked.
#[derive(Clone, Copy, Debug, PartialEq, Eq)]
pub struct Unpacked {
    /// How many files.
    pub files: usize,
}

/// Makes the folder, and in it the files of the bag whose transfer form the reader gives. The reader is
/// of the file of this name.
pub fn unpack_from<F: Read, M: Maker>(
    alloc: Global,
    form: &mut F,
    file: &str,
    maker: &mut M,
) -> Result<Unpacked, UnpackFault>
    // Where it is known what the reader gives, that is judged: all of it, or one byte past the most that
    // a form has.
    ensures judged { IfSome (F.remaining form.old) (λ given.
        IsUnpackedFrom (judged_part given) result) }
    ensures unpacked { IfOk result IsUnpacked }
    ensures refused { IfErr result MayBeUnreadable }
    // Of a form that is refused nothing is made.
    ensures unmade { IfErr result (λ fault. IsOfForm fault → maker.new ≡ maker.old) }
{
    let text = match read_form(alloc, form) {
        Ok(text) => text,
        Err(error) => return Err(failed_at(alloc, Tried::Form, file, error).into()),
    };
    make_bag(alloc, maker, bag_of(alloc, text.as_slice()))
}

/// Makes the folder, and in it the files of the bag whose transfer form the file is. After a failure
/// files that were made may be left.
pub fn unpack<R: Files + AllocGlobal>(
    rt: &R,
    file: &str,
    folder: &str,
) -> Result<Unpacked, UnpackFault>
    // What is unpacked is some bag, with this number of files.
    ensures unpacked { IfOk result IsUnpacked }
    // What is refused is so for a text that has the fault that is named.
    ensures refused { IfErr result MayBeUnreadable }
    // What is judged is what a file gives, where it is known what that is.
    ensures judged { IsUnpackedFromFile ⟦<R::File as Read>⟧ result }
{
    let mut maker = NewFolder { rt, folder };
    match fs::open(rt, file) {
        Ok(mut form) => unpack_from(rt.alloc(), &mut form, file, &mut maker),
        Err(error) => Err(failed_at(rt.alloc(), Tried::Form, file, error).into()),
    }
}
