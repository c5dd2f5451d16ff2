//! Reading a form that is to be unpacked.

ghost use Rattle.std.specs.Prelude.{◌≡◌, IfOk, IfErr, IfSome};
ghost use Rattle.bag_text.specs.TransferForm.{IsFormOf};
ghost use Rattle.bag_folders.specs.Unpacking.{IsUnreadable, judged_part};

use crate::unpack_fault::{UnpackFault, unreadable};
use bag_text::{BagSet, MAX_FORM, read_bagset};
use std::alloc::Global;
use std::io;
use std::io::Read;
use streams::read_at_most;

/// Reads a form to its end, or one byte past the most that a form has, by which a longer one is recognized.
pub fn read_form<R: Read>(alloc: Global, form: &mut R) -> io::Result<Vec<u8>>
    ensures { IfOk result (λ text. IfSome (R.remaining form.old)
        (λ given. text.items ≡ judged_part given)) }
{
    read_at_most(alloc, MAX_FORM + 1, form)
}

/// The bag whose form the text is, or why the text isn't unpacked.
pub fn bag_of<'a>(alloc: Global, text: &'a [u8]) -> Result<BagSet<'a>, UnpackFault>
    // What is read is the bag whose form the text is.
    ensures bag { IfOk result (λ bag. IsFormOf bag text.now) }
    // A text that is refused has the fault that is named.
    ensures refused { IfErr result (IsUnreadable text.now) }
{
    if text.len() as u64 > MAX_FORM {
        return Err(UnpackFault::Size);
    }
    match read_bagset(alloc, text) {
        Ok(bag) => Ok(bag),
        Err(fault) => Err(unreadable(fault, text)),
    }
}
