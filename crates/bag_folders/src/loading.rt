//! Reading the files that are to be packed.

ghost use Rattle.std.specs.Prelude.{◌≡◌, ◌<◌, ◌-◌, ◌^◌, ◌++◌, IfSome, OnOk};
ghost use Rattle.bag_folders.specs.Loading.{AppendsSome};

use crate::failed::{Failed, Tried, failed_at};
use std::alloc::Global;
use std::io::Read;
use std::rt::Files;
use std::{fs, io};

/// Appends the bytes of a file that has this size, read to where they belong. A file that has another
/// size by now was changed while it was packed.
fn append_content<F: Read>(
    alloc: Global,
    path: &str,
    size: u64,
    file: &mut F,
    form: &mut Vec<u8>,
) -> Result<(), Failed>
    ensures size { OnOk result (AppendsSome size form.old.items form.new.items) }
    // They are all that the file gives.
    ensures given { size < 2 ^ 64 - 1 → OnOk result (IfSome (F.remaining file.old)
        (λ given. form.new.items ≡ form.old.items ++ given)) }
{
    // By one byte more a file is recognized that has grown.
    match file.take(size.saturating_add(1)).read_to_end(form) {
        Ok(count) => {
            if count as u64 != size {
                let error = io::Error::other("it changed while it was packed");
                return Err(failed_at(alloc, Tried::Read, path, error));
            }
            Ok(())
        }
        Err(error) => Err(failed_at(alloc, Tried::Read, path, error)),
    }
}

/// Appends the bytes of the file of this path, which has this size.
pub fn append_file<R: Files + AllocGlobal>(
    rt: &R,
    path: &str,
    size: u64,
    form: &mut Vec<u8>,
) -> Result<(), Failed>
    ensures { OnOk result (AppendsSome size form.old.items form.new.items) }
{
    match fs::open(rt, path) {
        Ok(mut file) => append_content(rt.alloc(), path, size, &mut file, form),
        Err(error) => Err(failed_at(rt.alloc(), Tried::Read, path, error)),
    }
}
