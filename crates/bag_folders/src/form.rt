//! The form of files that are listed.

ghost use Rattle.std.specs.Prelude.{◌≡◌, ◌++◌, IfOk, IfErr, List, OnOk};
ghost use Rattle.std.specs.List.{flat_map};
ghost use Rattle.bag_text.specs.TransferForm.{File, IsBag, IsFormOf, entry, set_text};
ghost use Rattle.bag_folders.specs.Loading.{AppendsEntry};
ghost use Rattle.bag_folders.specs.Packing.{AllFilesOf, AreFilesOf, HasNoFormOf};

use crate::failed::Failed;
use crate::folders::path_under;
use crate::listed::Listed;
use crate::loading::append_file;
use crate::pack_fault::PackFault;
use bag_text::MAX_FORM;
use std::alloc::AllocError;
use std::rt::Files;

/// The bytes of the opening and the end.
const FRAME_LEN: u64 = 13;

/// The most bytes of an entry beside its path and its content.
const MOST_HEADER_LEN: u64 = 20;

/// Room for the whole form of the files, so that it is taken once. A form that is too long is refused, and
/// may be moved before.
fn room(files: &[Listed]) -> usize {
    let mut room = FRAME_LEN;
    for file in files {
        room = room.saturating_add(file.path.len() as u64);
        room = room.saturating_add(file.size);
        room = room.saturating_add(MOST_HEADER_LEN);
    }
    room.min(MAX_FORM) as usize
}

/// Appends the entry of a file that is listed. Its content is read into the form itself.
fn append_entry<R: Files + AllocGlobal>(
    rt: &R,
    folder: &str,
    file: &Listed,
    form: &mut Vec<u8>,
) -> Result<(), Failed>
    ensures { OnOk result (AppendsEntry file.now form.old.items form.new.items) }
{
    let path = file.path.as_str();
    let header = format!(in rt.alloc(); "FILE {} {}\n", path.len(), file.size)?;
    form.extend_from_slice(header.as_bytes())?;
    form.extend_from_slice(path.as_bytes())?;
    let whole = path_under(rt.alloc(), folder, path)?;
    append_file(rt, whole.as_str(), file.size, form)?;
    form.extend_from_slice(b"\n")?;
    Ok(())
}

/// Appends the entries of files that are listed.
fn append_entries<R: Files + AllocGlobal>(
    rt: &R,
    folder: &str,
    files: &[Listed],
    form: &mut Vec<u8>,
) -> Result<(), Failed>
    ensures { OnOk result ((list : List File) × AreFilesOf files.now list
        × (form.new.items ≡ form.old.items ++ flat_map entry list)) }
{
    for file in files {
        append_entry(rt, folder, file, form)?;
    }
    Ok(())
}

/// The text that the files become, however long it is.
fn text_of<R: Files + AllocGlobal>(
    rt: &R,
    folder: &str,
    files: &[Listed],
) -> Result<Vec<u8>, Failed>
    ensures { IfOk result (λ text. (list : List File) × AreFilesOf files.now list
        × (text.items ≡ set_text list)) }
{
    let mut text = Vec::with_capacity(rt.alloc(), room(files))?;
    text.extend_from_slice(b"BAGSET 1\n")?;
    append_entries(rt, folder, files, &mut text)?;
    text.extend_from_slice(b"END\n")?;
    Ok(text)
}

/// The transfer form of files that are listed under this folder, in this order, or why there is none: a
/// device failed, or the form is too long.
pub fn form_of<R: Files + AllocGlobal>(
    rt: &R,
    folder: &str,
    files: &[Listed],
) -> Result<Vec<u8>, PackFault>
    // What is made is the form of such files, where they are a bag.
    ensures form { AllFilesOf files.now IsBag → IfOk result (λ form. (list : List File)
        × AreFilesOf files.now list × IsFormOf list form.items) }
    // What is refused has the fault that is named.
    ensures refused { AllFilesOf files.now IsBag → IfErr result (HasNoFormOf files.now) }
{
    let form = text_of(rt, folder, files)?;
    if form.len() as u64 > MAX_FORM {
        return Err(PackFault::Size);
    }
    Ok(form)
}
