//! Listing what is under a folder.

ghost use Rattle.std.specs.Prelude.{◌≡◌, ◌++◌, [], List, Some, IfErr, IfOk, OnOk, string_bytes};
ghost use Rattle.std.specs.List.{cons_option};
ghost use Rattle.std.specs.Option.{option_or};
ghost use Rattle.bag_folders.specs.Listing.{AreListed, AreListedAt, CanFail, IsFoundIn, file_listed, odd_in};
ghost use Rattle.bag_folders.specs.Packing.{IsFoundUnder};
ghost use Rattle.bag_folders.specs.declared.listed.Entry.{Entry};

use crate::failed::Failed;
use crate::folders::Folders;
use crate::listed::{Entry, Found, Kind, Listed, Odd};
use std::alloc::{AllocError, Global};

/// The entries that an entry leads to: those of a folder.
fn entries_at<F: Folders>(alloc: Global, folders: &F, entry: &Entry) -> Result<Vec<Entry>, Failed>
    ensures listed { IfOk result (λ entries.
        AreListedAt (F.lists folders.now)
        (string_bytes entry.now.path) entry.now.kind entries.items) }
    ensures failed { IfErr result (CanFail (F.fails folders.now)) }
{
    match entry.kind {
        Kind::Folder => folders.list(entry.path.as_str()),
        Kind::File(_) | Kind::Odd(_) => Ok(Vec::new(alloc)),
    }
}

/// All entries under the first folder: its own, and those of each folder among them.
fn all_entries<F: Folders>(alloc: Global, folders: &F) -> Result<Vec<Entry>, Failed>
    ensures listed { IfOk result (λ entries. AreListed (F.lists folders.now) entries.items) }
    ensures failed { IfErr result (CanFail (F.fails folders.now)) }
{
    let mut entries = folders.list("")?;
    for next in 0..usize::MAX {
        if next >= entries.len() {
            return Ok(entries);
        }
        let mut more = entries_at(alloc, folders, &entries[next])?;
        entries.append(&mut more)?;
    }
    Ok(entries)
}

/// Keeps the first entry.
fn note_first(odd: &mut Option<Odd>, entry: Odd)
    ensures { odd.new ≡ option_or odd.old (Some entry) }
{
    if odd.is_none() {
        *odd = Some(entry);
    }
}

/// Takes up an entry: a file, or the first that has no place in a form.
fn take_up(found: &mut Found, entry: Entry) -> Result<(), AllocError>
    ensures files { OnOk result
        (found.new.files.items ≡ found.old.files.items ++ cons_option (file_listed entry) []) }
    ensures odd { OnOk result (found.new.odd ≡ option_or found.old.odd (odd_in entry)) }
{
    let Entry { path, kind } = entry;
    match kind {
        Kind::File(size) => {
            found.files.push(Listed { path, size })?;
            Ok(())
        }
        Kind::Folder => Ok(()),
        Kind::Odd(cause) => {
            note_first(&mut found.odd, Odd { path, cause });
            Ok(())
        }
    }
}

/// What is found in entries: the files, and the first entry that has no place in a form.
fn found_in(alloc: Global, entries: Vec<Entry>) -> Result<Found, AllocError>
    ensures { IfOk result (IsFoundIn entries.items) }
{
    let mut found = Found {
        files: Vec::new(alloc),
        odd: None,
    };
    for entry in entries {
        take_up(&mut found, entry)?;
    }
    Ok(found)
}

/// What is found under the first of the folders, its subfolders included.
pub fn found_under<F: Folders>(alloc: Global, folders: &F) -> Result<Found, Failed>
    // It is all that is listed there and in each folder below it.
    ensures found { IfOk result (IsFoundUnder (F.lists folders.now)) }
    // Where one of them can't be listed, nothing is found.
    ensures failed { IfErr result (CanFail (F.fails folders.now)) }
{
    let entries = all_entries(alloc, folders)?;
    Ok(found_in(alloc, entries)?)
}
