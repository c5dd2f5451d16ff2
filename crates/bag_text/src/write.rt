//! Writing the transfer form of a bag.

ghost use Rattle.std.specs.Prelude.{◌≡◌, ◌++◌, List, ℕ, Ok, IfOk, OnOk};
ghost use Rattle.std.specs.List.{flat_map};
ghost use Rattle.bag_text.specs.TransferForm.{opening, ending, entry, set_text};
ghost use Rattle.bag_text.specs.TransferReading.{files_of, set_of};

use crate::set::BagSet;
use std::alloc::{AllocError, Global};

/// The bytes of the opening and the end.
const FRAME_LEN: usize = 13;

/// The most bytes of an entry beside its path and its content.
const MOST_HEADER_LEN: usize = 20;

/// Room for the whole form of a bag, so that it is taken once.
fn room(files: &[(&str, &[u8])]) -> usize {
    let mut room = FRAME_LEN;
    for file in files {
        room = room.saturating_add(file.0.len());
        room = room.saturating_add(file.1.len());
        room = room.saturating_add(MOST_HEADER_LEN);
    }
    room
}

/// Appends the entry of a file.
fn write_entry(
    alloc: Global,
    text: &mut Vec<u8>,
    path: &str,
    content: &[u8],
) -> Result<(), AllocError>
    ensures { OnOk result
        (text.new.items
        ≡ text.old.items ++ entry (record { path = path.now; content = content.now })) }
{
    let header = format!(in alloc; "FILE {} {}\n", path.len(), content.len())?;
    text.extend_from_slice(header.as_bytes())?;
    text.extend_from_slice(path.as_bytes())?;
    text.extend_from_slice(content)?;
    text.push(b'\n')?;
    Ok(())
}

/// Appends the entries of files.
fn write_entries(
    alloc: Global,
    text: &mut Vec<u8>,
    files: &[(&str, &[u8])],
) -> Result<(), AllocError>
    ensures { OnOk result (text.new.items ≡ text.old.items ++ flat_map entry (files_of files.now)) }
{
    for file in files {
        write_entry(alloc, text, file.0, file.1)?;
    }
    Ok(())
}

/// The transfer form of a list of files.
fn write_files(alloc: Global, files: &[(&str, &[u8])]) -> Result<Vec<u8>, AllocError>
    ensures { IfOk result (λ text. text.items ≡ set_text (files_of files.now)) }
{
    let mut text = Vec::with_capacity(alloc, room(files))?;
    text.extend_from_slice(b"BAGSET 1\n")?;
    write_entries(alloc, &mut text, files)?;
    text.extend_from_slice(b"END\n")?;
    Ok(text)
}

/// The transfer form of a bag.
pub fn write_bagset(alloc: Global, bag: &BagSet<'_>) -> Result<Vec<u8>, AllocError>
    // What is written is the transfer form of the bag.
    ensures form { IfOk result (λ text. text.items ≡ set_text bag.now) }
    // Reading what was written gives the bag.
    ensures read { IfOk result (λ text. set_of text.items ≡ Ok bag.now) }
    // Writing what was read gives the bytes: where a text is read as this bag, that text is written.
    ensures written { (text : List ℕ) → set_of text ≡ Ok bag.now
        → IfOk result (λ written. written.items ≡ text) }
{
    write_files(alloc, bag.files())
}
