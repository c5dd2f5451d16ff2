//! What the paths and sizes of files show, before a content is read.

ghost use Rattle.std.specs.Prelude.{◌≡◌, ◌<◌, ◌↔◌, IsTrue, IfOk, IfErr, map, option_copied};
ghost use Rattle.std.specs.List.{position_from, sum_by};
ghost use Rattle.bag_text.specs.BagList.{list_fault};
ghost use Rattle.bag_text.specs.TransferForm.{IsBag, max_form};
ghost use Rattle.bag_text.specs.TransferReading.{files_of};
ghost use Rattle.bag_folders.specs.Packing.{AllFilesOf, HasNoForm, listed_paths, path_at_fault};
ghost use Rattle.bag_folders.specs.Sizes.{IsFaultFound, emptied, is_too_long, with_long};

use crate::listed::Listed;
use crate::pack_fault::{PackFault, fault_offset, named_fault};
use bag_text::{BagSet, MAX_CONTENT, MAX_FORM, SetFault};
use std::alloc::{AllocError, Global};

/// The position of the first file whose content is too long for a bag.
fn first_too_long(files: &[Listed]) -> Option<usize>
    ensures { result ≡ position_from is_too_long 0 files.now }
{
    files.iter().position(|file| file.size > MAX_CONTENT as u64)
}

/// The files, without their contents.
fn without_contents<'a>(
    alloc: Global,
    files: &'a [Listed],
) -> Result<Vec<(&'a str, &'a [u8])>, AllocError>
    ensures { IfOk result (λ list. files_of list.items ≡ map emptied files.now) }
{
    let mut list: Vec<(&'a str, &'a [u8])> = Vec::with_capacity(alloc, files.len())?;
    for file in files {
        list.push((file.path.as_str(), &[]))?;
    }
    Ok(list)
}

/// The first fault of a list of files.
fn judge_list(alloc: Global, list: &[(&str, &[u8])]) -> Result<(), SetFault>
    ensures { IsFaultFound (list_fault (files_of list.now)) result }
{
    BagSet::of(alloc, list)?;
    Ok(())
}

/// The first fault of the paths, where none of the files is too long.
fn judge_paths(alloc: Global, files: &[Listed]) -> Result<(), SetFault>
    ensures { IsFaultFound (list_fault (map emptied files.now)) result }
{
    match without_contents(alloc, files) {
        Ok(list) => judge_list(alloc, list.as_slice()),
        Err(_) => Err(SetFault::Memory),
    }
}

/// The first fault of files, of which the one at this position is too long, and those before it have this
/// fault.
fn with_long(position: usize, earlier: Result<(), SetFault>) -> Result<(), SetFault>
    ensures { result ≡ with_long position earlier }
{
    match earlier {
        Ok(()) => Err(SetFault::BadEntry(position)),
        Err(SetFault::PathClash) => Err(SetFault::BadEntry(position)),
        Err(fault) => Err(fault),
    }
}

/// The first fault of the files, as far as paths and sizes show.
fn judge_files(alloc: Global, files: &[Listed]) -> Result<(), SetFault>
    ensures { AllFilesOf files.now (λ list. IsFaultFound (list_fault list) result) }
{
    match first_too_long(files) {
        Some(position) => with_long(position, judge_paths(alloc, &files[..position])),
        None => judge_paths(alloc, files),
    }
}

/// Whether the contents alone have more bytes than a form may have.
fn is_too_large(files: &[Listed]) -> bool
    ensures { IsTrue result ↔ max_form < sum_by (λ file. file.size) files.now }
{
    let mut total = 0;
    for file in files {
        if file.size > MAX_FORM - total {
            return true;
        }
        total += file.size;
    }
    false
}

/// The path of the file at fault, where the fault is one file's.
fn path_at_fault<'a>(files: &'a [Listed], fault: SetFault) -> Option<&'a str>
    ensures { option_copied result ≡ path_at_fault fault (listed_paths files.now) }
{
    let file = files.get(fault_offset(fault)?)?;
    Some(file.path.as_str())
}

/// Judges the files by their paths and sizes, in this order. The form may still be too long, where the
/// contents alone aren't.
pub fn judge(alloc: Global, files: &[Listed]) -> Result<(), PackFault>
    ensures bag { IfOk result (λ _. AllFilesOf files.now IsBag) }
    ensures refused { IfErr result (λ fault.
        AllFilesOf files.now (λ list. HasNoForm list fault)) }
{
    if let Err(fault) = judge_files(alloc, files) {
        return Err(named_fault(alloc, fault, path_at_fault(files, fault)));
    }
    if is_too_large(files) {
        return Err(PackFault::Size);
    }
    Ok(())
}
