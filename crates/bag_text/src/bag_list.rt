//! Bags made of a list of files.

ghost use Rattle.std.specs.Prelude.{◌≡◌, []};
ghost use Rattle.bag_text.specs.Paths.{is_good};
ghost use Rattle.bag_text.specs.TransferReading.{files_of};
ghost use Rattle.bag_text.specs.BagList.{file_fault, fault_from, list_fault};
ghost use Rattle.bag_text.specs.ListReading.{Makes};

use crate::clash::do_clash;
use crate::order::is_before;
use crate::path::fault_of;
use crate::set_fault::SetFault;
use crate::transfer::{MAX_CONTENT, MAX_FILES};
use std::alloc::Global;

fn is_good(path: &str) -> bool
    ensures { result ≡ is_good path.now }
{
    fault_of(path).is_none()
}

/// The first fault of the file at this position of a list, after the path before it.
fn fault_at(position: usize, before: &[u8], path: &str, content: &[u8]) -> Option<SetFault>
    ensures { result
        ≡ file_fault position before.now (record { path = path.now; content = content.now }) }
{
    if content.len() > MAX_CONTENT {
        Some(SetFault::BadEntry(position))
    } else if position >= MAX_FILES {
        Some(SetFault::TooManyFiles)
    } else if !is_good(path) {
        Some(SetFault::BadPath(position))
    } else if !is_before(before, path.as_bytes()) {
        Some(SetFault::OutOfOrder(position))
    } else {
        None
    }
}

/// The first fault of a file of the list.
fn first_fault(files: &[(&str, &[u8])]) -> Option<SetFault>
    ensures { result ≡ fault_from 0 [] (files_of files.now) }
{
    let mut before: &[u8] = &[];
    let mut position = 0;
    for file in files {
        if let Some(fault) = fault_at(position, before, file.0, file.1) {
            return Some(fault);
        }
        before = file.0.as_bytes();
        position += 1;
    }
    None
}

/// The first fault of the list.
fn fault_in(files: &[(&str, &[u8])]) -> Option<SetFault>
    ensures { result ≡ list_fault (files_of files.now) }
{
    match first_fault(files) {
        Some(fault) => Some(fault),
        None => {
            if do_clash(files) {
                Some(SetFault::PathClash)
            } else {
                None
            }
        }
    }
}

/// A copy of the list, where it has no fault.
pub fn copy_list<'a>(
    alloc: Global,
    files: &[(&'a str, &'a [u8])],
) -> Result<Vec<(&'a str, &'a [u8])>, SetFault>
    ensures { Makes (λ v.
        files_of v.items) (files_of files.now) (list_fault (files_of files.now)) result }
{
    match fault_in(files) {
        Some(fault) => Err(fault),
        None => match Vec::from_slice(alloc, files) {
            Ok(copy) => Ok(copy),
            Err(_) => Err(SetFault::Memory),
        },
    }
}
