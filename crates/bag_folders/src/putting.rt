//! Writing a file whole, or not at all.

ghost use Rattle.std.specs.Prelude.{OnOk};
ghost use Rattle.std.specs.Io.KnownBytes.{Appends};
ghost use Rattle.streams.specs.Writing.{IsCutShort};

use crate::failed::{Failed, Tried, failed_at};
use std::alloc::{AllocError, Global};
use std::fs::{OpenFile, OpenOptions};
use std::io::{ErrorKind, Write};
use std::rt::Files;
use std::{fs, io};
use streams::write_bytes;

/// The most names that are tried for the file that is written first.
const MOST_NAMES: u32 = 100;

/// The name of a file beside this one, in the same folder, or this name itself.
fn name_beside(alloc: Global, file: &str, number: u32) -> Result<String, AllocError> {
    match file.rsplit_once('/') {
        Some((folder, _)) => format!(in alloc; "{folder}/.depot-pack-{number}"),
        None => format!(in alloc; ".depot-pack-{number}"),
    }
}

/// Refuses a name that something has that is no file: a folder, a link, a device.
fn check_destination<R: Files + AllocGlobal>(rt: &R, file: &str) -> Result<(), Failed> {
    match fs::symlink_metadata(rt, file) {
        Ok(metadata) => {
            if metadata.is_file() {
                return Ok(());
            }
            let error = io::Error::other("what is there is no file");
            Err(failed_at(rt.alloc(), Tried::Write, file, error))
        }
        Err(error) => {
            if error.kind() == ErrorKind::NotFound {
                return Ok(());
            }
            Err(failed_at(rt.alloc(), Tried::Look, file, error))
        }
    }
}

/// Writes all of the bytes, as far as the device.
fn write_to_device<F: Write + OpenFile>(file: &mut F, bytes: &[u8]) -> io::Result<()>
    // What was written is the bytes, and nothing else.
    ensures whole { OnOk result (Appends (F.contents file.old) (F.contents file.new) bytes.now) }
    // Whatever comes of it, a beginning of them was.
    ensures written { IsCutShort bytes.now (F.contents file.old) (F.contents file.new) }
{
    write_bytes(bytes, file)?;
    file.sync_all()
}

/// Writes the bytes to the file beside, and gives it the name that it is to have. Where either fails,
/// the file beside is removed.
fn write_and_rename<R: Files + AllocGlobal>(
    rt: &R,
    opened: R::File,
    beside: &str,
    file: &str,
    bytes: &[u8],
) -> Result<(), Failed> {
    let mut opened = opened;
    if let Err(error) = write_to_device(&mut opened, bytes) {
        let _ = fs::remove_file(rt, beside);
        return Err(failed_at(rt.alloc(), Tried::Write, file, error));
    }
    if let Err(error) = fs::rename(rt, beside, file) {
        let _ = fs::remove_file(rt, beside);
        return Err(failed_at(rt.alloc(), Tried::Rename, file, error));
    }
    Ok(())
}

/// Writes a file whole, or leaves what has its name as it was.
pub(crate) fn put<R: Files + AllocGlobal>(rt: &R, file: &str, bytes: &[u8]) -> Result<(), Failed> {
    check_destination(rt, file)?;
    for number in 0..MOST_NAMES {
        let beside = name_beside(rt.alloc(), file, number)?;
        if beside.as_str() == file {
            continue;
        }
        let opened = OpenOptions::new()
            .write(true)
            .create_new(true)
            .open(rt, beside.as_str());
        match opened {
            Ok(opened) => return write_and_rename(rt, opened, beside.as_str(), file, bytes),
            Err(error) => {
                if error.kind() != ErrorKind::AlreadyExists {
                    return Err(failed_at(rt.alloc(), Tried::Make, file, error));
                }
            }
        }
    }
    let error = io::Error::other("every name beside it is taken");
    Err(failed_at(rt.alloc(), Tried::Make, file, error))
}
