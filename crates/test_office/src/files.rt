//! A part of a session over files that are opened and closed, under a store with small caches.

use crate::offices::Way;
use crate::parts::{Part, take_part};
use sqlite::{Connection, FileStore, Files};
use sqlite_disk::Disk;
use std::alloc::Global;
use test_sessions::SMALL_CACHES;

/// What is told of files that can't be closed.
pub(crate) const NOT_CLOSED: &str = "not closed";

/// Says that the files are not opened, or not closed.
fn says(alloc: Global, told: &str) -> Option<String> {
    String::from_str(alloc, told).ok()
}

/// Closes the files, which are handed back: as they are left, where they can't be closed, which is told.
fn close_files<D: Disk + Drop>(
    alloc: Global,
    conn: Connection<FileStore<D>>,
) -> (Option<String>, Files<D>) {
    match conn.close_files() {
        Ok(files) => (says(alloc, ""), files),
        Err((_, store)) => (says(alloc, NOT_CLOSED), store.close()),
    }
}

/// Opens the files with small caches, takes the part and closes the files, which are handed back, with
/// what is answered otherwise, or no text. After another answer the log isn't copied into the database file.
pub(crate) fn take_once<D: Disk + Drop>(
    alloc: Global,
    files: Files<D>,
    way: Way,
    part: Part,
) -> (Option<String>, Files<D>) {
    if !files.may_be_used() {
        return (says(alloc, "not opened"), files);
    }
    match Connection::open_files(alloc, files, SMALL_CACHES) {
        Err((_, left)) => (says(alloc, "not opened"), left.into_files()),
        Ok(conn) => {
            let (differs, conn) = take_part(alloc, conn, way, part);
            match differs {
                Some(text) if text.is_empty() => close_files(alloc, conn),
                differs => (differs, conn.into_store().close()),
            }
        }
    }
}
