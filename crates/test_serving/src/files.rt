//! Offices in files that are opened and left.

use sqlite::{Connection, FileStore, Files, Options};
use sqlite_disk::Disk;
use std::alloc::Global;
use test_sessions::{Disks, has_stopped};

/// Whether one of the files has stopped.
pub(crate) fn have_stopped(files: &mut Disks) -> bool {
    has_stopped(&mut files.log) || has_stopped(&mut files.db)
}

/// Opens the files. Hands them back where they can't be opened.
pub(crate) fn open<D: Disk + Drop>(
    alloc: Global,
    files: Files<D>,
    options: Options,
) -> Result<Connection<FileStore<D>>, Files<D>> {
    if !files.may_be_used() {
        return Err(files);
    }
    match Connection::open_files(alloc, files, options) {
        Ok(conn) => Ok(conn),
        Err((_, left)) => Err(left.into_files()),
    }
}

/// The files as they are left, closed first if that is asked for.
pub(crate) fn leave<D: Disk + Drop>(conn: Connection<FileStore<D>>, closes: bool) -> Files<D> {
    if !closes {
        return conn.into_store().close();
    }
    match conn.close_files() {
        Ok(files) => files,
        Err((_, store)) => store.close(),
    }
}
