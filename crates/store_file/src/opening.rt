//! A file that is opened, or made.

ghost use Rattle.std.specs.Prelude.{◌≡◌, ◌⊎◌, Err, IfErr, IfOk, IfSome, IsErrAnd, IsTrue, None, codes, false, true};
ghost use Rattle.sqlite.specs.Files.{FailsToOpenFiles, IsBlankAs, IsCleanLeft, IsOpened, LeavesFiles, file_state};
ghost use Rattle.sqlite.specs.FileStore.{view};
ghost use Rattle.sqlite.specs.Held.{IsNew};
ghost use Rattle.sqlite.specs.Opening.{is_open_error};
ghost use Rattle.sqlite.specs.Start.{FindsIn};
ghost use Rattle.sqlite.specs.State.{HasCleanDisk};
ghost use Rattle.sqlite.specs.WalFiles.{image_at};
ghost use Rattle.sqlite_std_file.specs.File.{IsFresh, file_is_usable};

use crate::pages::pages_of;
use sqlite::{Connection, Error, ErrorCode, FileFrom, FileStore, Files, Leftover, Options, Start};
use sqlite_std_file::OpenError;
use std::hash::{BuildHasher, RandomState};
use std::io::ErrorKind;

const CANNOT_OPEN: Error = Error::SqliteFailure(ErrorCode::CannotOpen);

const NO_MEMORY: Error = Error::SqliteFailure(ErrorCode::OutOfMemory);

/// Opens the log and the database file at the path, or makes them.
fn open_pair<S: Start>(rt: &HostRuntime, path: &str, start: S) -> Result<Files<FileFrom<S>>, Error>
    ensures memory { path.now ≡ codes ":memory:"
        → result ≡ Err (Error.SqliteFailure ErrorCode.CannotOpen) }
    ensures named { IfErr result (λ e. IsTrue (is_open_error e)) }
    ensures usable { IfOk result (λ files.
        IsTrue (file_is_usable S.Start files.log) × IsTrue (file_is_usable S.Start files.db)) }
    ensures fresh { IfOk result (λ files. IsFresh true files.log × IsFresh false files.db) }
    ensures kind { IfErr result (λ e.
        (e ≡ Error.SqliteFailure ErrorCode.CannotOpen)
        ⊎ ((e ≡ Error.SqliteFailure ErrorCode.OutOfMemory)
        ⊎ (e ≡ Error.SqliteFailure ErrorCode.DatabaseBusy))) }
{
    if path == ":memory:" || path.starts_with("file:") {
        return Err(CANNOT_OPEN);
    }
    match sqlite_std_file::open(rt, path, start) {
        Ok(files) => Ok(files),
        Err(OpenError::OutOfMemory) => Err(NO_MEMORY),
        Err(OpenError::Busy) => Err(Error::SqliteFailure(ErrorCode::DatabaseBusy)),
        Err(OpenError::Io(error)) if error.kind() == ErrorKind::OutOfMemory => Err(NO_MEMORY),
        Err(_) => Err(CANNOT_OPEN),
    }
}

/// What a file is opened with, of which this number of pages is kept.
fn options(rt: &HostRuntime, cache_pages: usize) -> Result<Options, Error>
    ensures pages { IfOk result (λ options. options.cache_pages ≡ cache_pages) }
    ensures kind { IfErr result (λ e. e ≡ Error.SqliteFailure ErrorCode.CannotOpen) }
{
    let seed = RandomState::new(rt)
        .map_err(|_| CANNOT_OPEN)?
        .hash_one(&0u8);
    let mut options = Options::new(seed);
    options.cache_pages = cache_pages;
    Ok(options)
}

/// Opens the file of an office at a path of the host, or makes it: `open_from` of `sqlite`, and the pages
/// that are read stay in memory, up to 128 MiB of them, since a page that is read anew is tested against
/// its digest anew. It refuses `:memory:` and a URI. No clause ties the files to the path.
///
/// An error comes with what is left of the files, once they were opened.
pub fn open_file<S: Start>(
    rt: &HostRuntime,
    path: &str,
    start: S,
) -> Result<Connection<FileStore<FileFrom<S>>>, (Error, Option<Leftover<FileFrom<S>>>)>
    ensures memory { path.now ≡ codes ":memory:"
        → IsErrAnd result (λ e. e.0 ≡ Error.SqliteFailure ErrorCode.CannotOpen) }
    ensures named { IfErr result (λ e. IsTrue (is_open_error e.0)) }
    ensures opened { IfOk result (λ conn. HasCleanDisk (file_state conn) → IsOpened conn) }
    ensures found { IfOk result (λ conn.
        HasCleanDisk (file_state conn) → FindsIn (image_at S.Start) (file_state conn)) }
    ensures plain { IfOk result (λ conn.
        HasCleanDisk (file_state conn) → IsBlankAs false (image_at S.Start)
        → (view conn.store).has_sums ≡ false) }
    ensures fresh { IfOk result IsNew }
    ensures guarded { IfOk result (λ conn.
        HasCleanDisk (file_state conn) → (file_state conn).IsShielded) }
    ensures unopened { IfErr result (λ e.
        e.1 ≡ None
        → (e.0 ≡ Error.SqliteFailure ErrorCode.CannotOpen)
        ⊎ ((e.0 ≡ Error.SqliteFailure ErrorCode.OutOfMemory)
        ⊎ (e.0 ≡ Error.SqliteFailure ErrorCode.DatabaseBusy))) }
    ensures cause { IfErr result (λ e.
        IfSome e.1 (λ left.
        (files : _) × IsFresh true files.log × IsFresh false files.db
        × (IsCleanLeft left → FailsToOpenFiles files left e.0 × LeavesFiles files left))) }
{
    let pages = pages_of(rt, path);
    let files = match open_pair(rt, path, start) {
        Ok(files) => files,
        Err(error) => return Err((error, None)),
    };
    let options = match options(rt, pages) {
        Ok(options) => options,
        Err(error) => return Err((error, None)),
    };
    match Connection::open_files(rt.alloc(), files, options) {
        Ok(mut conn) => {
            conn.set_clock(rt);
            Ok(conn)
        }
        Err((error, left)) => Err((error, Some(left))),
    }
}
