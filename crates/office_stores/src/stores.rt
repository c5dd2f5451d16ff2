//! The offices that the program works with: one in memory, or one in a file that is found by its name.

ghost use Rattle.std.specs.Prelude.{◌≡◌, ◌≢◌, false, IfErr, IfOk, IsErr, IsTrue, Ok, Some, true};
ghost use Rattle.std.specs.IoError.{error_kind};
ghost use Rattle.sqlite.specs.Closing.{IsCopied};
ghost use Rattle.sqlite.specs.Files.{IsOpened, file_state};
ghost use Rattle.sqlite.specs.Start.{FindsIn};
ghost use Rattle.sqlite.specs.Held.{state};
ghost use Rattle.sqlite.specs.State.{HasCleanDisk};
ghost use Rattle.sqlite.specs.Steps.{over_memory};
ghost use Rattle.sqlite.specs.WalFiles.{image_at};
ghost use Rattle.sqlite_wal.specs.Reads.{AreClean};
ghost use Rattle.office_rows.specs.Rows.{max_limit};
ghost use Rattle.office_tables.specs.Opening.{has_office};
ghost use Rattle.office_contents.specs.Schema.{no_schema};
ghost use Rattle.office_engine.specs.Storing.{IsStoredBy, IsLeftAt};
ghost use Rattle.office_stores.specs.Stores.{GoesOnFrom, IsClosedAfter, IsOfficeOver, IsOpenedFrom, IsUnhad, made_office};
ghost use Rattle.office_stores.specs.Texts.{IsOfOpening, IsOfStore, IsUnclosable, IsUnopenable, found_nothing, is_of_search, is_sought, search_failure, store_failure, table_failure, table_fault};
ghost use Rattle.office_stores.specs.declared.fault.Cause.TheVariants.{Search};
ghost use Rattle.office_stores.specs.declared.fault.CommandFault.TheVariants.{Failed};

use crate::done::Done;
use crate::fault::{Cause, CommandFault, StoreFault, failed_by};
use office_core::Limits;
use office_engine::Office;
use office_rows::MAX_LIMIT;
use office_tables::TableFault;
use sqlite::{Alter, Connection, Error, ErrorCode, FileFrom, FileStore, Files, MemStore, Start};
use sqlite_disk::Disk;
use std::alloc::Global;
use std::fs::{self, OpenOptions};
use std::io::{self, ErrorKind};
use std::rt::HostRuntime;
use store_file::open_file;

/// The limits of an office that the program makes.
fn limits() -> Limits
    ensures { (result.deposits ≡ max_limit) × (result.holds ≡ max_limit) }
{
    Limits::new(MAX_LIMIT, MAX_LIMIT).unwrap()
}

/// A search that failed.
fn search_failure(error: io::Error) -> CommandFault
    ensures is { result ≡ Failed (search_failure (error_kind error)) (Some (Search error)) }
    ensures failure { IsUnopenable result }
{
    match error.kind() {
        ErrorKind::OutOfMemory => failed_by(StoreFault::Memory, Cause::Search(error)),
        _ => failed_by(StoreFault::Store, Cause::Search(error)),
    }
}

/// What the store said as it was opened or closed.
fn store_fault(error: Error) -> StoreFault
    ensures is { result ≡ store_failure error }
    ensures store { IsOfStore result }
{
    match error {
        Error::SqliteFailure(ErrorCode::OutOfMemory) => StoreFault::Memory,
        _ => StoreFault::Store,
    }
}

/// Whether there is no file at the path. An empty one is no office, and stays empty.
fn is_missing(rt: &HostRuntime, store: &str) -> Result<bool, CommandFault>
    ensures failure { IfErr result IsUnopenable }
    ensures not_missing { IfErr result (λ fault. found_nothing fault ≡ false) }
{
    match fs::metadata(rt, store) {
        Ok(found) if found.is_file() && found.len() == 0 => {
            Err(failed_by(StoreFault::NotAnOffice, Cause::Empty))
        }
        Ok(_) => Ok(false),
        Err(error) if error.kind() == ErrorKind::NotFound => Ok(true),
        Err(error) => Err(search_failure(error)),
    }
}

/// What kept the store from being opened: the host's files, where they refuse it. Where the store is to
/// be made they are asked for a new file, which is taken away again.
fn opening_cause(rt: &HostRuntime, store: &str, is_new: bool, error: Error) -> Cause
    ensures opening { IsOfOpening (Some result) }
    ensures not_sought { is_of_search (Some result) ≡ false }
{
    if !matches!(error, Error::SqliteFailure(ErrorCode::CannotOpen)) {
        return Cause::Open(error);
    }
    let mut options = OpenOptions::new();
    match options
        .read(true)
        .write(true)
        .create_new(is_new)
        .open(rt, store)
    {
        Ok(_) => {
            if is_new {
                let _ = fs::remove_file(rt, store);
            }
            Cause::Open(error)
        }
        Err(refused) if refused.kind() == ErrorKind::AlreadyExists => Cause::Open(error),
        Err(refused) => Cause::Refused(refused),
    }
}

/// Opens the file of the store, or makes it.
fn open_store<S: Start>(
    rt: &HostRuntime,
    start: S,
    store: &str,
    is_new: bool,
) -> Result<Connection<FileStore<FileFrom<S>>>, CommandFault>
    ensures fresh { IfOk result (λ conn. (file_state conn).in_transaction ≡ false) }
    ensures opened { IfOk result (λ conn. HasCleanDisk (file_state conn) → IsOpened conn) }
    ensures found { IfOk result (λ conn. HasCleanDisk (file_state conn)
        → FindsIn (image_at S.Start) (file_state conn)) }
    ensures failure { IfErr result IsUnopenable }
    ensures not_sought { IfErr result (λ fault. is_sought fault ≡ false) }
{
    match open_file(rt, store, start) {
        Ok(conn) => Ok(conn),
        Err((error, _)) => {
            let cause = opening_cause(rt, store, is_new, error);
            Err(failed_by(store_fault(error), cause))
        }
    }
}

/// What a fault of the tables is of the store.
pub fn table_fault(fault: TableFault) -> StoreFault
    ensures is { result ≡ table_fault fault }
    ensures store { IsOfStore result }
{
    match fault {
        TableFault::NotAnOffice => StoreFault::NotAnOffice,
        TableFault::OtherVersion => StoreFault::OtherVersion,
        TableFault::Memory => StoreFault::Memory,
        TableFault::Store => StoreFault::Store,
    }
}

/// An office that can't be made or taken up.
fn table_failure(fault: TableFault) -> CommandFault
    ensures is { result ≡ table_failure fault }
    ensures sought { is_sought result ≡ false }
    ensures failure { IsUnopenable result }
{
    CommandFault::without_cause(table_fault(fault))
}

/// Makes an office in a store that was just made.
fn make_office<S: Alter + Drop>(conn: Connection<S>) -> Result<Office<S>, CommandFault>
    requires outside { (state S.Store conn).in_transaction ≡ false }
    ensures clean { IfOk result (λ office.
        HasCleanDisk (state S.Store office) → HasCleanDisk (state S.Store conn)) }
    ensures made { IfOk result (λ office.
        HasCleanDisk (state S.Store office) → IsStoredBy made_office (state S.Store office)) }
    ensures not_empty { (state S.Store conn).now.schema ≢ no_schema → IsErr result }
    ensures failure { IfErr result IsUnopenable }
    ensures not_sought { IfErr result (λ fault. is_sought fault ≡ false) }
{
    match Office::create(conn, limits()) {
        Ok(office) => Ok(office),
        Err((_, fault)) => Err(table_failure(fault)),
    }
}

/// Takes the office that the connection shows, with the tables of this version.
fn take_office<S: Alter + Drop>(conn: Connection<S>) -> Result<Office<S>, CommandFault>
    requires outside { (state S.Store conn).in_transaction ≡ false }
    ensures clean { IfOk result (λ office.
        HasCleanDisk (state S.Store office) → HasCleanDisk (state S.Store conn)) }
    ensures goes_on { IfOk result (λ office.
        HasCleanDisk (state S.Store office)
        → GoesOnFrom (λ version h.
        IsLeftAt version h (state S.Store conn).now.trees) (state S.Store office)) }
    ensures was_there { IfOk result (λ office. HasCleanDisk (state S.Store office)
        → IsTrue (has_office (state S.Store conn).now.schema)) }
    ensures failure { IfErr result IsUnopenable }
    ensures not_sought { IfErr result (λ fault. is_sought fault ≡ false) }
{
    match Office::upgrade(conn) {
        Ok(office) => Ok(office),
        Err((_, fault)) => Err(table_failure(fault)),
    }
}

/// Whether the store is to be made: nothing is there, and that is asked for.
fn is_to_be_made(rt: &HostRuntime, store: &str, makes: bool) -> Result<bool, CommandFault>
    ensures allowed { IfOk result (λ is_new. is_new ≡ true → makes ≡ true) }
    ensures failure { IfErr result IsUnopenable }
    ensures missing { IfErr result (λ fault. found_nothing fault ≡ true → makes ≡ false) }
{
    let is_new = is_missing(rt, store)?;
    if is_new && !makes {
        return Err(failed_by(StoreFault::NotAnOffice, Cause::Missing));
    }
    Ok(is_new)
}

/// The office of the connection: it is made there, or was there.
fn office_of<S: Alter + Drop>(conn: Connection<S>, is_new: bool) -> Result<Office<S>, CommandFault>
    requires outside { (state S.Store conn).in_transaction ≡ false }
    ensures is { IfOk result (IsOfficeOver S.Store conn is_new) }
    ensures failure { IfErr result IsUnopenable }
    ensures not_sought { IfErr result (λ fault. is_sought fault ≡ false) }
{
    if is_new {
        make_office(conn)
    } else {
        take_office(conn)
    }
}

/// What a close handed back; or why it failed, and the store is let go.
fn closed<F, S: Drop>(given: Result<F, (Error, S)>) -> Result<F, CommandFault>
    ensures files { IfOk result (λ files. given ≡ Ok files) }
    ensures failure { IfErr result IsUnclosable }
{
    match given {
        Ok(files) => Ok(files),
        Err((error, _)) => Err(failed_by(store_fault(error), Cause::Close(error))),
    }
}

/// A new office in memory.
pub fn office_in_memory(alloc: Global) -> Result<Office<MemStore>, CommandFault>
    ensures made { IfOk result (λ office. IsStoredBy made_office (state over_memory office)) }
    ensures failure { IfErr result IsUnopenable }
    ensures not_sought { IfErr result (λ fault. is_sought fault ≡ false) }
{
    match Connection::open_in_memory(alloc) {
        Ok(conn) => make_office(conn),
        Err(_) => Err(CommandFault::without_cause(StoreFault::Memory)),
    }
}

/// The office in the file of that name, which is opened by `start`, taken for that. Where nothing is there
/// the office is made, if `makes` says so.
pub fn open_office<S: Start>(
    rt: &HostRuntime,
    start: &mut Option<S>,
    store: &str,
    makes: bool,
) -> Result<Office<FileStore<FileFrom<S>>>, CommandFault>
    ensures opened { IfOk result
        (IsOpenedFrom ⟦<FileFrom<S> as Disk>⟧ (image_at S.Start) makes) }
    ensures unhad { IfErr result (IsUnhad (start.new ≡ start.old) makes) }
{
    let is_new = is_to_be_made(rt, store, makes)?;
    let Some(start) = start.take() else {
        return Err(failed_by(StoreFault::Store, Cause::Taken));
    };
    match open_store(rt, start, store, is_new) {
        Ok(conn) => office_of(conn, is_new),
        Err(fault) => Err(fault),
    }
}

/// Copies the log into the file of the office, and lets both go. Where that fails, that is the fault,
/// whatever was done.
pub fn close_office<D: Disk + Drop>(
    office: Office<FileStore<D>>,
    done: Result<Done, CommandFault>,
) -> Result<Done, CommandFault>
    ensures { IsClosedAfter D.Disk office done result }
{
    match closed(office.into_connection().close_files()) {
        Ok(_) => done,
        Err(fault) => Err(fault),
    }
}
