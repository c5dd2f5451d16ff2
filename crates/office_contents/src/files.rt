//! The files of deposits.

ghost use Rattle.std.specs.Prelude.{◌≡◌, ◌++◌, ◌∷◌, [], IfSome, None, Some, pos, map, option_map, slice_get, false, true};
ghost use Rattle.sha2.specs.Sha256.{sha256};
ghost use Rattle.sql_meaning.specs.Columns.{int_at};
ghost use Rattle.office_rows.specs.Rows.{bytes_under, content_numbered, file_at, is_file_at, with_content, with_file, without_files};
ghost use Rattle.office_contents.specs.Calls.{FailsInStore, GoesOnInTurn, GoesOnInside, Keeps, Shows, Tells, Writes};
ghost use Rattle.office_contents.specs.Tables.{contents_of, tables_of};
ghost use Rattle.office_contents.specs.Contents.{AreFilesDropped, AreUsed, Does, FailsIf, HasAltered, IsAltered, IsFileAdded, IsMarkedPut, LeavesOnce, RefusesIf, ShowsFile, StandOnce, content_at, content_number, contents_without, is_intact, references_of, references_where, references_without};
ghost use Rattle.std.specs.List.{AllByRecursion, list_all};
ghost use Rattle.office_contents.specs.Files.{shown_path, files_by_path};

use crate::content::{content_of, drop_each_unused, store_content};
use crate::fault::{Result, TableFault};
use crate::run::{ask, change, number_in};
use sha2::{Digest, Sha256};
use sqlite::{Alter, Row, Transaction, params};
use std::alloc::Global;
use std::marker::Model;

/// A file of a deposit.
#[derive(Debug, Drop)]
pub struct FileRow {
    /// The number of its deposit.
    pub deposit: u32,
    pub path: String,
    pub content: Vec<u8>,
}

impl Model for FileRow {
    ghost use Rattle.std.specs.Prelude.{List, ℕ, ℤ, string_bytes, refl, pos};
    ghost use Rattle.std.specs.Coded.{code_by, coded×, coded_list, coded_ℕ, coded_ℤ};
    ghost use Rattle.office_rows.specs.Rows.{FileRow as File};

    ghost Value = { File };

    ghost coded = { code_by (ℤ × (List ℕ × List ℕ)) (coded× coded_ℤ (coded× (coded_list coded_ℕ) (coded_list coded_ℕ)))
        (λ (f : File). (f.deposit, (f.path, f.content)))
        (λ p. record { deposit = p.0; path = p.1.0; content = p.1.1 }) (λ _. refl) };

    ghost view = { λ f. record { deposit = pos f.deposit; path = string_bytes f.path; content = f.content.items } };
}

/// Adds a file to the deposit of that number, whose content is the one of that number.
fn add_file<S: Alter>(
    tx: &mut Transaction<'_, S>,
    number: u32,
    path: &str,
    id: i64,
) -> Result<usize>
    ensures inside { GoesOnInside S.Store tx.old.conn tx.new.conn result }
    ensures added { Does S.Store tx.old.conn.now tx.new.conn.now result (λ old new _.
        IsFileAdded (pos number) path.now id old new) }
{
    change(
        tx,
        "INSERT INTO file (deposit, path, content) VALUES (?1, ?2, ?3)",
        params![number, path, id],
    )
}

/// Stores the content under that mark, and adds a file that has it.
fn put_stored<S: Alter>(
    tx: &mut Transaction<'_, S>,
    number: u32,
    path: &str,
    mark: &[u8],
    content: &[u8],
) -> Result<usize>
    ensures inside { GoesOnInside S.Store tx.old.conn tx.new.conn result }
    ensures put { Does S.Store tx.old.conn.now tx.new.conn.now result (λ old new _.
        IsMarkedPut (record { deposit = pos number; path = path.now; content = content.now })
        mark.now old new) }
{
    let id = store_content(tx, mark, content)?;
    add_file(tx, number, path, id)
}

/// Adds a file to the deposit of that number. Its content is the first that is stored under that mark with
/// these bytes; where there is none, it is stored at the end.
///
/// Fails with `Store` where the deposit has a file of that path, and with `Memory` or `Store`.
pub fn put_marked<S: Alter>(
    tx: &mut Transaction<'_, S>,
    number: u32,
    path: &str,
    mark: &[u8; 32],
    content: &[u8],
) -> Result<()>
    ensures inside { GoesOnInside S.Store tx.old.conn tx.new.conn result }
    ensures becomes { Writes S.Store tx.old.conn.now tx.new.conn.now result
        (with_file (record { deposit = pos number; path = path.now; content = content.now })) }
    ensures new_path { Tells S.Store tx.old.conn.now tx.new.conn.now result (λ tables _.
        file_at (pos number) path.now tables.files ≡ None) }
    ensures contents { Does S.Store tx.old.conn.now tx.new.conn.now result (λ old new _.
        contents_of new ≡ with_content mark.now content.now (contents_of old)) }
    ensures references { Does S.Store tx.old.conn.now tx.new.conn.now result (λ old new _.
        references_of new ≡ references_of old
        ++ content_number mark.now content.now (contents_of old) ∷ []) }
    ensures used { Does S.Store tx.old.conn.now tx.new.conn.now result (λ old new _.
        AreUsed (references_of old) (contents_of old)
        → AreUsed (references_of new) (contents_of new)) }
    ensures differ { Does S.Store tx.old.conn.now tx.new.conn.now result (λ old new _.
        AllByRecursion (λ c. c.bytes ≡ content.now → c.mark ≡ mark.now) (contents_of old)
        → StandOnce (contents_of old) → StandOnce (contents_of new)) }
{
    put_stored(tx, number, path, mark, content)?;
    Ok(())
}

/// Adds a file to the deposit of that number. Its content is stored once, under its SHA-256.
///
/// Fails with `Store` where the deposit has a file of that path, and with `Memory` or `Store`.
pub fn put_file<S: Alter>(
    tx: &mut Transaction<'_, S>,
    number: u32,
    path: &str,
    content: &[u8],
) -> Result<()>
    ensures inside { GoesOnInside S.Store tx.old.conn tx.new.conn result }
    ensures becomes { Writes S.Store tx.old.conn.now tx.new.conn.now result
        (with_file (record { deposit = pos number; path = path.now; content = content.now })) }
    ensures new_path { Tells S.Store tx.old.conn.now tx.new.conn.now result (λ tables _.
        file_at (pos number) path.now tables.files ≡ None) }
    ensures contents { Does S.Store tx.old.conn.now tx.new.conn.now result (λ old new _.
        contents_of new ≡ with_content (sha256 content.now) content.now (contents_of old)) }
    ensures references { Does S.Store tx.old.conn.now tx.new.conn.now result (λ old new _.
        references_of new ≡ references_of old
        ++ content_number (sha256 content.now) content.now (contents_of old) ∷ []) }
    ensures used { Does S.Store tx.old.conn.now tx.new.conn.now result (λ old new _.
        AreUsed (references_of old) (contents_of old)
        → AreUsed (references_of new) (contents_of new)) }
    ensures once { LeavesOnce S.Store tx.old.conn.now tx.new.conn.now result }
{
    let mark = Sha256::digest(content);
    put_stored(tx, number, path, &mark, content)?;
    Ok(())
}

/// The row that shows the number of the content of the file of that deposit and path, if there is one.
fn rows_of_file<S: Alter>(tx: &mut Transaction<'_, S>, number: u32, path: &str) -> Result<Vec<Row>>
    ensures inside { GoesOnInside S.Store tx.old.conn tx.new.conn result }
    ensures found { Does S.Store tx.old.conn.now tx.new.conn.now result (λ old new rows.
        (new ≡ old)
        × (option_map (λ f. f.content) (file_at (pos number) path.now (tables_of old).files)
        ≡ option_map (λ row.
        bytes_under (contents_of old) (int_at row 0)) (slice_get rows.items 0))) }
    ensures reference { Does S.Store tx.old.conn.now tx.new.conn.now result (λ old new rows.
        slice_get (references_where (is_file_at (pos number) path.now) (tables_of old).files
        (references_of old)) 0
        ≡ option_map (λ row. int_at row 0) (slice_get rows.items 0)) }
    ensures store { FailsInStore S.Store tx.old.conn.now tx.new.conn.now result }
{
    ask(
        tx,
        "SELECT content FROM file WHERE deposit = ?1 AND path = ?2",
        params![number, path],
    )
}

/// The content whose number a row shows in that column; where it is checked, its SHA-256 is its mark.
fn content_in<S: Alter>(
    tx: &mut Transaction<'_, S>,
    row: &Row,
    at: usize,
    checked: bool,
) -> Result<Vec<u8>>
    ensures inside { GoesOnInside S.Store tx.old.conn tx.new.conn result }
    ensures found { Does S.Store tx.old.conn.now tx.new.conn.now result (λ old new content.
        (new ≡ old) × (content.items ≡ bytes_under (contents_of old) (int_at row.now at))) }
    ensures intact { Does S.Store tx.old.conn.now tx.new.conn.now result (λ old new _.
        checked ≡ true
        → is_intact (content_numbered (int_at row.now at) (contents_of old)) ≡ true) }
    ensures altered { checked ≡ true
        → RefusesIf S.Store tx.old.conn.now tx.new.conn.now result (λ old.
        is_intact (content_numbered (int_at row.now at) (contents_of old)) ≡ false) }
{
    let id = number_in(row, at)?;
    content_of(tx, id, checked)
}

/// The content of the file of that deposit and path; `None` where there is no such file. Where it is
/// checked, its SHA-256 is the mark under which it is stored.
fn content_of_file<S: Alter>(
    tx: &mut Transaction<'_, S>,
    number: u32,
    path: &str,
    checked: bool,
) -> Result<Option<Vec<u8>>>
    ensures inside { GoesOnInside S.Store tx.old.conn tx.new.conn result }
    ensures same { Keeps S.Store tx.old.conn.now tx.new.conn.now result }
    ensures found { Tells S.Store tx.old.conn.now tx.new.conn.now result (λ tables found.
        option_map (λ content. content.items) found
        ≡ option_map (λ f. f.content) (file_at (pos number) path.now tables.files)) }
    ensures intact { Does S.Store tx.old.conn.now tx.new.conn.now result (λ old new found.
        checked ≡ true
        → IfSome found (λ _.
        is_intact (content_at (pos number) path.now (tables_of old).files (references_of old)
        (contents_of old)) ≡ true)) }
    ensures altered { checked ≡ true
        → RefusesIf S.Store tx.old.conn.now tx.new.conn.now result
        (IsAltered (pos number) path.now) }
{
    let rows = rows_of_file(tx, number, path)?;
    match rows.first() {
        Some(row) => Ok(Some(content_in(tx, row, 0, checked)?)),
        None => Ok(None),
    }
}

/// The content of the file of that deposit and path; `None` where there is no such file.
///
/// Fails with `Memory` or `Store`.
pub fn file_of<S: Alter>(
    tx: &mut Transaction<'_, S>,
    number: u32,
    path: &str,
) -> Result<Option<Vec<u8>>>
    ensures inside { GoesOnInside S.Store tx.old.conn tx.new.conn result }
    ensures same { Keeps S.Store tx.old.conn.now tx.new.conn.now result }
    ensures found { Tells S.Store tx.old.conn.now tx.new.conn.now result (λ tables found.
        option_map (λ content. content.items) found
        ≡ option_map (λ f. f.content) (file_at (pos number) path.now tables.files)) }
{
    content_of_file(tx, number, path, false)
}

/// The content of the file of that deposit and path, where its SHA-256 is the mark under which it is stored;
/// `None` where there is no such file.
///
/// Fails with `Store` where the SHA-256 is another, and with `Memory` or `Store`.
pub fn intact_file_of<S: Alter>(
    tx: &mut Transaction<'_, S>,
    number: u32,
    path: &str,
) -> Result<Option<Vec<u8>>>
    ensures inside { GoesOnInside S.Store tx.old.conn tx.new.conn result }
    ensures same { Keeps S.Store tx.old.conn.now tx.new.conn.now result }
    ensures found { Tells S.Store tx.old.conn.now tx.new.conn.now result (λ tables found.
        option_map (λ content. content.items) found
        ≡ option_map (λ f. f.content) (file_at (pos number) path.now tables.files)) }
    ensures intact { Does S.Store tx.old.conn.now tx.new.conn.now result (λ old new found.
        IfSome found (λ content.
        is_intact (content_at (pos number) path.now (tables_of old).files (references_of old)
        (contents_of old)) ≡ true)) }
    ensures altered { RefusesIf S.Store tx.old.conn.now tx.new.conn.now result
        (IsAltered (pos number) path.now) }
{
    content_of_file(tx, number, path, true)
}

/// Takes out the files of the deposit, and leaves their contents.
fn drop_rows<S: Alter>(tx: &mut Transaction<'_, S>, number: u32) -> Result<usize>
    ensures inside { GoesOnInside S.Store tx.old.conn tx.new.conn result }
    ensures dropped { Does S.Store tx.old.conn.now tx.new.conn.now result (λ old new _.
        AreFilesDropped (pos number) old new) }
{
    change(tx, "DELETE FROM file WHERE deposit = ?1", params![number])
}

/// Drops every file of the deposit of that number, and each of their contents that no other file has.
///
/// Fails with `Memory` or `Store`.
pub fn drop_files<S: Alter>(tx: &mut Transaction<'_, S>, number: u32) -> Result<()>
    ensures inside { GoesOnInside S.Store tx.old.conn tx.new.conn result }
    ensures becomes { Writes S.Store tx.old.conn.now tx.new.conn.now result
        (without_files (pos number)) }
    ensures references { Does S.Store tx.old.conn.now tx.new.conn.now result (λ old new _.
        references_of new
        ≡ references_without (pos number) (tables_of old).files (references_of old)) }
    ensures contents { Does S.Store tx.old.conn.now tx.new.conn.now result (λ old new _.
        contents_of new ≡ contents_without (pos number) (tables_of old).files
        (references_of old) (contents_of old)) }
    ensures used { Does S.Store tx.old.conn.now tx.new.conn.now result (λ old new _.
        AreUsed (references_of old) (contents_of old)
        → AreUsed (references_of new) (contents_of new)) }
    ensures once { LeavesOnce S.Store tx.old.conn.now tx.new.conn.now result }
{
    let rows = ask(
        tx,
        "SELECT content FROM file WHERE deposit = ?1",
        params![number],
    )?;
    drop_rows(tx, number)?;
    drop_each_unused(tx, &rows)?;
    Ok(())
}

/// The rows that show the paths of the files of the deposit, ascending, and the numbers of their contents.
fn rows_of_files<S: Alter>(tx: &mut Transaction<'_, S>, number: u32) -> Result<Vec<Row>>
    ensures inside { GoesOnInside S.Store tx.old.conn tx.new.conn result }
    ensures found { Shows S.Store tx.old.conn.now tx.new.conn.now result (λ tables rows.
        map (λ f. f.path) (files_by_path (pos number) tables) ≡ map shown_path rows.items) }
    ensures each { Does S.Store tx.old.conn.now tx.new.conn.now result (λ old new rows.
        AllByRecursion (ShowsFile (pos number) old) rows.items) }
{
    ask(
        tx,
        "SELECT path, content FROM file WHERE deposit = ?1 ORDER BY path",
        params![number],
    )
}

/// The file of the deposit that a row shows; where its content is checked, its SHA-256 is its mark.
fn file_in<S: Alter>(
    tx: &mut Transaction<'_, S>,
    number: u32,
    row: &Row,
    checked: bool,
) -> Result<FileRow>
    ensures inside { GoesOnInside S.Store tx.old.conn tx.new.conn result }
    ensures same { Keeps S.Store tx.old.conn.now tx.new.conn.now result }
    ensures found { Does S.Store tx.old.conn.now tx.new.conn.now result (λ old new file.
        ShowsFile (pos number) old row.now
        → Some file ≡ file_at (pos number) (shown_path row.now) (tables_of old).files) }
    ensures intact { Does S.Store tx.old.conn.now tx.new.conn.now result (λ old new file.
        checked ≡ true → ShowsFile (pos number) old row.now
        → is_intact (content_at (pos number) file.path (tables_of old).files (references_of old)
        (contents_of old)) ≡ true) }
    ensures altered { checked ≡ true
        → RefusesIf S.Store tx.old.conn.now tx.new.conn.now result (λ old.
        ShowsFile (pos number) old row.now × IsAltered (pos number) (shown_path row.now) old) }
{
    let content = content_in(tx, row, 1, checked)?;
    Ok(FileRow {
        deposit: number,
        path: row.get(0)?,
        content,
    })
}

/// The files of the deposit that the rows show, read one after another: the store holds a row that it
/// shows several times over.
fn files_in<S: Alter>(
    alloc: Global,
    tx: &mut Transaction<'_, S>,
    number: u32,
    rows: &[Row],
    checked: bool,
) -> Result<Vec<FileRow>>
    ensures inside { GoesOnInTurn S.Store tx.old.conn tx.new.conn result }
    ensures found { Does S.Store tx.old.conn.now tx.new.conn.now result (λ old new files.
        (new ≡ old)
        × (AllByRecursion (ShowsFile (pos number) old) rows.now
        → map Some files.items
        ≡ map (λ row. file_at (pos number) (shown_path row) (tables_of old).files) rows.now)) }
    ensures intact { Does S.Store tx.old.conn.now tx.new.conn.now result (λ old new files.
        checked ≡ true → AllByRecursion (ShowsFile (pos number) old) rows.now
        → list_all (λ f.
        is_intact (content_at (pos number) f.path (tables_of old).files (references_of old)
        (contents_of old))) files.items ≡ true) }
{
    let mut files = Vec::with_capacity(alloc, rows.len())?;
    for row in rows {
        files.push(file_in(tx, number, row, checked)?)?;
    }
    Ok(files)
}

/// The files of the deposit of that number, ascending by path, byte by byte; where they are checked, the
/// SHA-256 of each content is its mark.
fn read_files<S: Alter>(
    alloc: Global,
    tx: &mut Transaction<'_, S>,
    number: u32,
    checked: bool,
) -> Result<Vec<FileRow>>
    ensures inside { GoesOnInside S.Store tx.old.conn tx.new.conn result }
    ensures same { Keeps S.Store tx.old.conn.now tx.new.conn.now result }
    ensures found { Tells S.Store tx.old.conn.now tx.new.conn.now result (λ tables all.
        all.items ≡ files_by_path (pos number) tables) }
    ensures intact { Does S.Store tx.old.conn.now tx.new.conn.now result (λ old new all.
        checked ≡ true
        → list_all (λ f.
        is_intact (content_at (pos number) f.path (tables_of old).files (references_of old)
        (contents_of old))) all.items ≡ true) }
    ensures altered { checked ≡ true
        → FailsIf S.Store tx.old.conn.now tx.new.conn.now result (HasAltered (pos number)) }
{
    let rows = rows_of_files(tx, number)?;
    files_in(alloc, tx, number, &rows, checked)
}

/// The files of the deposit of that number, ascending by path, byte by byte.
///
/// Fails with `Memory` or `Store`.
pub fn files_of<S: Alter>(
    alloc: Global,
    tx: &mut Transaction<'_, S>,
    number: u32,
) -> Result<Vec<FileRow>>
    ensures inside { GoesOnInside S.Store tx.old.conn tx.new.conn result }
    ensures same { Keeps S.Store tx.old.conn.now tx.new.conn.now result }
    ensures found { Tells S.Store tx.old.conn.now tx.new.conn.now result (λ tables all.
        all.items ≡ files_by_path (pos number) tables) }
{
    read_files(alloc, tx, number, false)
}

/// The files of the deposit of that number, ascending by path, byte by byte, where the SHA-256 of each
/// content is the mark under which it is stored.
///
/// Fails with `Store` where the SHA-256 of one is another, and with `Memory` or `Store`.
pub fn intact_files_of<S: Alter>(
    alloc: Global,
    tx: &mut Transaction<'_, S>,
    number: u32,
) -> Result<Vec<FileRow>>
    ensures inside { GoesOnInside S.Store tx.old.conn tx.new.conn result }
    ensures same { Keeps S.Store tx.old.conn.now tx.new.conn.now result }
    ensures found { Tells S.Store tx.old.conn.now tx.new.conn.now result (λ tables all.
        all.items ≡ files_by_path (pos number) tables) }
    ensures intact { Does S.Store tx.old.conn.now tx.new.conn.now result (λ old new all.
        list_all (λ f.
        is_intact (content_at (pos number) f.path (tables_of old).files (references_of old)
        (contents_of old))) all.items ≡ true) }
    ensures altered { FailsIf S.Store tx.old.conn.now tx.new.conn.now result
        (HasAltered (pos number)) }
{
    read_files(alloc, tx, number, true)
}
