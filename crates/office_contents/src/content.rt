//! The contents of files, each stored once.

ghost use Rattle.std.specs.Prelude.{◌≡◌, ℕ, ℤ, List, [], ◌∷◌, true, false, bytes_eq, Err, IfErr, IfOk, Some, map, filter, not, slice_get, option_map};
ghost use Rattle.sha2.specs.Sha256.{sha256};
ghost use Rattle.std.specs.List.{list_any};
ghost use Rattle.std.specs.Ordering.{int_eq};
ghost use Rattle.sql_meaning.specs.Columns.{int_at, bytes_at};
ghost use Rattle.office_rows.specs.Rows.{content_numbered, is_content, last_number};
ghost use Rattle.office_contents.specs.Schema.{file_tree};
ghost use Rattle.office_contents.specs.Faults.{IsFailure};
ghost use Rattle.office_contents.specs.Tables.{contents_of};
ghost use Rattle.office_contents.specs.Calls.{FailsInStore, GoesOnInTurn, GoesOnInside};
ghost use Rattle.office_contents.specs.Contents.{Does, HasSameFiles, IsContentAdded, IsNewContent, IsContentStored, IsTidied, RefusesIf, is_intact, number_alike};

use crate::fault::{Result, TableFault};
use crate::run::{ask, change, number_in};
use sha2::{Digest, Sha256};
use sqlite::types::ValueRef;
use sqlite::{Alter, Row, Transaction, params};
use std::alloc::Global;

/// The row that shows the mark and the bytes of the content of that number, if there is one.
fn rows_of_content<S: Alter>(tx: &mut Transaction<'_, S>, id: i64) -> Result<Vec<Row>>
    ensures inside { GoesOnInside S.Store tx.old.conn tx.new.conn result }
    ensures found { Does S.Store tx.old.conn.now tx.new.conn.now result (λ old new rows.
        (new ≡ old)
        × (option_map {U = List ℕ × List ℕ} (λ c. (c.mark, c.bytes))
        (content_numbered id (contents_of old))
        ≡ option_map {U = List ℕ × List ℕ} (λ row. (bytes_at row 0, bytes_at row 1))
        (slice_get rows.items 0))) }
    ensures store { FailsInStore S.Store tx.old.conn.now tx.new.conn.now result }
{
    ask(
        tx,
        "SELECT mark, bytes FROM content WHERE id = ?1",
        params![id],
    )
}

/// Rows that show the numbers of the contents with that mark and these bytes, ascending; the store
/// compares the bytes.
fn rows_alike<S: Alter>(tx: &mut Transaction<'_, S>, mark: &[u8], bytes: &[u8]) -> Result<Vec<Row>>
    ensures inside { GoesOnInside S.Store tx.old.conn tx.new.conn result }
    ensures found { Does S.Store tx.old.conn.now tx.new.conn.now result (λ old new rows.
        (new ≡ old)
        × (number_alike mark.now bytes.now (contents_of old)
        ≡ option_map (λ row. int_at row 0) (slice_get rows.items 0))) }
{
    ask(
        tx,
        "SELECT id FROM content WHERE mark = ?1 AND bytes = ?2 ORDER BY id",
        params![mark, bytes],
    )
}

/// Adds a content at the end, under the next number.
fn add_content<S: Alter>(tx: &mut Transaction<'_, S>, mark: &[u8], bytes: &[u8]) -> Result<usize>
    ensures inside { GoesOnInside S.Store tx.old.conn tx.new.conn result }
    ensures added { Does S.Store tx.old.conn.now tx.new.conn.now result (λ old new _.
        IsContentAdded mark.now bytes.now old new) }
{
    let Ok(size) = i64::try_from(bytes.len()) else {
        return Err(TableFault::Store);
    };
    change(
        tx,
        "INSERT INTO content (mark, size, bytes) VALUES (?1, ?2, ?3)",
        params![mark, size, bytes],
    )
}

/// The row that shows the number of the last content, if there is one.
fn rows_of_last<S: Alter>(tx: &mut Transaction<'_, S>) -> Result<Vec<Row>>
    ensures inside { GoesOnInside S.Store tx.old.conn tx.new.conn result }
    ensures found { Does S.Store tx.old.conn.now tx.new.conn.now result (λ old new rows.
        (new ≡ old)
        × (last_number (λ c. c.id) (contents_of old)
        ≡ option_map (λ row. int_at row 0) (slice_get rows.items 0))) }
{
    ask(tx, "SELECT id FROM content ORDER BY id DESC LIMIT 1", &[])
}

/// A row where some file has the content of that number, and else none.
fn rows_of_users<S: Alter>(tx: &mut Transaction<'_, S>, id: i64) -> Result<Vec<Row>>
    ensures inside { GoesOnInside S.Store tx.old.conn tx.new.conn result }
    ensures found { Does S.Store tx.old.conn.now tx.new.conn.now result (λ old new rows.
        (new ≡ old)
        × (list_any (λ r. int_eq (int_at r 3) id) (old.trees file_tree)
        ≡ list_any (λ r. true) rows.items)) }
{
    ask(
        tx,
        "SELECT deposit FROM file WHERE content = ?1 LIMIT 1",
        params![id],
    )
}

/// Takes out the content of that number.
fn remove_content<S: Alter>(tx: &mut Transaction<'_, S>, id: i64) -> Result<usize>
    ensures inside { GoesOnInside S.Store tx.old.conn tx.new.conn result }
    ensures removed { Does S.Store tx.old.conn.now tx.new.conn.now result (λ old new _.
        HasSameFiles old new
        × (contents_of new ≡ filter (λ c. not (is_content id c)) (contents_of old))) }
{
    change(tx, "DELETE FROM content WHERE id = ?1", params![id])
}

/// The rows that show the number and the size of each content, ascending: `size_in` reads the size. The store
/// alone allocates for them.
///
/// Fails with `Memory` or `Store`.
pub fn rows_of_contents<S: Alter>(tx: &mut Transaction<'_, S>) -> Result<Vec<Row>>
    ensures inside { GoesOnInside S.Store tx.old.conn tx.new.conn result }
    ensures found { Does S.Store tx.old.conn.now tx.new.conn.now result (λ old new rows.
        (new ≡ old)
        × (map {B = ℤ × ℤ} (λ c. (c.id, c.size)) (contents_of old)
        ≡ map {B = ℤ × ℤ} (λ row. (int_at row 0, int_at row 1)) rows.items)) }
    ensures store { FailsInStore S.Store tx.old.conn.now tx.new.conn.now result }
{
    ask(tx, "SELECT id, size FROM content ORDER BY id", &[])
}

/// The size of a content, in a row that `rows_of_contents` shows.
///
/// Fails with `Store`.
pub fn size_in(row: &Row) -> Result<i64>
    ensures shown { IfOk result (λ size. size ≡ int_at row.now 1) }
    ensures store { IfErr result (λ fault. fault ≡ TableFault.Store) }
{
    number_in(row, 1)
}

/// The bytes in that column of a row.
fn bytes_in(row: &Row, at: usize) -> Result<&[u8]>
    ensures shown { IfOk result (λ bytes. bytes.now ≡ bytes_at row.now at) }
    ensures store { IfErr result (λ fault. fault ≡ TableFault.Store) }
{
    match row.get_ref(at)? {
        ValueRef::Blob(bytes) => Ok(bytes),
        _ => Err(TableFault::Store),
    }
}

/// Whether the mark that a row shows is the SHA-256 of the bytes that it shows.
fn shows_intact(row: &Row) -> Result<bool>
    ensures shown { IfOk result (λ intact.
        intact ≡ bytes_eq (bytes_at row.now 0) (sha256 (bytes_at row.now 1))) }
    ensures store { IfErr result (λ fault. fault ≡ TableFault.Store) }
{
    let mark = bytes_in(row, 0)?;
    let digest = Sha256::digest(bytes_in(row, 1)?);
    Ok(mark == digest.as_slice())
}

/// The bytes of the content that a row shows; where they are checked, their SHA-256 is its mark.
fn content_shown(row: &Row, checked: bool) -> Result<Vec<u8>>
    ensures shown { IfOk result (λ content. content.items ≡ bytes_at row.now 1) }
    ensures intact { IfOk result (λ _.
        checked ≡ true → bytes_eq (bytes_at row.now 0) (sha256 (bytes_at row.now 1)) ≡ true) }
    ensures altered { checked ≡ true
        → bytes_eq (bytes_at row.now 0) (sha256 (bytes_at row.now 1)) ≡ false
        → result ≡ Err TableFault.Store }
    ensures failure { IfErr result IsFailure }
{
    if checked && !shows_intact(row)? {
        return Err(TableFault::Store);
    }
    Ok(row.get(1)?)
}

/// The bytes of the content of that number; where they are checked, their SHA-256 is its mark.
///
/// Fails with `Store` where there is no such content.
pub(crate) fn content_of<S: Alter>(
    tx: &mut Transaction<'_, S>,
    id: i64,
    checked: bool,
) -> Result<Vec<u8>>
    ensures inside { GoesOnInside S.Store tx.old.conn tx.new.conn result }
    ensures found { Does S.Store tx.old.conn.now tx.new.conn.now result (λ old new content.
        (new ≡ old)
        × (Some content.items ≡ option_map (λ c. c.bytes) (content_numbered id (contents_of old)))) }
    ensures intact { Does S.Store tx.old.conn.now tx.new.conn.now result (λ old new _.
        checked ≡ true → is_intact (content_numbered id (contents_of old)) ≡ true) }
    ensures altered { checked ≡ true
        → RefusesIf S.Store tx.old.conn.now tx.new.conn.now result (λ old.
        is_intact (content_numbered id (contents_of old)) ≡ false) }
{
    let rows = rows_of_content(tx, id)?;
    match rows.first() {
        Some(row) => content_shown(row, checked),
        None => Err(TableFault::Store),
    }
}

/// The number of the first content with that mark and these bytes, if there is one.
fn content_alike<S: Alter>(
    tx: &mut Transaction<'_, S>,
    mark: &[u8],
    bytes: &[u8],
) -> Result<Option<i64>>
    ensures inside { GoesOnInside S.Store tx.old.conn tx.new.conn result }
    ensures found { Does S.Store tx.old.conn.now tx.new.conn.now result (λ old new found.
        (new ≡ old) × (number_alike mark.now bytes.now (contents_of old) ≡ found)) }
{
    let rows = rows_alike(tx, mark, bytes)?;
    match rows.first() {
        Some(row) => Ok(Some(number_in(row, 0)?)),
        None => Ok(None),
    }
}

/// The number of the last content.
fn last_content<S: Alter>(tx: &mut Transaction<'_, S>) -> Result<i64>
    ensures inside { GoesOnInside S.Store tx.old.conn tx.new.conn result }
    ensures found { Does S.Store tx.old.conn.now tx.new.conn.now result (λ old new id.
        (new ≡ old) × (last_number (λ c. c.id) (contents_of old) ≡ Some id)) }
{
    let rows = rows_of_last(tx)?;
    match rows.first() {
        Some(row) => Ok(number_in(row, 0)?),
        None => Err(TableFault::Store),
    }
}

/// Adds a content at the end, and tells its number.
fn new_content<S: Alter>(tx: &mut Transaction<'_, S>, mark: &[u8], bytes: &[u8]) -> Result<i64>
    ensures inside { GoesOnInside S.Store tx.old.conn tx.new.conn result }
    ensures stored { Does S.Store tx.old.conn.now tx.new.conn.now result (λ old new id.
        IsNewContent mark.now bytes.now id old new) }
{
    add_content(tx, mark, bytes)?;
    last_content(tx)
}

/// The number of the first content with that mark and these bytes; where there is none, one is added at
/// the end.
pub(crate) fn store_content<S: Alter>(
    tx: &mut Transaction<'_, S>,
    mark: &[u8],
    bytes: &[u8],
) -> Result<i64>
    ensures inside { GoesOnInside S.Store tx.old.conn tx.new.conn result }
    ensures stored { Does S.Store tx.old.conn.now tx.new.conn.now result
        (IsContentStored mark.now bytes.now) }
{
    match content_alike(tx, mark, bytes)? {
        Some(id) => Ok(id),
        None => new_content(tx, mark, bytes),
    }
}

/// Whether some file has the content of that number.
fn is_used<S: Alter>(tx: &mut Transaction<'_, S>, id: i64) -> Result<bool>
    ensures inside { GoesOnInside S.Store tx.old.conn tx.new.conn result }
    ensures found { Does S.Store tx.old.conn.now tx.new.conn.now result (λ old new used.
        (new ≡ old) × (list_any (λ r. int_eq (int_at r 3) id) (old.trees file_tree) ≡ used)) }
{
    let rows = rows_of_users(tx, id)?;
    Ok(!rows.is_empty())
}

/// Takes out the content of that number unless some file has it.
fn drop_unused<S: Alter>(tx: &mut Transaction<'_, S>, id: i64) -> Result<()>
    ensures inside { GoesOnInside S.Store tx.old.conn tx.new.conn result }
    ensures tidied { Does S.Store tx.old.conn.now tx.new.conn.now result (λ old new _.
        (ids : List ℤ) → IsTidied (id ∷ ids) ids old new) }
{
    if !is_used(tx, id)? {
        remove_content(tx, id)?;
    }
    Ok(())
}

/// Takes out each content whose number a row shows and which no file has.
pub(crate) fn drop_each_unused<S: Alter>(tx: &mut Transaction<'_, S>, rows: &[Row]) -> Result<()>
    ensures inside { GoesOnInTurn S.Store tx.old.conn tx.new.conn result }
    ensures tidied { Does S.Store tx.old.conn.now tx.new.conn.now result (λ old new _.
        IsTidied (map (λ row. int_at row 0) rows.now) [] old new) }
{
    for row in rows {
        let id = number_in(row, 0)?;
        drop_unused(tx, id)?;
    }
    Ok(())
}

/// How large the content of a number is.
#[derive(Clone, Copy, Debug, PartialEq, Eq)]
pub struct ContentSize {
    pub id: i64,
    pub size: i64,
}

/// The sizes in the rows that a query shows.
fn sizes_in(alloc: Global, rows: &[Row]) -> Result<Vec<ContentSize>>
    ensures shown { IfOk result (λ sizes.
        map {B = ℤ × ℤ} (λ s. (s.id, s.size)) sizes.items
        ≡ map {B = ℤ × ℤ} (λ row. (int_at row 0, int_at row 1)) rows.now) }
    ensures failure { IfErr result IsFailure }
{
    let mut sizes = Vec::new(alloc);
    for row in rows {
        sizes.push(ContentSize {
            id: number_in(row, 0)?,
            size: number_in(row, 1)?,
        })?;
    }
    Ok(sizes)
}

/// The number and the size of each content, ascending.
///
/// Fails with `Memory` or `Store`.
pub fn contents<S: Alter>(alloc: Global, tx: &mut Transaction<'_, S>) -> Result<Vec<ContentSize>>
    ensures inside { GoesOnInside S.Store tx.old.conn tx.new.conn result }
    ensures found { Does S.Store tx.old.conn.now tx.new.conn.now result (λ old new sizes.
        (new ≡ old)
        × (map {B = ℤ × ℤ} (λ s. (s.id, s.size)) sizes.items
        ≡ map {B = ℤ × ℤ} (λ c. (c.id, c.size)) (contents_of old))) }
{
    let rows = rows_of_contents(tx)?;
    sizes_in(alloc, &rows)
}
