//! Opening an office, and its limits.

ghost use Rattle.std.specs.Prelude.{pos, [], Ok, Err, ◌≡◌, true, false, MatchOption, IfErr, IfOk, OnOk, IsTrue, Some, None, option_map, slice_get};
ghost use Rattle.sqlite.specs.State.{HasCleanDisk, Survives};
ghost use Rattle.sqlite.specs.Held.{state};
ghost use Rattle.sqlite.specs.Order.{Row as SqlRow, column};
ghost use Rattle.sqlite.specs.declared.types.Value.TheVariants.{Int};
ghost use Rattle.sql_meaning.specs.Columns.{int_at};
ghost use Rattle.office_rows.specs.Rows.{this_version, limits_of, version_of};
ghost use Rattle.office_contents.specs.Calls.{FailsInStore, GoesOnInside, Keeps, Shows, Tells};
ghost use Rattle.office_contents.specs.Tables.{shown_limits};
ghost use Rattle.office_contents.specs.Versions.{IsOfficeAt, tables_at};
ghost use Rattle.office_contents.specs.declared.version.TableVersion.{TableVersion};
ghost use Rattle.office_tables.specs.Opening.{shows_office, known_row, ShowsVersion, has_office, HasVersion, HasOtherVersion, IsKnownAsOther, NotAnOffice, HasSameTables};

use office_contents::{NEWEST_VERSION, Result, TableFault, ask};
use office_rows::is_limit;
use sqlite::types::ValueRef;
use sqlite::{Alter, Connection, Row, Transaction, params};
use sqlite_schema::schema::Schema;

/// The version that a row tells, where it is the row of an office.
fn version_in(row: &Row) -> Option<i64>
    ensures { MatchOption result (shows_office row.now ≡ false) (λ version.
        (shows_office row.now ≡ true) × (column row.now 1 ≡ Int version)) }
{
    let Ok(ValueRef::Int(1)) = row.get_ref(0) else {
        return None;
    };
    let Ok(ValueRef::Int(version)) = row.get_ref(1) else {
        return None;
    };
    let Ok(ValueRef::Int(max_deposits)) = row.get_ref(2) else {
        return None;
    };
    let Ok(ValueRef::Int(max_holds)) = row.get_ref(3) else {
        return None;
    };
    if !is_limit(max_deposits) || !is_limit(max_holds) {
        return None;
    }
    Some(version)
}

/// The version that the first row of an office among these tells.
fn version_among(rows: &[Row]) -> Option<i64>
    ensures { MatchOption result (known_row rows.now ≡ None) (λ version.
        (row : SqlRow) × (known_row rows.now ≡ Some row) × (column row 1 ≡ Int version)) }
{
    for row in rows {
        if let Some(version) = version_in(row) {
            return Some(version);
        }
    }
    None
}

/// The version that the table `office` shows: that of the first row 1 of whole numbers with limits in range, by version.
///
/// Fails with `Memory` or `Store`.
pub fn version_told<S: Alter>(tx: &mut Transaction<'_, S>) -> Result<Option<i64>>
    ensures inside { GoesOnInside S.Store tx.old.conn tx.new.conn result }
    ensures same { HasCleanDisk (state S.Store tx.new.conn.now)
        → OnOk result ((state S.Store tx.new.conn.now).now ≡ (state S.Store tx.old.conn.now).now) }
    ensures shown { HasCleanDisk (state S.Store tx.new.conn.now)
        → IfOk result (ShowsVersion (state S.Store tx.old.conn.now).now) }
{
    let rows = ask(
        tx,
        "SELECT id, version, max_deposits, max_holds FROM office ORDER BY version",
        &[],
    )?;
    Ok(version_among(&rows))
}

/// Whether the schema has a table `office` with its columns.
pub fn has_office(schema: &Schema) -> bool
    ensures { result ≡ has_office schema.now }
{
    let Some(at) = schema.table_named(b"office") else {
        return false;
    };
    let Some(table) = schema.tables.as_slice().get(at) else {
        return false;
    };
    table.column_named(b"id").is_some()
        && table.column_named(b"version").is_some()
        && table.column_named(b"max_deposits").is_some()
        && table.column_named(b"max_holds").is_some()
}

/// Finds by the table `office` whether the database is an office whose tables are of the newest version. No answer changes a row, as
/// long as the connection is open.
///
/// Fails with `NotAnOffice` where there is no table `office` with its columns, or no row 1 in it of whole numbers with limits from
/// 1 to 1,000,000; with `OtherVersion` where that row has another version (of several, the first by version counts); with `Memory` or
/// `Store`.
pub fn open_tables<S: Alter>(conn: &mut Connection<S>) -> Result<()>
    requires outside { (state S.Store conn.old).in_transaction ≡ false }
    ensures outside { (state S.Store conn.new).in_transaction ≡ false }
    ensures survives { Survives (state S.Store conn.old) (state S.Store conn.new) (λ _. ⊥) }
    ensures same { HasCleanDisk (state S.Store conn.new)
        → HasSameTables (state S.Store conn.old) (state S.Store conn.new) }
    ensures opened { HasCleanDisk (state S.Store conn.new)
        → OnOk result
        (IsTrue (has_office (state S.Store conn.old).now.schema)
        × HasVersion (state S.Store conn.old).now this_version) }
    ensures not_office { HasCleanDisk (state S.Store conn.new) → result ≡ Err TableFault.NotAnOffice
        → NotAnOffice (state S.Store conn.old).now }
    ensures other_version { HasCleanDisk (state S.Store conn.new)
        → result ≡ Err TableFault.OtherVersion
        → HasOtherVersion (state S.Store conn.old).now this_version }
    ensures no_table { has_office (state S.Store conn.old).now.schema ≡ false
        → result ≡ Err TableFault.NotAnOffice }
    ensures untouched { has_office (state S.Store conn.old).now.schema ≡ false
        → conn.new ≡ conn.old }
    // Where the tables are an office's of any known version, it says so of what they tell.
    ensures known { HasCleanDisk (state S.Store conn.new)
        → OnOk result
        ((version : TableVersion) → IsOfficeAt version (state S.Store conn.old).now
        → version_of (tables_at version (state S.Store conn.old).now) ≡ Some this_version) }
    ensures unknown { HasCleanDisk (state S.Store conn.new) → (version : TableVersion)
        → IsOfficeAt version (state S.Store conn.old).now → result ≡ Err TableFault.NotAnOffice
        → version_of (tables_at version (state S.Store conn.old).now) ≡ None }
    ensures known_as_other { HasCleanDisk (state S.Store conn.new) → (version : TableVersion)
        → IsOfficeAt version (state S.Store conn.old).now → result ≡ Err TableFault.OtherVersion
        → IsKnownAsOther (tables_at version (state S.Store conn.old).now) this_version }
{
    // What the connection says of its state.
    let _is_settled = conn.is_autocommit();
    if !has_office(conn.schema()) {
        return Err(TableFault::NotAnOffice);
    }
    let mut tx = conn.transaction();
    let seen = version_told(&mut tx);
    tx.rollback();
    match seen {
        Ok(Some(version)) if version == NEWEST_VERSION => Ok(()),
        Ok(Some(_)) => Err(TableFault::OtherVersion),
        Ok(None) => Err(TableFault::NotAnOffice),
        Err(failure) => Err(failure),
    }
}

/// How many deposits and holds an office may have at most.
#[derive(Clone, Copy, Debug, PartialEq, Eq)]
pub struct OfficeLimits {
    pub max_deposits: u32,
    pub max_holds: u32,
}

/// The row that shows the limits.
fn rows_of_limits<S: Alter>(tx: &mut Transaction<'_, S>) -> Result<Vec<Row>>
    ensures inside { GoesOnInside S.Store tx.old.conn tx.new.conn result }
    ensures found { Shows S.Store tx.old.conn.now tx.new.conn.now result (λ tables rows.
        limits_of tables ≡ option_map shown_limits (slice_get rows.items 0)) }
    ensures store { FailsInStore S.Store tx.old.conn.now tx.new.conn.now result }
{
    ask(
        tx,
        "SELECT max_deposits, max_holds FROM office WHERE id = ?1",
        params![1u32],
    )
}

/// The limit in that column of a row.
///
/// Fails with `Store`.
fn limit_in(row: &Row, at: usize) -> Result<u32>
    ensures shown { IfOk result (λ limit. pos limit ≡ int_at row.now at) }
    ensures store { IfErr result (λ fault. fault ≡ TableFault.Store) }
{
    let Ok(ValueRef::Int(number)) = row.get_ref(at) else {
        return Err(TableFault::Store);
    };
    match u32::try_from(number) {
        Ok(limit) => Ok(limit),
        Err(_) => Err(TableFault::Store),
    }
}

/// The limits of the office.
///
/// Fails with `Store` where it has none that fit, and with `Memory` or `Store`.
pub fn limits<S: Alter>(tx: &mut Transaction<'_, S>) -> Result<OfficeLimits>
    ensures inside { GoesOnInside S.Store tx.old.conn tx.new.conn result }
    ensures same { Keeps S.Store tx.old.conn.now tx.new.conn.now result }
    ensures found { Tells S.Store tx.old.conn.now tx.new.conn.now result (λ tables limits.
        limits_of tables
        ≡ Some
        (record { max_deposits = pos limits.max_deposits; max_holds = pos limits.max_holds })) }
    ensures store { FailsInStore S.Store tx.old.conn.now tx.new.conn.now result }
{
    let rows = rows_of_limits(tx)?;
    let Some(row) = rows.first() else {
        return Err(TableFault::Store);
    };
    Ok(OfficeLimits {
        max_deposits: limit_in(row, 0)?,
        max_holds: limit_in(row, 1)?,
    })
}
