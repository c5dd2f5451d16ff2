//! Making an office.

ghost use Rattle.std.specs.Prelude.{pos, [], ◌≡◌, ◌≢◌, Err, false, map, IfErr, OnOk, OnErr, IsTrue};
ghost use Rattle.sqlite.specs.Schema.{Schema};
ghost use Rattle.sqlite.specs.Tree.{Trees};
ghost use Rattle.sqlite.specs.State.{HasCleanDisk, Survives};
ghost use Rattle.sqlite.specs.Held.{state};
ghost use Rattle.sql_meaning.specs.Making.{Builds};
ghost use Rattle.sql_meaning.specs.Growing.{Grows};
ghost use Rattle.sql_meaning.specs.Whole.{IsBlank, IsWhole};
ghost use Rattle.office_contents.specs.Calls.{GoesOnInTurn, GoesOnInside};
ghost use Rattle.office_contents.specs.Faults.{IsFailure};
ghost use Rattle.office_contents.specs.Schema.{no_schema, office_schema};
ghost use Rattle.office_rows.specs.Rows.{this_version, empty_office, IsLimit};
ghost use Rattle.office_contents.specs.Tables.{Becomes};
ghost use Rattle.office_tables.specs.Opening.{HasSameTables, IsMade, IsMadeLeft};
ghost use Rattle.office_contents.specs.Contents.{StoresOnce};

use crate::opening::OfficeLimits;
use office_contents::{NEWEST_VERSION, Result, TableFault, change};
use sqlite::{Alter, Connection, Transaction, params};
use sqlite_schema::schema::Schema;

/// Runs CREATE texts in turn, in a database without rows or with some.
pub(crate) fn define<S: Alter>(tx: &mut Transaction<'_, S>, texts: &[&str]) -> Result<()>
    ensures inside { GoesOnInTurn S.Store tx.old.conn tx.new.conn result }
    ensures made { HasCleanDisk (state S.Store tx.new.conn.now)
        → OnOk result
        ((before after : Schema) → Builds before (map (λ t. t.now) texts.now) after
        → IsBlank before (state S.Store tx.old.conn.now).now
        → IsBlank after (state S.Store tx.new.conn.now).now) }
    ensures grown { HasCleanDisk (state S.Store tx.new.conn.now)
        → OnOk result
        ((before after : Schema) → Builds before (map (λ t. t.now) texts.now) after
        → IsWhole before (state S.Store tx.old.conn.now).now
        → Grows before after (state S.Store tx.old.conn.now).now
        (state S.Store tx.new.conn.now).now) }
{
    for text in texts {
        change(tx, text, &[])?;
    }
    Ok(())
}

/// Makes the eleven tables and their indexes in an empty database, in the order in which versions came to have them.
fn define_tables<S: Alter>(tx: &mut Transaction<'_, S>) -> Result<()>
    ensures inside { GoesOnInTurn S.Store tx.old.conn tx.new.conn result }
    ensures made { HasCleanDisk (state S.Store tx.new.conn.now)
        → (state S.Store tx.old.conn.now).now.schema ≡ no_schema
        → OnOk result (IsBlank office_schema (state S.Store tx.new.conn.now).now) }
{
    define(
        tx,
        &[
            "CREATE TABLE office (id INTEGER PRIMARY KEY, version INTEGER NOT NULL, max_deposits INTEGER NOT NULL, max_holds INTEGER NOT NULL) STRICT",
            "CREATE TABLE caller (name TEXT NOT NULL PRIMARY KEY, role TEXT NOT NULL) STRICT",
            "CREATE TABLE rule (place INTEGER PRIMARY KEY, effect INTEGER NOT NULL, role TEXT NOT NULL, action TEXT NOT NULL, collection TEXT NOT NULL, class TEXT NOT NULL) STRICT",
            "CREATE TABLE class (name TEXT NOT NULL PRIMARY KEY, years INTEGER NOT NULL) STRICT",
            "CREATE TABLE collection (name TEXT NOT NULL PRIMARY KEY) STRICT",
            "CREATE TABLE deposit (number INTEGER PRIMARY KEY, accession TEXT NOT NULL UNIQUE, collection TEXT NOT NULL REFERENCES collection (name), class TEXT NOT NULL REFERENCES class (name), closed INTEGER NOT NULL, deposited INTEGER NOT NULL, files INTEGER NOT NULL, bytes INTEGER NOT NULL, gone INTEGER, due INTEGER, holds INTEGER NOT NULL) STRICT",
            "CREATE TABLE file (deposit INTEGER NOT NULL, path TEXT NOT NULL, content INTEGER NOT NULL REFERENCES content (id), PRIMARY KEY (deposit, path)) STRICT",
            "CREATE TABLE hold (number INTEGER PRIMARY KEY, deposit INTEGER, collection TEXT, matter TEXT NOT NULL, placed INTEGER NOT NULL, released INTEGER) STRICT",
            "CREATE TABLE content (id INTEGER PRIMARY KEY, mark BLOB NOT NULL, size INTEGER NOT NULL, bytes BLOB NOT NULL) STRICT",
            "CREATE INDEX hold_deposit ON hold (deposit)",
            "CREATE INDEX hold_collection ON hold (collection)",
            "CREATE INDEX file_content ON file (content)",
            "CREATE INDEX content_mark ON content (mark)",
            "CREATE INDEX deposit_due ON deposit (due)",
            "CREATE TABLE hold_4 (number INTEGER PRIMARY KEY, deposit INTEGER, collection TEXT, class TEXT, matter TEXT NOT NULL, placed INTEGER NOT NULL, released INTEGER) STRICT",
            "CREATE INDEX hold_4_deposit ON hold_4 (deposit)",
            "CREATE INDEX hold_4_collection ON hold_4 (collection)",
            "CREATE INDEX hold_4_class ON hold_4 (class)",
            "CREATE TABLE rule_5 (place INTEGER PRIMARY KEY, effect INTEGER NOT NULL, role TEXT NOT NULL, action TEXT NOT NULL, collection TEXT NOT NULL, class TEXT NOT NULL, first INTEGER NOT NULL, last INTEGER NOT NULL) STRICT",
        ],
    )
}

/// Adds the row of the office.
fn start<S: Alter>(tx: &mut Transaction<'_, S>, limits: OfficeLimits) -> Result<usize>
    ensures inside { GoesOnInside S.Store tx.old.conn tx.new.conn result }
    ensures becomes { HasCleanDisk (state S.Store tx.new.conn.now)
        → IsBlank office_schema (state S.Store tx.old.conn.now).now
        → OnOk result
        (Becomes (state S.Store tx.new.conn.now).now
        (empty_office this_version (pos limits.max_deposits) (pos limits.max_holds))) }
    ensures once { HasCleanDisk (state S.Store tx.new.conn.now)
        → IsBlank office_schema (state S.Store tx.old.conn.now).now
        → OnOk result (StoresOnce (state S.Store tx.new.conn.now).now) }
{
    change(
        tx,
        "INSERT INTO office (id, version, max_deposits, max_holds) VALUES (1, ?1, ?2, ?3)",
        params![NEWEST_VERSION, limits.max_deposits, limits.max_holds],
    )
}

/// Makes the tables in an empty database, with the row of the office.
fn make_office<S: Alter>(tx: &mut Transaction<'_, S>, limits: OfficeLimits) -> Result<()>
    ensures inside { GoesOnInTurn S.Store tx.old.conn tx.new.conn result }
    ensures opened { HasCleanDisk (state S.Store tx.new.conn.now)
        → OnOk result (IsTrue (state S.Store tx.new.conn.now).is_open) }
    ensures becomes { HasCleanDisk (state S.Store tx.new.conn.now)
        → (state S.Store tx.old.conn.now).now.schema ≡ no_schema
        → OnOk result
        (Becomes (state S.Store tx.new.conn.now).now
        (empty_office this_version (pos limits.max_deposits) (pos limits.max_holds))) }
    ensures once { HasCleanDisk (state S.Store tx.new.conn.now)
        → (state S.Store tx.old.conn.now).now.schema ≡ no_schema
        → OnOk result (StoresOnce (state S.Store tx.new.conn.now).now) }
{
    define_tables(tx)?;
    start(tx, limits)?;
    Ok(())
}

fn is_empty(schema: &Schema) -> bool
    ensures empty { IsTrue result → schema.now ≡ no_schema }
    ensures full { result ≡ false → schema.now ≢ no_schema }
{
    schema.tables.as_slice().is_empty()
        && schema.indexes.as_slice().is_empty()
        && schema.views.as_slice().is_empty()
}

/// Makes the office in an empty database: its tables and its row, in one transaction with one commit.
/// `max_deposits` and `max_holds` are how many deposits and holds it may have, each from 1 to 1,000,000.
///
/// Fails with `Store` where the database isn't empty, which then is just as it was, and with `Memory` or `Store`: then the tables
/// are as they were, as long as the connection is open, and a crash leaves the empty office or what it could leave before.
pub fn create<S: Alter>(conn: &mut Connection<S>, max_deposits: u32, max_holds: u32) -> Result<()>
    requires outside { (state S.Store conn.old).in_transaction ≡ false }
    requires deposits { IsLimit (pos max_deposits) }
    requires holds { IsLimit (pos max_holds) }
    ensures outside { (state S.Store conn.new).in_transaction ≡ false }
    ensures survives { Survives (state S.Store conn.old) (state S.Store conn.new)
        (IsMadeLeft (empty_office this_version (pos max_deposits) (pos max_holds))) }
    ensures made { HasCleanDisk (state S.Store conn.new)
        → OnOk result
        (IsMade (state S.Store conn.new)
        (empty_office this_version (pos max_deposits) (pos max_holds))) }
    ensures durable { HasCleanDisk (state S.Store conn.new)
        → OnOk result
        ((db : Trees) → (state S.Store conn.new).may_leave db
        → IsMadeLeft (empty_office this_version (pos max_deposits) (pos max_holds)) db) }
    ensures refused { HasCleanDisk (state S.Store conn.new)
        → OnErr result (HasSameTables (state S.Store conn.old) (state S.Store conn.new)) }
    ensures failure { IfErr result IsFailure }
    ensures not_empty { (state S.Store conn.old).now.schema ≢ no_schema
        → result ≡ Err TableFault.Store }
    ensures untouched { (state S.Store conn.old).now.schema ≢ no_schema → conn.new ≡ conn.old }
{
    // What the connection says of its state.
    let _is_settled = conn.is_autocommit();
    if !is_empty(conn.schema()) {
        return Err(TableFault::Store);
    }
    let limits = OfficeLimits {
        max_deposits,
        max_holds,
    };
    let mut tx = conn.transaction();
    if let Err(stopped) = make_office(&mut tx, limits) {
        tx.rollback();
        return Err(stopped);
    }
    match tx.commit() {
        Ok(()) => Ok(()),
        Err(error) => Err(TableFault::from(error)),
    }
}
