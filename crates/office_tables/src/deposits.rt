//! Deposits.

ghost use Rattle.std.specs.Prelude.{◌≡◌, IsTrue, OnOk, None, pos, option_map, slice_get, map};
ghost use Rattle.sqlite.specs.State.{HasCleanDisk};
ghost use Rattle.sqlite.specs.Held.{state};
ghost use Rattle.sql_meaning.specs.Columns.{int_at};
ghost use Rattle.office_rows.specs.Rows.{deposit_numbered, deposit_by, has_class, has_collection, last_number, with_deposit, with_gone, with_deposit_and_due};
ghost use Rattle.office_contents.specs.Tables.{IsOffice};
ghost use Rattle.office_contents.specs.Contents.{LeavesContents, LeavesOnce};
ghost use Rattle.office_contents.specs.Calls.{GoesOnInside, Keeps, Shows, Tells, Writes};
ghost use Rattle.office_tables.specs.Deposits.{shown_deposit, added_row, IsAdded};

use crate::rows::{Shown, first_number, read_all, read_first};
use office_contents::{Result, ask, change};
use sqlite::{Alter, Row, Transaction, params};
use std::alloc::Global;
use std::marker::Model;

/// A deposit, as its row has it. Days are day numbers, 0 for 1970-01-01.
#[derive(Debug, Drop)]
pub struct DepositRow {
    pub number: u32,
    pub accession: String,
    pub collection: String,
    pub class: String,
    /// The day when the records were closed.
    pub closed: i64,
    /// The day of the deposit.
    pub deposited: i64,
    /// How many files the payload has.
    pub files: i64,
    /// The bytes of these files.
    pub bytes: i64,
    /// The day when it was destroyed.
    pub gone: Option<i64>,
}

impl Model for DepositRow {
    ghost use Rattle.std.specs.Prelude.{List, ℕ, ℤ, Option, string_bytes, refl, pos};
    ghost use Rattle.std.specs.Coded.{code_by, coded×, coded_list, coded_option, coded_ℕ, coded_ℤ};
    ghost use Rattle.office_rows.specs.Rows.{DepositRow as Deposit};

    ghost Value = { Deposit };

    ghost coded = { code_by (ℤ × (List ℕ × (List ℕ × (List ℕ × (ℤ × (ℤ × (ℤ × (ℤ × Option ℤ))))))))
        (coded× coded_ℤ (coded× (coded_list coded_ℕ) (coded× (coded_list coded_ℕ)
        (coded× (coded_list coded_ℕ) (coded× coded_ℤ (coded× coded_ℤ (coded× coded_ℤ
        (coded× coded_ℤ (coded_option coded_ℤ)))))))))
        (λ (d : Deposit). (
          d.number,
          (
            d.accession,
            (
              d.collection,
              (
                d.class,
                (
                  d.closed,
                  (
                    d.deposited,
                    (d.files, (d.bytes, d.gone)),
                  ),
                ),
              ),
            ),
          ),
        ))
        (λ p. record {
          number = p.0;
          accession = p.1.0;
          collection = p.1.1.0;
          class = p.1.1.1.0;
          closed = p.1.1.1.1.0;
          deposited = p.1.1.1.1.1.0;
          files = p.1.1.1.1.1.1.0;
          bytes = p.1.1.1.1.1.1.1.0;
          gone = p.1.1.1.1.1.1.1.1;
        })
        (λ _. refl) };

    ghost view = { λ d. record {
      number = pos d.number;
      accession = string_bytes d.accession;
      collection = string_bytes d.collection;
      class = string_bytes d.class;
      closed = d.closed;
      deposited = d.deposited;
      files = d.files;
      bytes = d.bytes;
      gone = d.gone;
    } };
}

impl Shown for DepositRow {
    ghost shown_in = { shown_deposit };

    fn read(row: &Row) -> Result<DepositRow> {
        Ok(DepositRow {
            number: row.get(0)?,
            accession: row.get(1)?,
            collection: row.get(2)?,
            class: row.get(3)?,
            closed: row.get(4)?,
            deposited: row.get(5)?,
            files: row.get(6)?,
            bytes: row.get(7)?,
            gone: row.get(8)?,
        })
    }
}

/// The row that shows the deposit of that number, if there is one.
fn rows_of_deposit<S: Alter>(tx: &mut Transaction<'_, S>, number: u32) -> Result<Vec<Row>>
    ensures inside { GoesOnInside S.Store tx.old.conn tx.new.conn result }
    ensures found { Shows S.Store tx.old.conn.now tx.new.conn.now result (λ tables rows.
        deposit_numbered (pos number) tables.deposits
        ≡ option_map shown_deposit (slice_get rows.items 0)) }
{
    ask(
        tx,
        "SELECT number, accession, collection, class, closed, deposited, files, bytes, gone FROM deposit WHERE number = ?1",
        params![number],
    )
}

/// The deposit of that number; `None` where there is no such deposit.
///
/// Fails with `Memory` or `Store`.
pub fn deposit_row<S: Alter>(tx: &mut Transaction<'_, S>, number: u32) -> Result<Option<DepositRow>>
    ensures inside { GoesOnInside S.Store tx.old.conn tx.new.conn result }
    ensures same { Keeps S.Store tx.old.conn.now tx.new.conn.now result }
    ensures found { Tells S.Store tx.old.conn.now tx.new.conn.now result (λ tables found.
        found ≡ deposit_numbered (pos number) tables.deposits) }
{
    let rows = rows_of_deposit(tx, number)?;
    read_first(&rows)
}

/// The row that shows the deposit with that accession, if there is one.
fn rows_of_accession<S: Alter>(tx: &mut Transaction<'_, S>, accession: &str) -> Result<Vec<Row>>
    ensures inside { GoesOnInside S.Store tx.old.conn tx.new.conn result }
    ensures found { Shows S.Store tx.old.conn.now tx.new.conn.now result (λ tables rows.
        deposit_by accession.now tables.deposits
        ≡ option_map shown_deposit (slice_get rows.items 0)) }
{
    ask(
        tx,
        "SELECT number, accession, collection, class, closed, deposited, files, bytes, gone FROM deposit WHERE accession = ?1",
        params![accession],
    )
}

/// The deposit with that accession; `None` where there is no such deposit.
///
/// Fails with `Memory` or `Store`.
pub fn by_accession<S: Alter>(
    tx: &mut Transaction<'_, S>,
    accession: &str,
) -> Result<Option<DepositRow>>
    ensures inside { GoesOnInside S.Store tx.old.conn tx.new.conn result }
    ensures same { Keeps S.Store tx.old.conn.now tx.new.conn.now result }
    ensures found { Tells S.Store tx.old.conn.now tx.new.conn.now result (λ tables found.
        found ≡ deposit_by accession.now tables.deposits) }
{
    let rows = rows_of_accession(tx, accession)?;
    read_first(&rows)
}

/// The row that shows the last number, if there is a deposit.
fn rows_of_last<S: Alter>(tx: &mut Transaction<'_, S>) -> Result<Vec<Row>>
    ensures inside { GoesOnInside S.Store tx.old.conn tx.new.conn result }
    ensures found { Shows S.Store tx.old.conn.now tx.new.conn.now result (λ tables rows.
        last_number (λ d. d.number) tables.deposits
        ≡ option_map (λ row. int_at row 0) (slice_get rows.items 0)) }
{
    ask(
        tx,
        "SELECT number FROM deposit ORDER BY number DESC LIMIT 1",
        &[],
    )
}

/// The highest number of a deposit; `None` where there is no deposit.
///
/// Fails with `Memory` or `Store`.
pub fn last_deposit<S: Alter>(tx: &mut Transaction<'_, S>) -> Result<Option<u32>>
    ensures inside { GoesOnInside S.Store tx.old.conn tx.new.conn result }
    ensures same { Keeps S.Store tx.old.conn.now tx.new.conn.now result }
    ensures found { Tells S.Store tx.old.conn.now tx.new.conn.now result (λ tables found.
        option_map pos found ≡ last_number (λ d. d.number) tables.deposits) }
{
    let rows = rows_of_last(tx)?;
    first_number(&rows)
}

/// The rows that show every deposit, by number.
fn rows_of_deposits<S: Alter>(tx: &mut Transaction<'_, S>) -> Result<Vec<Row>>
    ensures inside { GoesOnInside S.Store tx.old.conn tx.new.conn result }
    ensures found { Shows S.Store tx.old.conn.now tx.new.conn.now result (λ tables rows.
        tables.deposits ≡ map shown_deposit rows.items) }
{
    ask(
        tx,
        "SELECT number, accession, collection, class, closed, deposited, files, bytes, gone FROM deposit ORDER BY number",
        &[],
    )
}

/// Every deposit, by number.
///
/// Fails with `Memory` or `Store`.
pub fn deposit_rows<S: Alter>(alloc: Global, tx: &mut Transaction<'_, S>) -> Result<Vec<DepositRow>>
    ensures inside { GoesOnInside S.Store tx.old.conn tx.new.conn result }
    ensures same { Keeps S.Store tx.old.conn.now tx.new.conn.now result }
    ensures found { Tells S.Store tx.old.conn.now tx.new.conn.now result (λ tables all.
        all.items ≡ tables.deposits) }
{
    let rows = rows_of_deposits(tx)?;
    read_all(alloc, &rows)
}

/// A deposit that is to be added. Days are day numbers, 0 for 1970-01-01.
#[derive(Clone, Copy, Debug)]
pub struct NewDeposit<'a> {
    pub number: u32,
    pub accession: &'a str,
    pub collection: &'a str,
    pub class: &'a str,
    /// The day when the records were closed.
    pub closed: i64,
    /// The day of the deposit.
    pub deposited: i64,
    /// How many files the payload has.
    pub files: i64,
    /// How many bytes those files have.
    pub bytes: i64,
}

/// Adds a deposit that isn't destroyed, with its due day and how many live holds cover it.
fn add_deposit<S: Alter>(
    tx: &mut Transaction<'_, S>,
    deposit: NewDeposit<'_>,
    due: Option<i64>,
    holds: i64,
) -> Result<usize>
    ensures inside { GoesOnInside S.Store tx.old.conn tx.new.conn result }
    ensures added { HasCleanDisk (state S.Store tx.new.conn.now)
        → IsOffice (state S.Store tx.old.conn.now).now
        → OnOk result
        (IsAdded (added_row deposit.entry) due holds (state S.Store tx.old.conn.now).now (state S.Store tx.new.conn.now).now) }
    ensures contents { LeavesContents S.Store tx.old.conn.now tx.new.conn.now result }
{
    change(
        tx,
        "INSERT INTO deposit (number, accession, collection, class, closed, deposited, files, bytes, due, holds) VALUES (?1, ?2, ?3, ?4, ?5, ?6, ?7, ?8, ?9, ?10)",
        params![
            deposit.number,
            deposit.accession,
            deposit.collection,
            deposit.class,
            deposit.closed,
            deposit.deposited,
            deposit.files,
            deposit.bytes,
            due,
            holds
        ],
    )
}

/// Adds a deposit, which isn't destroyed, in its place by number.
///
/// Fails with `Store` where there is no such collection or class, or where the accession or the number is taken, and with `Memory`
/// or `Store`.
pub fn put_deposit<S: Alter>(tx: &mut Transaction<'_, S>, deposit: NewDeposit<'_>) -> Result<()>
    ensures inside { GoesOnInside S.Store tx.old.conn tx.new.conn result }
    ensures becomes { Writes S.Store tx.old.conn.now tx.new.conn.now result
        (with_deposit (added_row deposit.entry)) }
    ensures new_number { Tells S.Store tx.old.conn.now tx.new.conn.now result (λ tables _.
        deposit_numbered (pos deposit.entry.number) tables.deposits ≡ None) }
    ensures new_accession { Tells S.Store tx.old.conn.now tx.new.conn.now result (λ tables _.
        deposit_by deposit.entry.accession.now tables.deposits ≡ None) }
    ensures its_collection { Tells S.Store tx.old.conn.now tx.new.conn.now result (λ tables _.
        IsTrue (has_collection deposit.entry.collection.now tables)) }
    ensures its_class { Tells S.Store tx.old.conn.now tx.new.conn.now result (λ tables _.
        IsTrue (has_class deposit.entry.class.now tables)) }
    ensures contents { LeavesContents S.Store tx.old.conn.now tx.new.conn.now result }
    ensures once { LeavesOnce S.Store tx.old.conn.now tx.new.conn.now result }
{
    add_deposit(tx, deposit, None, 0)?;
    Ok(())
}

/// Adds a deposit, which isn't destroyed, in its place by number, with the day from which it may be destroyed, if it isn't kept
/// permanently, and how many live holds cover it.
///
/// Fails with `Store` where there is no such collection or class, or where the accession or the number is taken, and with `Memory`
/// or `Store`.
pub fn put_deposit_and_due<S: Alter>(
    tx: &mut Transaction<'_, S>,
    deposit: NewDeposit<'_>,
    due: Option<i64>,
    holds: i64,
) -> Result<()>
    ensures inside { GoesOnInside S.Store tx.old.conn tx.new.conn result }
    ensures becomes { Writes S.Store tx.old.conn.now tx.new.conn.now result
        (with_deposit_and_due (added_row deposit.entry) due holds) }
    ensures new_number { Tells S.Store tx.old.conn.now tx.new.conn.now result (λ tables _.
        deposit_numbered (pos deposit.entry.number) tables.deposits ≡ None) }
    ensures new_accession { Tells S.Store tx.old.conn.now tx.new.conn.now result (λ tables _.
        deposit_by deposit.entry.accession.now tables.deposits ≡ None) }
    ensures its_collection { Tells S.Store tx.old.conn.now tx.new.conn.now result (λ tables _.
        IsTrue (has_collection deposit.entry.collection.now tables)) }
    ensures its_class { Tells S.Store tx.old.conn.now tx.new.conn.now result (λ tables _.
        IsTrue (has_class deposit.entry.class.now tables)) }
    ensures contents { LeavesContents S.Store tx.old.conn.now tx.new.conn.now result }
    ensures once { LeavesOnce S.Store tx.old.conn.now tx.new.conn.now result }
{
    add_deposit(tx, deposit, due, holds)?;
    Ok(())
}

/// Sets the day when the deposit of that number was destroyed; where there is no such deposit, nothing changes.
///
/// Fails with `Memory` or `Store`.
pub fn mark_gone<S: Alter>(tx: &mut Transaction<'_, S>, number: u32, day: i64) -> Result<()>
    ensures inside { GoesOnInside S.Store tx.old.conn tx.new.conn result }
    ensures becomes { Writes S.Store tx.old.conn.now tx.new.conn.now result
        (with_gone (pos number) day) }
    ensures contents { LeavesContents S.Store tx.old.conn.now tx.new.conn.now result }
    ensures once { LeavesOnce S.Store tx.old.conn.now tx.new.conn.now result }
{
    change(
        tx,
        "UPDATE deposit SET gone = ?2 WHERE number = ?1",
        params![number, day],
    )?;
    Ok(())
}
