//! When deposits fall due, and how many live holds cover each.

ghost use Rattle.std.specs.Prelude.{◌≡◌, Some, None, pos, option_map, slice_get, map};
ghost use Rattle.office_rows.specs.Rows.{beside, due_numbered, is_of_class, is_within, with_due, with_dues, with_holds, with_more_holds, with_more_holds_class};
ghost use Rattle.office_rows.specs.Told.{disposable_rows, class_closings};
ghost use Rattle.office_contents.specs.Calls.{GoesOnInside, Keeps, Shows, Tells, Writes};
ghost use Rattle.office_contents.specs.Contents.{LeavesContents, LeavesOnce};
ghost use Rattle.office_tables.specs.Dues.{shown_due, shown_beside, shown_disposable, shown_closing, FitMore, dues_of};

use crate::deposits::DepositRow;
use crate::rows::{Shown, read_all, read_first};
use office_contents::{Result, ask, change};
use sqlite::{Alter, Row, Transaction, params};
use std::alloc::Global;
use std::marker::Model;

/// The due row of a deposit: when it falls due, and how many live holds cover it.
#[derive(Debug, Drop)]
pub struct DueRow {
    pub number: u32,
    /// The day from which it may be destroyed; `None` where it is kept permanently.
    pub due: Option<i64>,
    /// How many live holds cover it.
    pub holds: i64,
}

impl Model for DueRow {
    ghost use Rattle.std.specs.Prelude.{ℤ, Option, refl, pos};
    ghost use Rattle.std.specs.Coded.{code_by, coded×, coded_option, coded_ℤ};
    ghost use Rattle.office_rows.specs.Rows.{DueRow as Due};

    ghost Value = { Due };

    ghost coded = { code_by (ℤ × (Option ℤ × ℤ)) (coded× coded_ℤ (coded× (coded_option coded_ℤ) coded_ℤ)) (λ (d : Due). (d.number, (d.due, d.holds))) (λ p. record { number = p.0; due = p.1.0; holds = p.1.1 }) (λ _. refl) };

    ghost view = { λ d. record { number = pos d.number; due = d.due; holds = d.holds } };
}

/// The row of a deposit, and its due row.
#[derive(Debug, Drop)]
pub struct DepositAndDue {
    pub deposit: DepositRow,
    pub due_row: DueRow,
}

impl Model for DepositAndDue {
    ghost use Rattle.office_rows.specs.Rows.{DepositRow as Deposit, DueRow as Due};

    ghost Value = { Deposit × Due };

    ghost view = { λ d. (d.deposit, d.due_row) };
}

/// The collection and the class of a deposit, and when it falls due.
#[derive(Debug, Drop)]
pub struct DisposableRow {
    pub number: u32,
    pub collection: String,
    pub class: String,
    /// The day from which it may be destroyed; `None` where it is kept permanently.
    pub due: Option<i64>,
}

impl Model for DisposableRow {
    ghost use Rattle.std.specs.Prelude.{List, ℕ, ℤ, Option, string_bytes, refl, pos};
    ghost use Rattle.std.specs.Coded.{code_by, coded×, coded_list, coded_option, coded_ℕ, coded_ℤ};
    ghost use Rattle.office_rows.specs.Told.{DisposableRow as Disposable};

    ghost Value = { Disposable };

    ghost coded = { code_by (ℤ × (List ℕ × (List ℕ × Option ℤ))) (coded× coded_ℤ (coded× (coded_list coded_ℕ) (coded× (coded_list coded_ℕ) (coded_option coded_ℤ)))) (λ (d : Disposable). (d.number, (d.collection, (d.class, d.due)))) (λ p. record { number = p.0; collection = p.1.0; class = p.1.1.0; due = p.1.1.1 }) (λ _. refl) };

    ghost view = { λ d. record { number = pos d.number; collection = string_bytes d.collection; class = string_bytes d.class; due = d.due } };
}

/// When the records of a deposit were closed.
#[derive(Debug, Drop)]
pub struct ClosingRow {
    pub number: u32,
    pub closed: i64,
}

impl Model for ClosingRow {
    ghost use Rattle.std.specs.Prelude.{ℤ, refl, pos};
    ghost use Rattle.std.specs.Coded.{code_by, coded×, coded_ℤ};
    ghost use Rattle.office_rows.specs.Told.{ClosingRow as Closing};

    ghost Value = { Closing };

    ghost coded = { code_by (ℤ × ℤ) (coded× coded_ℤ coded_ℤ) (λ (d : Closing). (d.number, d.closed)) (λ p. record { number = p.0; closed = p.1 }) (λ _. refl) };

    ghost view = { λ d. record { number = pos d.number; closed = d.closed } };
}

/// The row that shows the due row of the deposit of that number, if there is one.
fn rows_of_due<S: Alter>(tx: &mut Transaction<'_, S>, number: u32) -> Result<Vec<Row>>
    ensures inside { GoesOnInside S.Store tx.old.conn tx.new.conn result }
    ensures found { Shows S.Store tx.old.conn.now tx.new.conn.now result (λ tables rows.
        due_numbered (pos number) tables.dues ≡ option_map shown_due (slice_get rows.items 0)) }
{
    ask(
        tx,
        "SELECT number, due, holds FROM deposit WHERE number = ?1",
        params![number],
    )
}

impl Shown for DueRow {
    ghost shown_in = { shown_due };

    fn read(row: &Row) -> Result<DueRow> {
        Ok(DueRow {
            number: row.get(0)?,
            due: row.get(1)?,
            holds: row.get(2)?,
        })
    }
}

/// The due row of the deposit of that number; `None` where there is no such deposit.
///
/// Fails with `Memory` or `Store`.
pub fn due_row<S: Alter>(tx: &mut Transaction<'_, S>, number: u32) -> Result<Option<DueRow>>
    ensures inside { GoesOnInside S.Store tx.old.conn tx.new.conn result }
    ensures same { Keeps S.Store tx.old.conn.now tx.new.conn.now result }
    ensures found { Tells S.Store tx.old.conn.now tx.new.conn.now result (λ tables found.
        found ≡ due_numbered (pos number) tables.dues) }
{
    let rows = rows_of_due(tx, number)?;
    read_first(&rows)
}

/// The rows that show every deposit with its due row, by number.
fn rows_beside<S: Alter>(tx: &mut Transaction<'_, S>) -> Result<Vec<Row>>
    ensures inside { GoesOnInside S.Store tx.old.conn tx.new.conn result }
    ensures found { Shows S.Store tx.old.conn.now tx.new.conn.now result (λ tables rows.
        beside tables.deposits tables.dues ≡ map shown_beside rows.items) }
{
    ask(
        tx,
        "SELECT number, accession, collection, class, closed, deposited, files, bytes, gone, due, holds FROM deposit ORDER BY number",
        &[],
    )
}

impl Shown for DepositAndDue {
    ghost shown_in = { shown_beside };

    fn read(row: &Row) -> Result<DepositAndDue> {
        Ok(DepositAndDue {
            deposit: DepositRow::read(row)?,
            due_row: DueRow {
                number: row.get(0)?,
                due: row.get(9)?,
                holds: row.get(10)?,
            },
        })
    }
}

/// The rows of all deposits, each with its due row, by number.
///
/// Fails with `Memory` or `Store`.
pub fn deposits_and_dues<S: Alter>(
    alloc: Global,
    tx: &mut Transaction<'_, S>,
) -> Result<Vec<DepositAndDue>>
    ensures inside { GoesOnInside S.Store tx.old.conn tx.new.conn result }
    ensures same { Keeps S.Store tx.old.conn.now tx.new.conn.now result }
    ensures found { Tells S.Store tx.old.conn.now tx.new.conn.now result (λ tables rows.
        rows.items ≡ beside tables.deposits tables.dues) }
{
    let rows = rows_beside(tx)?;
    read_all(alloc, &rows)
}

/// Sets the day from which the deposit of that number may be destroyed.
fn set_day<S: Alter>(tx: &mut Transaction<'_, S>, number: u32, day: i64) -> Result<()>
    ensures inside { GoesOnInside S.Store tx.old.conn tx.new.conn result }
    ensures becomes { Writes S.Store tx.old.conn.now tx.new.conn.now result
        (with_due (pos number) (Some day)) }
    ensures contents { LeavesContents S.Store tx.old.conn.now tx.new.conn.now result }
{
    change(
        tx,
        "UPDATE deposit SET due = ?2 WHERE number = ?1",
        params![number, day],
    )?;
    Ok(())
}

/// Notes that the deposit of that number is kept permanently.
fn clear_day<S: Alter>(tx: &mut Transaction<'_, S>, number: u32) -> Result<()>
    ensures inside { GoesOnInside S.Store tx.old.conn tx.new.conn result }
    ensures becomes { Writes S.Store tx.old.conn.now tx.new.conn.now result
        (with_due (pos number) None) }
    ensures contents { LeavesContents S.Store tx.old.conn.now tx.new.conn.now result }
{
    change(
        tx,
        "UPDATE deposit SET due = NULL WHERE number = ?1",
        params![number],
    )?;
    Ok(())
}

/// Sets the day from which the deposit of that number may be destroyed, or that it is kept permanently; where
/// there is no such deposit, nothing changes.
///
/// Fails with `Memory` or `Store`.
pub fn set_due<S: Alter>(tx: &mut Transaction<'_, S>, number: u32, due: Option<i64>) -> Result<()>
    ensures inside { GoesOnInside S.Store tx.old.conn tx.new.conn result }
    ensures becomes { Writes S.Store tx.old.conn.now tx.new.conn.now result
        (with_due (pos number) due) }
    ensures contents { LeavesContents S.Store tx.old.conn.now tx.new.conn.now result }
    ensures once { LeavesOnce S.Store tx.old.conn.now tx.new.conn.now result }
{
    match due {
        Some(day) => set_day(tx, number, day),
        None => clear_day(tx, number),
    }
}

/// Sets the day from which the deposits of these numbers may be destroyed.
fn set_days<S: Alter>(tx: &mut Transaction<'_, S>, first: u32, last: u32, day: i64) -> Result<()>
    ensures inside { GoesOnInside S.Store tx.old.conn tx.new.conn result }
    ensures becomes { Writes S.Store tx.old.conn.now tx.new.conn.now result
        (with_dues (pos first) (pos last) (Some day)) }
    ensures contents { LeavesContents S.Store tx.old.conn.now tx.new.conn.now result }
{
    change(
        tx,
        "UPDATE deposit SET due = ?3 WHERE number BETWEEN ?1 AND ?2",
        params![first, last, day],
    )?;
    Ok(())
}

/// Notes that the deposits of these numbers are kept permanently.
fn clear_days<S: Alter>(tx: &mut Transaction<'_, S>, first: u32, last: u32) -> Result<()>
    ensures inside { GoesOnInside S.Store tx.old.conn tx.new.conn result }
    ensures becomes { Writes S.Store tx.old.conn.now tx.new.conn.now result
        (with_dues (pos first) (pos last) None) }
    ensures contents { LeavesContents S.Store tx.old.conn.now tx.new.conn.now result }
{
    change(
        tx,
        "UPDATE deposit SET due = NULL WHERE number BETWEEN ?1 AND ?2",
        params![first, last],
    )?;
    Ok(())
}

/// Sets the day from which each deposit from the first number to the last, both included, may be destroyed, or that
/// it is kept permanently.
///
/// Fails with `Memory` or `Store`.
pub fn set_dues<S: Alter>(
    tx: &mut Transaction<'_, S>,
    first: u32,
    last: u32,
    due: Option<i64>,
) -> Result<()>
    ensures inside { GoesOnInside S.Store tx.old.conn tx.new.conn result }
    ensures becomes { Writes S.Store tx.old.conn.now tx.new.conn.now result
        (with_dues (pos first) (pos last) due) }
    ensures contents { LeavesContents S.Store tx.old.conn.now tx.new.conn.now result }
    ensures once { LeavesOnce S.Store tx.old.conn.now tx.new.conn.now result }
{
    match due {
        Some(day) => set_days(tx, first, last, day),
        None => clear_days(tx, first, last),
    }
}

/// Sets how many live holds cover the deposit of that number; where there is no such deposit, nothing
/// changes.
///
/// Fails with `Memory` or `Store`.
pub fn set_holds<S: Alter>(tx: &mut Transaction<'_, S>, number: u32, holds: i64) -> Result<()>
    ensures inside { GoesOnInside S.Store tx.old.conn tx.new.conn result }
    ensures becomes { Writes S.Store tx.old.conn.now tx.new.conn.now result
        (with_holds (pos number) holds) }
    ensures contents { LeavesContents S.Store tx.old.conn.now tx.new.conn.now result }
    ensures once { LeavesOnce S.Store tx.old.conn.now tx.new.conn.now result }
{
    change(
        tx,
        "UPDATE deposit SET holds = ?2 WHERE number = ?1",
        params![number, holds],
    )?;
    Ok(())
}

/// Counts as many more live holds over each deposit of the collection.
///
/// Fails with `Memory` or `Store`, and with `Store` where a count would leave 64 bits.
pub fn add_holds<S: Alter>(tx: &mut Transaction<'_, S>, collection: &str, by: i64) -> Result<()>
    ensures inside { GoesOnInside S.Store tx.old.conn tx.new.conn result }
    ensures becomes { Writes S.Store tx.old.conn.now tx.new.conn.now result
        (with_more_holds collection.now by) }
    ensures fits { Tells S.Store tx.old.conn.now tx.new.conn.now result (λ tables _.
        FitMore by (dues_of (is_within collection.now) tables)) }
    ensures contents { LeavesContents S.Store tx.old.conn.now tx.new.conn.now result }
    ensures once { LeavesOnce S.Store tx.old.conn.now tx.new.conn.now result }
{
    change(
        tx,
        "UPDATE deposit SET holds = CASE WHEN typeof(holds + ?2) = 'integer' THEN holds + ?2 END WHERE collection = ?1",
        params![collection, by],
    )?;
    Ok(())
}

/// Counts as many more live holds over each deposit of the class.
///
/// Fails with `Memory` or `Store`, and with `Store` where a count would leave 64 bits.
pub fn add_holds_class<S: Alter>(tx: &mut Transaction<'_, S>, class: &str, by: i64) -> Result<()>
    ensures inside { GoesOnInside S.Store tx.old.conn tx.new.conn result }
    ensures becomes { Writes S.Store tx.old.conn.now tx.new.conn.now result
        (with_more_holds_class class.now by) }
    ensures fits { Tells S.Store tx.old.conn.now tx.new.conn.now result (λ tables _.
        FitMore by (dues_of (is_of_class class.now) tables)) }
    ensures contents { LeavesContents S.Store tx.old.conn.now tx.new.conn.now result }
    ensures once { LeavesOnce S.Store tx.old.conn.now tx.new.conn.now result }
{
    change(
        tx,
        "UPDATE deposit SET holds = CASE WHEN typeof(holds + ?2) = 'integer' THEN holds + ?2 END WHERE class = ?1",
        params![class, by],
    )?;
    Ok(())
}

/// The rows that show the deposits that may be destroyed on that day, whatever the rules of the policy say.
fn rows_due<S: Alter>(tx: &mut Transaction<'_, S>, day: i64) -> Result<Vec<Row>>
    ensures inside { GoesOnInside S.Store tx.old.conn tx.new.conn result }
    ensures found { Shows S.Store tx.old.conn.now tx.new.conn.now result (λ tables rows.
        disposable_rows day tables ≡ map shown_disposable rows.items) }
{
    ask(
        tx,
        "SELECT number, collection, class, due FROM deposit WHERE gone IS NULL AND holds = 0 AND due >= ?2 AND due <= ?1 ORDER BY number",
        params![day, i64::MIN],
    )
}

impl Shown for DisposableRow {
    ghost shown_in = { shown_disposable };

    fn read(row: &Row) -> Result<DisposableRow> {
        Ok(DisposableRow {
            number: row.get(0)?,
            collection: row.get(1)?,
            class: row.get(2)?,
            due: row.get(3)?,
        })
    }
}

/// The kept deposits that no live hold covers and that have fallen due by that day, by number.
///
/// Fails with `Memory` or `Store`.
pub fn due_rows<S: Alter>(
    alloc: Global,
    tx: &mut Transaction<'_, S>,
    day: i64,
) -> Result<Vec<DisposableRow>>
    ensures inside { GoesOnInside S.Store tx.old.conn tx.new.conn result }
    ensures same { Keeps S.Store tx.old.conn.now tx.new.conn.now result }
    ensures found { Tells S.Store tx.old.conn.now tx.new.conn.now result (λ tables rows.
        rows.items ≡ disposable_rows day tables) }
{
    let rows = rows_due(tx, day)?;
    read_all(alloc, &rows)
}

/// The rows that show the deposits of the class.
fn rows_closed<S: Alter>(tx: &mut Transaction<'_, S>, class: &str) -> Result<Vec<Row>>
    ensures inside { GoesOnInside S.Store tx.old.conn tx.new.conn result }
    ensures found { Shows S.Store tx.old.conn.now tx.new.conn.now result (λ tables rows.
        class_closings class.now tables ≡ map shown_closing rows.items) }
{
    ask(
        tx,
        "SELECT number, closed FROM deposit WHERE class = ?1 ORDER BY number",
        params![class],
    )
}

impl Shown for ClosingRow {
    ghost shown_in = { shown_closing };

    fn read(row: &Row) -> Result<ClosingRow> {
        Ok(ClosingRow {
            number: row.get(0)?,
            closed: row.get(1)?,
        })
    }
}

/// The deposits of the class with their closing days, by number.
///
/// Fails with `Memory` or `Store`.
pub fn rows_of_class<S: Alter>(
    alloc: Global,
    tx: &mut Transaction<'_, S>,
    class: &str,
) -> Result<Vec<ClosingRow>>
    ensures inside { GoesOnInside S.Store tx.old.conn tx.new.conn result }
    ensures same { Keeps S.Store tx.old.conn.now tx.new.conn.now result }
    ensures found { Tells S.Store tx.old.conn.now tx.new.conn.now result (λ tables closings.
        closings.items ≡ class_closings class.now tables) }
{
    let rows = rows_closed(tx, class)?;
    read_all(alloc, &rows)
}
