//! Holds.

ghost use Rattle.std.specs.List.{list_any};
ghost use Rattle.std.specs.Prelude.{◌≡◌, ◌≢◌, ℕ, IfErr, OnErr, OnOk, pos, Some, None, true, [], map, filter, ◌++◌, option_map, slice_get};
ghost use Rattle.sql_meaning.specs.Columns.{int_at};
ghost use Rattle.office_contents.specs.Faults.{IsFailure};
ghost use Rattle.office_rows.specs.Rows.{hold_numbered, last_number, with_hold, with_released, live_holds, is_live_on, is_live_within, is_live_of_class};
ghost use Rattle.office_contents.specs.Contents.{LeavesContents, LeavesOnce};
ghost use Rattle.office_contents.specs.Calls.{FailsInStore, GoesOnInside, Keeps, Shows, Tells, Writes};
ghost use Rattle.office_tables.specs.Failing.{FailsInStoreIf};
ghost use Rattle.office_tables.specs.ShownHolds.{shown_hold, placed_row, is_on};
ghost use Rattle.office_tables.specs.Releases.{is_outside_of, is_over};

use crate::rows::{Shown, first_number, number_shown, read_first};
use office_contents::{Result, ask, change};
use sqlite::{Alter, Row, Transaction, params};
use std::alloc::Global;
use std::marker::Model;

/// A hold on a deposit, or on each deposit of a collection or of a class.
#[derive(Debug, Drop)]
pub struct HoldRow {
    pub number: u32,
    /// The number of the deposit that is held.
    pub deposit: Option<u32>,
    /// The name of the collection that is held.
    pub collection: Option<String>,
    /// The name of the class that is held.
    pub class: Option<String>,
    pub matter: String,
    /// The day when it was placed, as a day number.
    pub placed: i64,
    /// The day when it was released, as a day number; `None` while it is live.
    pub released: Option<i64>,
}

impl Model for HoldRow {
    ghost use Rattle.std.specs.Prelude.{List, ℕ, ℤ, Option, option_map, string_bytes, refl, pos};
    ghost use Rattle.std.specs.Coded.{code_by, coded×, coded_list, coded_option, coded_ℕ, coded_ℤ};
    ghost use Rattle.office_rows.specs.Rows.{HoldRow as Hold};

    ghost Value = { Hold };

    ghost coded = { code_by (ℤ × (Option ℤ × (Option (List ℕ) × (Option (List ℕ) × (List ℕ × (ℤ × Option ℤ))))))
        (coded× coded_ℤ (coded× (coded_option coded_ℤ) (coded× (coded_option (coded_list coded_ℕ))
        (coded× (coded_option (coded_list coded_ℕ)) (coded× (coded_list coded_ℕ)
        (coded× coded_ℤ (coded_option coded_ℤ)))))))
        (λ (h : Hold).
        (h.number, (h.deposit, (h.collection, (h.class, (h.matter, (h.placed, h.released)))))))
        (λ p. record {
          number = p.0;
          deposit = p.1.0;
          collection = p.1.1.0;
          class = p.1.1.1.0;
          matter = p.1.1.1.1.0;
          placed = p.1.1.1.1.1.0;
          released = p.1.1.1.1.1.1;
        })
        (λ _. refl) };

    ghost view = { λ h. record {
      number = pos h.number;
      deposit = option_map pos h.deposit;
      collection = option_map string_bytes h.collection;
      class = option_map string_bytes h.class;
      matter = string_bytes h.matter;
      placed = h.placed;
      released = h.released;
    } };
}

impl Shown for HoldRow {
    ghost shown_in = { shown_hold };

    fn read(row: &Row) -> Result<HoldRow> {
        Ok(HoldRow {
            number: row.get(0)?,
            deposit: row.get(1)?,
            collection: row.get(2)?,
            class: row.get(3)?,
            matter: row.get(4)?,
            placed: row.get(5)?,
            released: row.get(6)?,
        })
    }
}

/// The row that shows the hold of that number, if there is one.
fn rows_of_hold<S: Alter>(tx: &mut Transaction<'_, S>, number: u32) -> Result<Vec<Row>>
    ensures inside { GoesOnInside S.Store tx.old.conn tx.new.conn result }
    ensures found { Shows S.Store tx.old.conn.now tx.new.conn.now result (λ tables rows.
        hold_numbered (pos number) tables.holds ≡ option_map shown_hold (slice_get rows.items 0)) }
{
    ask(
        tx,
        "SELECT number, deposit, collection, class, matter, placed, released FROM hold_4 WHERE number = ?1",
        params![number],
    )
}

/// The hold of that number, if there is one.
///
/// Fails with `Memory` or `Store`.
pub fn hold_row<S: Alter>(tx: &mut Transaction<'_, S>, number: u32) -> Result<Option<HoldRow>>
    ensures inside { GoesOnInside S.Store tx.old.conn tx.new.conn result }
    ensures same { Keeps S.Store tx.old.conn.now tx.new.conn.now result }
    ensures found { Tells S.Store tx.old.conn.now tx.new.conn.now result (λ tables found.
        found ≡ hold_numbered (pos number) tables.holds) }
{
    let rows = rows_of_hold(tx, number)?;
    read_first(&rows)
}

/// The row that shows the number of the last hold, if there is one.
fn rows_of_last<S: Alter>(tx: &mut Transaction<'_, S>) -> Result<Vec<Row>>
    ensures inside { GoesOnInside S.Store tx.old.conn tx.new.conn result }
    ensures found { Shows S.Store tx.old.conn.now tx.new.conn.now result (λ tables rows.
        last_number (λ h. h.number) tables.holds
        ≡ option_map (λ row. int_at row 0) (slice_get rows.items 0)) }
{
    ask(
        tx,
        "SELECT number FROM hold_4 ORDER BY number DESC LIMIT 1",
        &[],
    )
}

/// The number of the last hold, which is the highest; `None` where there is no hold.
///
/// Fails with `Memory` or `Store`.
pub fn last_hold<S: Alter>(tx: &mut Transaction<'_, S>) -> Result<Option<u32>>
    ensures inside { GoesOnInside S.Store tx.old.conn tx.new.conn result }
    ensures same { Keeps S.Store tx.old.conn.now tx.new.conn.now result }
    ensures found { Tells S.Store tx.old.conn.now tx.new.conn.now result (λ tables found.
        option_map pos found ≡ last_number (λ h. h.number) tables.holds) }
{
    let rows = rows_of_last(tx)?;
    first_number(&rows)
}

/// What a hold is on.
#[derive(Clone, Copy, Debug, PartialEq, Eq)]
pub enum HoldTarget<'a> {
    /// The deposit of that number.
    Deposit(u32),
    /// Each deposit of the collection of that name.
    Collection(&'a str),
    /// Each deposit of the class of that name.
    Class(&'a str),
}

/// Adds a live hold.
fn add_hold<S: Alter>(
    tx: &mut Transaction<'_, S>,
    number: u32,
    deposit: Option<u32>,
    collection: Option<&str>,
    class: Option<&str>,
    matter: &str,
    placed: i64,
) -> Result<()>
    ensures inside { GoesOnInside S.Store tx.old.conn tx.new.conn result }
    ensures becomes { Writes S.Store tx.old.conn.now tx.new.conn.now result (with_hold (record {
      number = pos number;
      deposit = option_map pos deposit;
      collection = option_map (λ c. c.now) collection.entry;
      class = option_map (λ c. c.now) class.entry;
      matter = matter.now;
      placed = placed;
      released = None;
    })) }
    ensures new_number { Tells S.Store tx.old.conn.now tx.new.conn.now result (λ tables _.
        hold_numbered (pos number) tables.holds ≡ None) }
    ensures contents { LeavesContents S.Store tx.old.conn.now tx.new.conn.now result }
{
    change(
        tx,
        "INSERT INTO hold_4 (number, deposit, collection, class, matter, placed) VALUES (?1, ?2, ?3, ?4, ?5, ?6)",
        params![number, deposit, collection, class, matter, placed],
    )?;
    Ok(())
}

/// Adds a live hold, placed on that day, in its place by number.
///
/// Fails with `Memory` or `Store`, as where there is a hold of that number.
pub fn put_hold<S: Alter>(
    tx: &mut Transaction<'_, S>,
    number: u32,
    target: HoldTarget<'_>,
    matter: &str,
    placed: i64,
) -> Result<()>
    ensures inside { GoesOnInside S.Store tx.old.conn tx.new.conn result }
    ensures becomes { Writes S.Store tx.old.conn.now tx.new.conn.now result
        (with_hold (placed_row target.entry (pos number) matter.now placed)) }
    ensures new_number { Tells S.Store tx.old.conn.now tx.new.conn.now result (λ tables _.
        hold_numbered (pos number) tables.holds ≡ None) }
    ensures contents { LeavesContents S.Store tx.old.conn.now tx.new.conn.now result }
    ensures once { LeavesOnce S.Store tx.old.conn.now tx.new.conn.now result }
{
    match target {
        HoldTarget::Deposit(deposit) => {
            add_hold(tx, number, Some(deposit), None, None, matter, placed)
        }
        HoldTarget::Collection(name) => {
            add_hold(tx, number, None, Some(name), None, matter, placed)
        }
        HoldTarget::Class(name) => add_hold(tx, number, None, None, Some(name), matter, placed),
    }
}

/// Releases the hold of that number on that day; where there is none, nothing changes.
///
/// Fails with `Memory` or `Store`.
pub fn end_hold<S: Alter>(tx: &mut Transaction<'_, S>, number: u32, day: i64) -> Result<()>
    ensures inside { GoesOnInside S.Store tx.old.conn tx.new.conn result }
    ensures becomes { Writes S.Store tx.old.conn.now tx.new.conn.now result
        (with_released (pos number) day) }
    ensures contents { LeavesContents S.Store tx.old.conn.now tx.new.conn.now result }
    ensures once { LeavesOnce S.Store tx.old.conn.now tx.new.conn.now result }
{
    change(
        tx,
        "UPDATE hold_4 SET released = ?2 WHERE number = ?1",
        params![number, day],
    )?;
    Ok(())
}

/// The rows that show the numbers of the live holds on the deposit.
fn rows_of_holds_on<S: Alter>(tx: &mut Transaction<'_, S>, deposit: u32) -> Result<Vec<Row>>
    ensures inside { GoesOnInside S.Store tx.old.conn tx.new.conn result }
    ensures found { Shows S.Store tx.old.conn.now tx.new.conn.now result (λ tables rows.
        map (λ h. h.number) (filter (is_live_on (pos deposit)) tables.holds)
        ≡ map (λ row. int_at row 0) rows.items) }
    ensures store { FailsInStore S.Store tx.old.conn.now tx.new.conn.now result }
{
    ask(
        tx,
        "SELECT number FROM hold_4 WHERE deposit = ?1 AND released IS NULL ORDER BY number",
        params![deposit],
    )
}

/// The rows that show the numbers of the live holds on the collection, without those on the deposit.
fn rows_of_holds_within<S: Alter>(
    tx: &mut Transaction<'_, S>,
    deposit: u32,
    collection: &str,
) -> Result<Vec<Row>>
    ensures inside { GoesOnInside S.Store tx.old.conn tx.new.conn result }
    ensures found { Shows S.Store tx.old.conn.now tx.new.conn.now result (λ tables rows.
        map (λ h. h.number) (filter (is_live_within (pos deposit) collection.now) tables.holds)
        ≡ map (λ row. int_at row 0) rows.items) }
    ensures store { FailsInStore S.Store tx.old.conn.now tx.new.conn.now result }
{
    ask(
        tx,
        "SELECT number FROM hold_4 WHERE collection = ?2 AND deposit IS NOT ?1 AND released IS NULL ORDER BY number",
        params![deposit, collection],
    )
}

/// The rows that show the numbers of the live holds on the class, without those on the deposit or on the
/// collection.
fn rows_of_holds_of_class<S: Alter>(
    tx: &mut Transaction<'_, S>,
    deposit: u32,
    collection: &str,
    class: &str,
) -> Result<Vec<Row>>
    ensures inside { GoesOnInside S.Store tx.old.conn tx.new.conn result }
    ensures found { Shows S.Store tx.old.conn.now tx.new.conn.now result (λ tables rows.
        map (λ h.
        h.number) (filter (is_live_of_class (pos deposit) collection.now class.now) tables.holds)
        ≡ map (λ row. int_at row 0) rows.items) }
    ensures store { FailsInStore S.Store tx.old.conn.now tx.new.conn.now result }
{
    ask(
        tx,
        "SELECT number FROM hold_4 WHERE class = ?3 AND deposit IS NOT ?1 AND collection IS NOT ?2 AND released IS NULL ORDER BY number",
        params![deposit, collection, class],
    )
}

/// Adds the numbers in the first column of the rows.
fn add_numbers(numbers: &mut Vec<u32>, rows: &[Row]) -> Result<()>
    ensures added { OnOk result
        (map pos numbers.new.items
        ≡ map pos numbers.old.items ++ map (λ row. int_at row 0) rows.now) }
    ensures failure { IfErr result IsFailure }
    // No memory is asked for where there is no row.
    ensures some { OnErr result (rows.now ≢ []) }
{
    for row in rows {
        numbers.push(number_shown(row)?)?;
    }
    Ok(())
}

/// The numbers of the live holds on the deposit of that number, on the collection of that name or on the
/// class of that name, ascending.
///
/// Fails with `Memory` or `Store`.
pub fn live_holds<S: Alter>(
    alloc: Global,
    tx: &mut Transaction<'_, S>,
    deposit: u32,
    collection: &str,
    class: &str,
) -> Result<Vec<u32>>
    ensures inside { GoesOnInside S.Store tx.old.conn tx.new.conn result }
    ensures same { Keeps S.Store tx.old.conn.now tx.new.conn.now result }
    ensures found { Tells S.Store tx.old.conn.now tx.new.conn.now result (λ tables numbers.
        map pos numbers.items ≡ live_holds (pos deposit) collection.now class.now tables) }
    // Memory is asked for outside the store only where there is a number to hand on.
    ensures store { FailsInStoreIf S.Store tx.old.conn.now tx.new.conn.now result (λ tables.
        live_holds (pos deposit) collection.now class.now tables ≡ []) }
{
    let on_deposit = rows_of_holds_on(tx, deposit)?;
    let on_collection = rows_of_holds_within(tx, deposit, collection)?;
    let on_class = rows_of_holds_of_class(tx, deposit, collection, class)?;
    let mut numbers = Vec::new(alloc);
    add_numbers(&mut numbers, &on_deposit)?;
    add_numbers(&mut numbers, &on_collection)?;
    add_numbers(&mut numbers, &on_class)?;
    numbers.sort_unstable();
    Ok(numbers)
}

/// A row where some hold on that target has a day of release before the first or after the last of these
/// days, and else none.
fn rows_of_releases<S: Alter>(
    tx: &mut Transaction<'_, S>,
    target: HoldTarget<'_>,
    first: i64,
    last: i64,
) -> Result<Vec<Row>>
    ensures inside { GoesOnInside S.Store tx.old.conn tx.new.conn result }
    ensures found { Shows S.Store tx.old.conn.now tx.new.conn.now result (λ tables rows.
        list_any (is_outside_of (is_on target.entry) first last) tables.holds
        ≡ list_any (λ r. true) rows.items) }
    ensures store { FailsInStore S.Store tx.old.conn.now tx.new.conn.now result }
{
    match target {
        HoldTarget::Deposit(number) => ask(
            tx,
            "SELECT number FROM hold_4 WHERE deposit = ?1 AND (released < ?2 OR released > ?3) LIMIT 1",
            params![number, first, last],
        ),
        HoldTarget::Collection(name) => ask(
            tx,
            "SELECT number FROM hold_4 WHERE collection = ?1 AND (released < ?2 OR released > ?3) LIMIT 1",
            params![name, first, last],
        ),
        HoldTarget::Class(name) => ask(
            tx,
            "SELECT number FROM hold_4 WHERE class = ?1 AND (released < ?2 OR released > ?3) LIMIT 1",
            params![name, first, last],
        ),
    }
}

/// Whether some hold on that target has a day of release before the first or after the last of these days.
fn has_release<S: Alter>(
    tx: &mut Transaction<'_, S>,
    target: HoldTarget<'_>,
    first: i64,
    last: i64,
) -> Result<bool>
    ensures inside { GoesOnInside S.Store tx.old.conn tx.new.conn result }
    ensures found { Shows S.Store tx.old.conn.now tx.new.conn.now result (λ tables found.
        found ≡ list_any (is_outside_of (is_on target.entry) first last) tables.holds) }
    ensures store { FailsInStore S.Store tx.old.conn.now tx.new.conn.now result }
{
    let rows = rows_of_releases(tx, target, first, last)?;
    Ok(!rows.is_empty())
}

/// Whether a hold on the deposit of that number, on the collection of that name or on the class of that name
/// has a day of release before the first or after the last of these days.
///
/// Fails with `Memory` or `Store`.
pub fn has_release_outside<S: Alter>(
    tx: &mut Transaction<'_, S>,
    deposit: u32,
    collection: &str,
    class: &str,
    first: i64,
    last: i64,
) -> Result<bool>
    ensures inside { GoesOnInside S.Store tx.old.conn tx.new.conn result }
    ensures same { Keeps S.Store tx.old.conn.now tx.new.conn.now result }
    ensures found { Tells S.Store tx.old.conn.now tx.new.conn.now result (λ tables found.
        found
        ≡ list_any
        (is_outside_of (is_over (pos deposit) collection.now class.now) first last)
        tables.holds) }
    ensures store { FailsInStore S.Store tx.old.conn.now tx.new.conn.now result }
{
    let on_deposit = has_release(tx, HoldTarget::Deposit(deposit), first, last)?;
    let on_collection = has_release(tx, HoldTarget::Collection(collection), first, last)?;
    let on_class = has_release(tx, HoldTarget::Class(class), first, last)?;
    Ok(on_deposit | on_collection | on_class)
}
