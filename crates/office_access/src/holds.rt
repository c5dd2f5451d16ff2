//! What the row of a hold tells.

ghost use Rattle.std.specs.Prelude.{◌≡◌, ◌↔◌, IfErr, IfOk, None, OnErr, Some, map, option_map, pos, true};
ghost use Rattle.office_contents.specs.Faults.{IsFailure};
ghost use Rattle.office_rows.specs.Rows as rows;
ghost use Rattle.office_contents.specs.Calls.{GoesOnInside, Shows};
ghost use Rattle.office_tables.specs.Failing.{FailsInStoreIf};
ghost use Rattle.office_tables.specs.ShownHolds.{held_class, held_collection, held_deposit};
ghost use Rattle.office_by_rows.specs.Asking as by_rows;
ghost use Rattle.office_by_rows.specs.Asking.{are_released_on_days, hold_by, target_of};
ghost use Rattle.office_by_rows.specs.Changes.{count_in};
ghost use Rattle.office_access.specs.Asking.{FindsNoHold};
ghost use Rattle.office_access.specs.Told.{held_target};

use crate::rows::{check_there, day_numbered, text_of_kind, there};
use office_core::{FIRST_DAY_NUMBER, LAST_DAY_NUMBER, LiveHold, Scope};
use office_tables::{HoldRow, HoldTarget, TableFault, has_release_outside, hold_row, live_holds};
use sqlite::{Alter, Transaction};
use std::alloc::Global;

/// What the row of a hold names: a deposit, a collection or a class, and no two of them.
///
/// Fails with `Store`.
pub fn named_in(row: &HoldRow) -> Result<HoldTarget<'_>, TableFault>
    ensures reads { IfOk result (λ named. target_of row.now ≡ Some (held_target named)) }
    ensures none { OnErr result (target_of row.now ≡ None) }
    ensures deposit { IfOk result (λ named. held_deposit named ≡ row.now.deposit) }
    ensures collection { IfOk result (λ named. held_collection named ≡ row.now.collection) }
    ensures class { IfOk result (λ named. held_class named ≡ row.now.class) }
    ensures store { IfErr result (λ fault. fault ≡ TableFault.Store) }
{
    match (row.deposit, &row.collection, &row.class) {
        (Some(number), None, None) => Ok(HoldTarget::Deposit(number)),
        (None, Some(name), None) => Ok(HoldTarget::Collection(name.as_str())),
        (None, None, Some(name)) => Ok(HoldTarget::Class(name.as_str())),
        _ => Err(TableFault::Store),
    }
}

/// Whether what a hold is on is a deposit, a collection or a class.
fn scope_of(named: HoldTarget<'_>) -> Scope
    ensures { Some result
        ≡ by_rows.scope_of (held_deposit named.entry) (held_collection named.entry)
        (held_class named.entry) }
{
    match named {
        HoldTarget::Deposit(_) => Scope::Deposit,
        HoldTarget::Collection(_) => Scope::Collection,
        HoldTarget::Class(_) => Scope::Class,
    }
}

/// What a row tells of its hold.
///
/// Fails with `Memory` or `Store`.
pub fn hold_in(alloc: Global, row: &HoldRow) -> Result<LiveHold, TableFault>
    ensures reads { IfOk result (λ told. hold_by row.now ≡ Some told) }
    // A row that tells of no hold is a fault of the store, and memory is wanted for a hold alone.
    ensures store { IfErr result (λ fault.
        (fault ≡ TableFault.Store) ↔ (hold_by row.now ≡ None)) }
    ensures failure { IfErr result IsFailure }
{
    let number = row.number;
    let named = named_in(row)?;
    let on = scope_of(named);
    let placed = day_numbered(row.placed)?;
    Ok(LiveHold {
        number,
        matter: text_of_kind(alloc, &row.matter)?,
        on,
        placed,
    })
}

/// What is told of the hold of that number.
///
/// Fails with `Memory` or `Store`.
pub fn told_hold<S: Alter>(
    alloc: Global,
    tx: &mut Transaction<'_, S>,
    number: u32,
) -> Result<LiveHold, TableFault>
    ensures inside { GoesOnInside S.Store tx.old.conn tx.new.conn result }
    ensures reads { Shows S.Store tx.old.conn.now tx.new.conn.now result (λ tables told.
        by_rows.told_hold tables (pos number) ≡ Some told) }
{
    let found = hold_row(tx, number)?;
    let row = there(found)?;
    hold_in(alloc, &row)
}

/// The numbers of the live holds that cover the deposit of that number, which is of that collection
/// and that class, by the rows of the holds, ascending. A hold over it with a release on no day of the office
/// is a fault of the store, and no hold that covers nothing.
///
/// Fails with `Memory` or `Store`.
#[tactic(auto, using(office_contents::proofs::InTurn::inside_then))]
pub fn holds_over<S: Alter>(
    alloc: Global,
    tx: &mut Transaction<'_, S>,
    number: u32,
    collection: &str,
    class: &str,
) -> Result<Vec<u32>, TableFault>
    ensures inside { GoesOnInside S.Store tx.old.conn tx.new.conn result }
    ensures reads { Shows S.Store tx.old.conn.now tx.new.conn.now result (λ tables numbers.
        (are_released_on_days number collection.now class.now tables ≡ true)
        × (map pos numbers.items
        ≡ rows.live_holds (pos number) collection.now class.now tables)) }
    // No memory is asked for outside the store before the days are judged, nor where there is no hold to name.
    ensures store { FailsInStoreIf S.Store tx.old.conn.now tx.new.conn.now result
        (FindsNoHold number collection.now class.now) }
{
    let outside = has_release_outside(
        tx,
        number,
        collection,
        class,
        FIRST_DAY_NUMBER as i64,
        LAST_DAY_NUMBER as i64,
    )?;
    check_there(!outside)?;
    live_holds(alloc, tx, number, collection, class)
}

/// How many live holds cover the deposit of that number, which is of that collection and that class, by the
/// rows of the holds.
///
/// Fails with `Memory` or `Store`.
pub fn live_count<S: Alter>(
    alloc: Global,
    tx: &mut Transaction<'_, S>,
    number: u32,
    collection: &str,
    class: &str,
) -> Result<i64, TableFault>
    ensures inside { GoesOnInside S.Store tx.old.conn tx.new.conn result }
    ensures reads { Shows S.Store tx.old.conn.now tx.new.conn.now result (λ tables count.
        Some count
        ≡ option_map pos (count_in tables number collection.now class.now)) }
{
    let holds = holds_over(alloc, tx, number, collection, class)?;
    match i64::try_from(holds.len()) {
        Ok(count) => Ok(count),
        Err(_) => Err(TableFault::Store),
    }
}
