//! What speaks against the destruction of a deposit: its due day, and the holds that cover it.

ghost use Rattle.std.specs.Prelude.{◌≡◌, MatchOption, ℕ, Some, [], pos};
ghost use Rattle.office_rows.specs.Rows.{due_numbered, live_holds};
ghost use Rattle.office_contents.specs.Calls.{FailsInStore, GoesOnInTurn, GoesOnInside, Shows};
ghost use Rattle.office_contents.specs.Contents.{RefusesIf};
ghost use Rattle.office_contents.specs.Tables.{tables_of};
ghost use Rattle.office_by_rows.specs.Asking.{counted_hold_in, least_hold_in};
ghost use Rattle.office_by_rows.specs.Refusals.{disposal_facts};
ghost use Rattle.office_tables.specs.Failing.{FailsInStoreIf};
ghost use Rattle.office_access.specs.Asking.{FindsNoHold, IsKeptCount, IsMiscounted, role_name};

use crate::asker::Asker;
use crate::deposits::days_in;
use crate::holds::{holds_over, told_hold};
use crate::rows::{check_between, due_numbered, there};
use office_core::{Action, Facts};
use office_tables::{DepositRow, DueRow, TableFault, due_row, limits};
use sqlite::{Alter, Transaction};
use std::alloc::Global;

/// The least live hold that covers the deposit of that number, which is of that collection and that class. Its
/// row is read, so that no hold is named that isn't one.
///
/// Fails with `Memory` or `Store`.
pub fn least_hold<S: Alter>(
    alloc: Global,
    tx: &mut Transaction<'_, S>,
    number: u32,
    collection: &str,
    class: &str,
) -> Result<Option<u32>, TableFault>
    ensures inside { GoesOnInside S.Store tx.old.conn tx.new.conn result }
    // Where none is found, none covers it.
    ensures reads { Shows S.Store tx.old.conn.now tx.new.conn.now result (λ tables found.
        MatchOption found (live_holds (pos number) collection.now class.now tables ≡ []) (λ k.
        least_hold_in tables number collection.now class.now ≡ Some k)) }
    ensures store { FailsInStoreIf S.Store tx.old.conn.now tx.new.conn.now result
        (FindsNoHold number collection.now class.now) }
{
    let holds = holds_over(alloc, tx, number, collection, class)?;
    let Some(least) = holds.first().copied() else {
        return Ok(None);
    };
    told_hold(alloc, tx, least)?;
    Ok(Some(least))
}

/// The due row of the deposit of that number.
///
/// Fails with `Memory` or `Store`.
pub fn stored_due_row<S: Alter>(
    tx: &mut Transaction<'_, S>,
    number: u32,
) -> Result<DueRow, TableFault>
    ensures inside { GoesOnInside S.Store tx.old.conn tx.new.conn result }
    ensures reads { Shows S.Store tx.old.conn.now tx.new.conn.now result (λ tables due_row.
        Some due_row ≡ due_numbered (pos number) tables.dues) }
{
    let found = due_row(tx, number)?;
    there(found)
}

/// That a count of live holds is one that an office keeps of a deposit that is held: at least 1, and no more
/// than it takes.
#[tactic(auto, using(office_contents::proofs::InTurn::inside_as))]
fn check_count<S: Alter>(tx: &mut Transaction<'_, S>, count: i64) -> Result<(), TableFault>
    ensures inside { GoesOnInside S.Store tx.old.conn tx.new.conn result }
    ensures reads { Shows S.Store tx.old.conn.now tx.new.conn.now result (λ tables _.
        IsKeptCount count tables) }
    ensures store { FailsInStore S.Store tx.old.conn.now tx.new.conn.now result }
{
    let limits = limits(tx)?;
    check_between(count, 1, limits.max_holds)
}

/// The least live hold that covers the deposit of that number, which is of that collection and that class and
/// covered by this number of holds. The holds are asked only where there are some, and one has to be found then.
fn counted_hold<S: Alter>(
    alloc: Global,
    tx: &mut Transaction<'_, S>,
    count: i64,
    number: u32,
    collection: &str,
    class: &str,
) -> Result<Option<u32>, TableFault>
    ensures inside { GoesOnInTurn S.Store tx.old.conn tx.new.conn result }
    ensures reads { Shows S.Store tx.old.conn.now tx.new.conn.now result (λ tables found.
        counted_hold_in tables count number collection.now class.now ≡ Some found) }
    ensures store { RefusesIf S.Store tx.old.conn.now tx.new.conn.now result (λ old.
        IsMiscounted count number collection.now class.now (tables_of old)) }
{
    if count == 0 {
        return Ok(None);
    }
    check_count(tx, count)?;
    let found = least_hold(alloc, tx, number, collection, class)?;
    let hold = there(found)?;
    Ok(Some(hold))
}

/// What is known of the disposal of the deposit that has this row, by the rules of the asker's day.
///
/// Fails with `Memory` or `Store`.
pub fn disposal_facts<S: Alter>(
    alloc: Global,
    tx: &mut Transaction<'_, S>,
    asker: &Asker,
    row: &DepositRow,
) -> Result<Facts, TableFault>
    ensures inside { GoesOnInside S.Store tx.old.conn tx.new.conn result }
    ensures reads { Shows S.Store tx.old.conn.now tx.new.conn.now result (λ tables facts.
        (n : ℕ) → pos n ≡ row.now.number
        → disposal_facts tables (role_name asker.now) asker.now.day n row.now ≡ Some facts) }
{
    let days = days_in(row)?;
    let decision = asker.decision(tx, Action::Dispose, Some(&row.collection), Some(&row.class))?;
    let due_row = stored_due_row(tx, row.number)?;
    let due = due_numbered(due_row.due)?;
    let hold = counted_hold(
        alloc,
        tx,
        due_row.holds,
        row.number,
        &row.collection,
        &row.class,
    )?;
    Ok(Facts {
        action: Action::Dispose,
        decision,
        gone: days.gone,
        hold,
        due,
    })
}
