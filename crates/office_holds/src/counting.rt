//! How many live holds cover a deposit, after one more or one fewer.

ghost use Rattle.std.specs.Prelude.{◌≡◌, ◌+ℤ◌, ◌&&◌, Err, IfErr, Ok, Some, if◌then◌else◌, pos};
ghost use Rattle.office_rows.specs.Rows.{with_holds};
ghost use Rattle.office_contents.specs.Faults.{IsFailure};
ghost use Rattle.office_contents.specs.Calls.{GoesOnInside, Shows};
ghost use Rattle.office_by_rows.specs.Changes.{counted_on, counted_over};
ghost use Rattle.office_by_rows.specs.Values.{is_between};
ghost use Rattle.office_access.specs.Serving.{Changes};
ghost use Rattle.office_access.specs.Told.{held_target};

use office_access::{check_between, there};
use office_tables::{
    HoldTarget, TableFault, add_holds, add_holds_class, due_row, limits, set_holds,
};
use sqlite::{Alter, Transaction};

/// A count with as many more. Neither is below 0, or above the most that there may be: no office keeps such
/// a count.
///
/// Fails with `Store`.
fn count_with(count: i64, by: i64, most: u32) -> Result<i64, TableFault>
    ensures reads { result
        ≡ (if is_between (pos 0) (pos most) count && is_between (pos 0) (pos most) (count +ℤ by)
        then Ok (count +ℤ by) else Err TableFault.Store) }
    ensures failure { IfErr result IsFailure }
{
    check_between(count, 0, most)?;
    let Some(sum) = count.checked_add(by) else {
        return Err(TableFault::Store);
    };
    check_between(sum, 0, most)?;
    Ok(sum)
}

/// The count of live holds over the deposit of that number, with as many more.
///
/// Fails with `Memory` or `Store`: with `Store` where there is no such deposit, or its count is or would
/// be below 0, or above the holds that the office takes.
#[tactic(auto, using(office_contents::proofs::InTurn::inside_failed))]
fn count_after<S: Alter>(
    tx: &mut Transaction<'_, S>,
    number: u32,
    by: i64,
) -> Result<i64, TableFault>
    ensures inside { GoesOnInside S.Store tx.old.conn tx.new.conn result }
    ensures reads { Shows S.Store tx.old.conn.now tx.new.conn.now result (λ tables count.
        counted_on number by tables ≡ Some (with_holds (pos number) count tables)) }
{
    let limits = limits(tx)?;
    let found = due_row(tx, number)?;
    let row = there(found)?;
    count_with(row.holds, by, limits.max_holds)
}

/// Counts as many more live holds over the deposit of that number.
///
/// Fails with `Memory` or `Store`: with `Store` where there is no such deposit, or its count is or would
/// be below 0, or above the holds that the office takes.
fn count_over_deposit<S: Alter>(
    tx: &mut Transaction<'_, S>,
    number: u32,
    by: i64,
) -> Result<(), TableFault>
    ensures inside { GoesOnInside S.Store tx.old.conn tx.new.conn result }
    ensures changes { Changes S.Store tx.old.conn.now tx.new.conn.now result
        (counted_on number by) }
{
    let holds = count_after(tx, number, by)?;
    set_holds(tx, number, holds)
}

/// Counts as many more live holds over each deposit that a hold on the target reaches.
///
/// Fails with `Memory` or `Store`. A count over one deposit is read before it is changed, the counts over the
/// deposits of a collection or of a class aren't.
pub(crate) fn count_over<S: Alter>(
    tx: &mut Transaction<'_, S>,
    target: HoldTarget<'_>,
    by: i64,
) -> Result<(), TableFault>
    ensures inside { GoesOnInside S.Store tx.old.conn tx.new.conn result }
    ensures changes { Changes S.Store tx.old.conn.now tx.new.conn.now result
        (counted_over (held_target target.entry) by) }
{
    match target {
        HoldTarget::Deposit(number) => count_over_deposit(tx, number, by),
        HoldTarget::Collection(name) => add_holds(tx, name, by),
        HoldTarget::Class(name) => add_holds_class(tx, name, by),
    }
}
