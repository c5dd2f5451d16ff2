//! A deposit that is asked for.

ghost use Rattle.std.specs.Prelude.{◌≡◌, IfErr, IfOk, [], ◌∷◌, None, OnErr, Some, pos};
ghost use Rattle.std.specs.Result.{result_err};
ghost use Rattle.office_rows.specs.Rows as rows;
ghost use Rattle.office_contents.specs.Calls.{GoesOnInside, Shows};
ghost use Rattle.office_by_rows.specs.Asking.{days_of};
ghost use Rattle.office_by_rows.specs.Refusals.{first_told, gone_refusal, kept_refusal};
ghost use Rattle.office_access.specs.Asking.{visit_on};
ghost use Rattle.office_access.specs.Told.{told_days};

use crate::asker::denial;
use crate::rows::{day_numbered, optional_day_numbered};
use office_core::{Action, Day, Refusal, Subject};
use office_tables::{DepositRow, TableFault, deposit_row};
use sqlite::{Alter, Transaction};

/// The days of a deposit.
#[derive(Clone, Copy)]
pub struct DepositDays {
    /// The day when the records were closed.
    pub closed: Day,
    /// The day of the deposit.
    pub deposited: Day,
    /// The day when it was destroyed, if it was.
    pub gone: Option<Day>,
}

/// The days that the row of a deposit tells, which are read together: no deposit has a row of which one
/// is no day, or whose records were closed after it was deposited.
///
/// Fails with `Store`.
pub fn days_in(row: &DepositRow) -> Result<DepositDays, TableFault>
    ensures reads { IfOk result (λ days. days_of row.now ≡ Some (told_days days)) }
    ensures none { OnErr result (days_of row.now ≡ None) }
    ensures store { IfErr result (λ fault. fault ≡ TableFault.Store) }
{
    if row.deposited < row.closed {
        return Err(TableFault::Store);
    }
    Ok(DepositDays {
        closed: day_numbered(row.closed)?,
        deposited: day_numbered(row.deposited)?,
        gone: optional_day_numbered(row.gone)?,
    })
}

/// The deposit of that row, where the rules do not deny it and it is kept; else the first refusal that
/// applies.
fn unless_refused(
    deposit: DepositRow,
    denied: Option<Refusal>,
) -> Result<Result<DepositRow, Refusal>, TableFault>
    ensures reads { IfOk result (λ asked.
        (first_told (Some denied ∷ gone_refusal deposit ∷ []) ≡ Some (result_err asked))
        × IfOk asked (λ row. row ≡ deposit)) }
    ensures none { OnErr result (first_told (Some denied ∷ gone_refusal deposit ∷ []) ≡ None) }
    ensures store { IfErr result (λ fault. fault ≡ TableFault.Store) }
{
    if let Some(why) = denied {
        return Ok(Err(why));
    }
    let days = days_in(&deposit)?;
    match days.gone {
        Some(day) => Ok(Err(Refusal::Gone(day))),
        None => Ok(Ok(deposit)),
    }
}

/// The deposit of that number, where the caller may do that with it on that day and it is kept; else
/// the first refusal that applies.
///
/// Fails with `Memory` or `Store`.
pub fn kept_deposit<S: Alter>(
    tx: &mut Transaction<'_, S>,
    day: Day,
    caller: &str,
    action: Action,
    number: u32,
) -> Result<Result<DepositRow, Refusal>, TableFault>
    ensures inside { GoesOnInside S.Store tx.old.conn tx.new.conn result }
    ensures reads { Shows S.Store tx.old.conn.now tx.new.conn.now result (λ tables asked.
        kept_refusal tables (visit_on day caller.now) action number
        ≡ Some (result_err asked)) }
    ensures row { Shows S.Store tx.old.conn.now tx.new.conn.now result (λ tables asked.
        IfOk asked (λ row. rows.deposit_numbered (pos number) tables.deposits ≡ Some row)) }
{
    let Some(deposit) = deposit_row(tx, number)? else {
        return Ok(Err(Refusal::NoSuch(Subject::Deposit)));
    };
    let denied = denial(
        tx,
        day,
        caller,
        action,
        Some(&deposit.collection),
        Some(&deposit.class),
    )?;
    unless_refused(deposit, denied)
}
