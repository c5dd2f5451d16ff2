//! Holds that are released.

ghost use Rattle.std.specs.Prelude.{◌≡◌, ◌↔◌, IfErr, IfOk, None, Some, negsuc, pos, [], ◌∷◌};
ghost use Rattle.std.specs.Result.{result_err};
ghost use Rattle.jiff.specs.Words.{epoch_day};
ghost use Rattle.office_core.specs.declared.answer.LiveHold.{LiveHold};
ghost use Rattle.office_core.specs.declared.request.Request.TheVariants as requests;
ghost use Rattle.office_rows.specs.Rows.{hold_numbered, with_released};
ghost use Rattle.office_contents.specs.Faults.{IsFailure};
ghost use Rattle.office_contents.specs.Calls.{GoesOnInside, Shows};
ghost use Rattle.office_history.specs.Histories.{OnDeposit};
ghost use Rattle.office_by_rows.specs.Asking.{hold_by};
ghost use Rattle.office_by_rows.specs.Changes.{counted_over};
ghost use Rattle.office_by_rows.specs.Refusals.{first_told, refusal, release_denial_on, released_refusal};
ghost use Rattle.office_access.specs.Asking.{visit_on};
ghost use Rattle.office_access.specs.Serving.{Changes, Serves};
ghost use Rattle.office_access.specs.Told.{held_target};

use crate::asking::name_denial;
use crate::counting::count_over;
use crate::days::stored_day;
use office_access::{denial, hold_in, named_in, optional_day_numbered, there};
use office_core::{Action, Answer, Day, Refusal, Subject};
use office_tables::{HoldRow, HoldTarget, TableFault, deposit_row, end_hold, hold_row};
use sqlite::{Alter, Transaction};
use std::alloc::Global;

/// The refusal where the caller may not release a hold of the deposit of that number, kept or
/// destroyed.
///
/// Fails with `Memory` or `Store`: with `Store` where there is no such deposit.
#[tactic(auto, using(office_contents::proofs::InTurn::inside_then))]
fn deposit_release_denial<S: Alter>(
    tx: &mut Transaction<'_, S>,
    day: Day,
    caller: &str,
    number: u32,
) -> Result<Option<Refusal>, TableFault>
    ensures inside { GoesOnInside S.Store tx.old.conn tx.new.conn result }
    ensures reads { Shows S.Store tx.old.conn.now tx.new.conn.now result (λ tables why.
        release_denial_on tables (visit_on day caller.now) (OnDeposit number) ≡ Some why) }
{
    let found = deposit_row(tx, number)?;
    let deposit = there(found)?;
    denial(
        tx,
        day,
        caller,
        Action::Release,
        Some(&deposit.collection),
        Some(&deposit.class),
    )
}

/// The refusal where the caller may not release a hold of what is named.
///
/// Fails with `Memory` or `Store`: with `Store` where there is nothing that is named so.
fn release_denial<S: Alter>(
    tx: &mut Transaction<'_, S>,
    day: Day,
    caller: &str,
    target: HoldTarget<'_>,
) -> Result<Option<Refusal>, TableFault>
    ensures inside { GoesOnInside S.Store tx.old.conn tx.new.conn result }
    ensures reads { Shows S.Store tx.old.conn.now tx.new.conn.now result (λ tables why.
        release_denial_on tables (visit_on day caller.now) (held_target target.entry)
        ≡ Some why) }
{
    match target {
        HoldTarget::Deposit(number) => deposit_release_denial(tx, day, caller, number),
        HoldTarget::Collection(_) | HoldTarget::Class(_) => {
            let said = name_denial(tx, day, caller, Action::Release, target)?;
            there(said)
        }
    }
}

/// The row of a hold, or the first refusal of its release that applies: that the rules deny it, or that it
/// was released. Where the rules allow it all of the row is read, so that no hold is released that isn't
/// one.
fn unless_refused(
    alloc: Global,
    hold: HoldRow,
    denied: Option<Refusal>,
) -> Result<Result<HoldRow, Refusal>, TableFault>
    ensures failure { IfErr result IsFailure }
    ensures reads { IfOk result (λ found.
        (first_told (Some denied ∷ released_refusal hold ∷ []) ≡ Some (result_err found))
        × IfOk found (λ row. row ≡ hold)) }
    // It fails with `Store` exactly where the rows tell nothing.
    ensures none { IfErr result (λ fault.
        (fault ≡ TableFault.Store)
        ↔ (first_told (Some denied ∷ released_refusal hold ∷ []) ≡ None)) }
    // It wants memory only for a hold: a row that tells of none is a fault of the store.
    ensures memory { IfErr result (λ fault.
        fault ≡ TableFault.Memory → (told : LiveHold) × (hold_by hold ≡ Some told)) }
{
    if let Some(why) = denied {
        return Ok(Err(why));
    }
    let released = optional_day_numbered(hold.released)?;
    hold_in(alloc, &hold)?;
    match released {
        Some(day) => Ok(Err(Refusal::Released(day))),
        None => Ok(Ok(hold)),
    }
}

/// The row of the hold of that number, or the first refusal of its release that applies.
#[tactic(auto, using(office_contents::proofs::InTurn::inside_after))]
fn releasable_hold<S: Alter>(
    alloc: Global,
    tx: &mut Transaction<'_, S>,
    day: Day,
    caller: &str,
    number: u32,
) -> Result<Result<HoldRow, Refusal>, TableFault>
    ensures inside { GoesOnInside S.Store tx.old.conn tx.new.conn result }
    ensures reads { Shows S.Store tx.old.conn.now tx.new.conn.now result (λ tables found.
        (refusal tables (visit_on day caller.now) (requests.Release number)
        ≡ Some (result_err found))
        × IfOk found (λ row. hold_numbered (pos number) tables.holds ≡ Some row)) }
{
    let Some(hold) = hold_row(tx, number)? else {
        return Ok(Err(Refusal::NoSuch(Subject::Hold)));
    };
    let target = named_in(&hold)?;
    let denied = release_denial(tx, day, caller, target)?;
    unless_refused(alloc, hold, denied)
}

/// Ends the live hold of that number, which is on the target, and counts it no more over the deposits that it
/// reached.
fn end<S: Alter>(
    tx: &mut Transaction<'_, S>,
    day: Day,
    number: u32,
    target: HoldTarget<'_>,
) -> Result<(), TableFault>
    ensures inside { GoesOnInside S.Store tx.old.conn tx.new.conn result }
    ensures changes { Changes S.Store tx.old.conn.now tx.new.conn.now result (λ tables.
        counted_over (held_target target.entry) (negsuc 0)
        (with_released (pos number) (epoch_day day) tables)) }
{
    end_hold(tx, number, stored_day(day))?;
    count_over(tx, target, -1)
}

/// Releases a hold.
///
/// Fails with `Memory` or `Store`.
#[tactic(auto, using(office_contents::proofs::InTurn::inside_after, office_contents::proofs::InTurn::inside_failed))]
pub fn release<S: Alter>(
    alloc: Global,
    tx: &mut Transaction<'_, S>,
    day: Day,
    caller: &str,
    hold: u32,
) -> Result<Answer, TableFault>
    ensures inside { GoesOnInside S.Store tx.old.conn tx.new.conn result }
    ensures serves { Serves S.Store tx.old.conn.now tx.new.conn.now result
        (visit_on day caller.now) (requests.Release hold) }
{
    match releasable_hold(alloc, tx, day, caller, hold)? {
        Ok(row) => {
            let target = named_in(&row)?;
            end(tx, day, hold, target)?;
            Ok(Answer::HoldReleased { hold, day })
        }
        Err(why) => Ok(Answer::Refused(why)),
    }
}
