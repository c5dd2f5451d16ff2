//! Holds that are placed on deposits, collections and classes.

ghost use Rattle.std.specs.Prelude.{◌≡◌, IfOk, Some, pos};
ghost use Rattle.std.specs.Result.{result_err};
ghost use Rattle.office_core.specs.declared.request.Request.TheVariants as requests;
ghost use Rattle.office_rows.specs.Rows.{with_hold};
ghost use Rattle.office_contents.specs.Calls.{GoesOnInside, Shows};
ghost use Rattle.office_by_rows.specs.Changes.{counted_over, new_hold};
ghost use Rattle.office_by_rows.specs.Refusals.{first_told, full_of_holds, highest_hold, hold_denials, hold_refusals, number_after};
ghost use Rattle.office_access.specs.Asking.{visit_on};
ghost use Rattle.office_access.specs.Serving.{Changes, Serves};
ghost use Rattle.office_access.specs.Told.{held_target};
ghost use Rattle.office_holds.specs.Targets.{hold_request, subject_of};

use crate::asking::name_denial;
use crate::counting::count_over;
use crate::days::stored_day;
use office_access::{kept_deposit, number_after};
use office_core::{Action, Answer, Day, Matter, Name, Refusal, Subject};
use office_tables::{HoldTarget, TableFault, last_hold, limits, put_hold};
use sqlite::{Alter, Transaction};

/// The number of the next hold, where the office takes one more.
#[tactic(auto, using(office_contents::proofs::InTurn::inside_after, office_contents::proofs::InTurn::inside_failed))]
fn next_hold<S: Alter>(tx: &mut Transaction<'_, S>) -> Result<Result<u32, Refusal>, TableFault>
    ensures inside { GoesOnInside S.Store tx.old.conn tx.new.conn result }
    ensures reads { Shows S.Store tx.old.conn.now tx.new.conn.now result (λ tables numbered.
        (full_of_holds tables ≡ Some (result_err numbered))
        × IfOk numbered (λ number. number_after (highest_hold tables) ≡ Some number)) }
{
    let limits = limits(tx)?;
    let last = last_hold(tx)?;
    Ok(number_after(last, limits.max_holds))
}

/// Places a hold on the target, whose number is to be the next, and counts it over each deposit that it
/// reaches.
fn place_hold<S: Alter>(
    tx: &mut Transaction<'_, S>,
    day: Day,
    number: u32,
    target: HoldTarget<'_>,
    matter: &str,
) -> Result<(), TableFault>
    ensures inside { GoesOnInside S.Store tx.old.conn tx.new.conn result }
    ensures changes { Changes S.Store tx.old.conn.now tx.new.conn.now result (λ tables.
        counted_over (held_target target.entry) (pos 1)
        (with_hold (new_hold number (held_target target.entry) matter.now day) tables)) }
{
    put_hold(tx, number, target, matter, stored_day(day))?;
    count_over(tx, target, 1)
}

/// What is named, as a refusal says that there is none.
fn subject_of(target: HoldTarget<'_>) -> Subject
    ensures { result ≡ subject_of (held_target target.entry) }
{
    match target {
        HoldTarget::Deposit(_) => Subject::Deposit,
        HoldTarget::Collection(_) => Subject::Collection,
        HoldTarget::Class(_) => Subject::Class,
    }
}

/// The refusal where there is nothing that is named so, the caller may not hold it, or it is a deposit that was
/// destroyed.
fn hold_denial<S: Alter>(
    tx: &mut Transaction<'_, S>,
    day: Day,
    caller: &str,
    target: HoldTarget<'_>,
) -> Result<Option<Refusal>, TableFault>
    ensures inside { GoesOnInside S.Store tx.old.conn tx.new.conn result }
    ensures reads { Shows S.Store tx.old.conn.now tx.new.conn.now result (λ tables why.
        first_told (hold_denials tables (visit_on day caller.now) (held_target target.entry))
        ≡ Some why) }
{
    match target {
        HoldTarget::Deposit(number) => {
            Ok(kept_deposit(tx, day, caller, Action::Hold, number)?.err())
        }
        HoldTarget::Collection(_) | HoldTarget::Class(_) => {
            let said = name_denial(tx, day, caller, Action::Hold, target)?;
            Ok(said.unwrap_or(Some(Refusal::NoSuch(subject_of(target)))))
        }
    }
}

/// The number of a hold on the target, where nothing speaks against it.
#[tactic(auto, using(office_contents::proofs::InTurn::inside_then))]
fn number_for_hold<S: Alter>(
    tx: &mut Transaction<'_, S>,
    day: Day,
    caller: &str,
    target: HoldTarget<'_>,
) -> Result<Result<u32, Refusal>, TableFault>
    ensures inside { GoesOnInside S.Store tx.old.conn tx.new.conn result }
    ensures reads { Shows S.Store tx.old.conn.now tx.new.conn.now result (λ tables numbered.
        (first_told (hold_refusals tables (visit_on day caller.now) (held_target target.entry))
        ≡ Some (result_err numbered))
        × IfOk numbered (λ number. number_after (highest_hold tables) ≡ Some number)) }
{
    if let Some(why) = hold_denial(tx, day, caller, target)? {
        return Ok(Err(why));
    }
    next_hold(tx)
}

/// Holds the target: one on a collection or a class holds all its deposits, those that come later too.
#[tactic(auto, using(office_contents::proofs::InTurn::inside_after, office_contents::proofs::InTurn::inside_failed))]
fn hold<S: Alter>(
    tx: &mut Transaction<'_, S>,
    day: Day,
    caller: &str,
    target: HoldTarget<'_>,
    matter: &str,
) -> Result<Answer, TableFault>
    ensures inside { GoesOnInside S.Store tx.old.conn tx.new.conn result }
    ensures serves { Serves S.Store tx.old.conn.now tx.new.conn.now result
        (visit_on day caller.now) (hold_request (held_target target.entry) matter.now) }
{
    match number_for_hold(tx, day, caller, target)? {
        Ok(hold) => {
            place_hold(tx, day, hold, target, matter)?;
            Ok(Answer::HoldPlaced { hold })
        }
        Err(why) => Ok(Answer::Refused(why)),
    }
}

/// Holds a collection: all its deposits, those that come later too.
///
/// Fails with `Memory` or `Store`.
pub fn hold_collection<S: Alter>(
    tx: &mut Transaction<'_, S>,
    day: Day,
    caller: &str,
    name: &Name<'_>,
    matter: &Matter<'_>,
) -> Result<Answer, TableFault>
    ensures inside { GoesOnInside S.Store tx.old.conn tx.new.conn result }
    ensures serves { Serves S.Store tx.old.conn.now tx.new.conn.now result
        (visit_on day caller.now) (requests.HoldCollection name.now matter.now) }
{
    let target = HoldTarget::Collection(name.as_str());
    hold(tx, day, caller, target, matter.as_str())
}

/// Holds a class: all its deposits, those that come later too.
///
/// Fails with `Memory` or `Store`.
pub fn hold_class<S: Alter>(
    tx: &mut Transaction<'_, S>,
    day: Day,
    caller: &str,
    name: &Name<'_>,
    matter: &Matter<'_>,
) -> Result<Answer, TableFault>
    ensures inside { GoesOnInside S.Store tx.old.conn tx.new.conn result }
    ensures serves { Serves S.Store tx.old.conn.now tx.new.conn.now result
        (visit_on day caller.now) (requests.HoldClass name.now matter.now) }
{
    let target = HoldTarget::Class(name.as_str());
    hold(tx, day, caller, target, matter.as_str())
}

/// Holds a deposit.
///
/// Fails with `Memory` or `Store`.
pub fn hold_deposit<S: Alter>(
    tx: &mut Transaction<'_, S>,
    day: Day,
    caller: &str,
    number: u32,
    matter: &Matter<'_>,
) -> Result<Answer, TableFault>
    ensures inside { GoesOnInside S.Store tx.old.conn tx.new.conn result }
    ensures serves { Serves S.Store tx.old.conn.now tx.new.conn.now result
        (visit_on day caller.now) (requests.HoldDeposit number matter.now) }
{
    let target = HoldTarget::Deposit(number);
    hold(tx, day, caller, target, matter.as_str())
}
