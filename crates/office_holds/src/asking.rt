//! What the rules say of a collection or a class by its name, where there is one.

ghost use Rattle.std.specs.Prelude.{◌≡◌, Some, option_copied};
ghost use Rattle.office_contents.specs.Calls.{GoesOnInside, Shows};
ghost use Rattle.office_history.specs.Pictures.{held_class, held_collection};
ghost use Rattle.office_access.specs.Asking.{visit_on};
ghost use Rattle.office_access.specs.Told.{held_target};
ghost use Rattle.office_holds.specs.Targets.{is_there_in, name_denial};

use office_access::denial;
use office_core::{Action, Day, Refusal};
use office_tables::{HoldTarget, TableFault, class_of, deposit_row, has_collection};
use sqlite::{Alter, Transaction};

/// Whether there is the deposit, the collection or the class that is named.
fn is_there<S: Alter>(
    tx: &mut Transaction<'_, S>,
    target: HoldTarget<'_>,
) -> Result<bool, TableFault>
    ensures inside { GoesOnInside S.Store tx.old.conn tx.new.conn result }
    ensures reads { Shows S.Store tx.old.conn.now tx.new.conn.now result (λ tables found.
        found ≡ is_there_in tables (held_target target.entry)) }
{
    match target {
        HoldTarget::Deposit(number) => Ok(deposit_row(tx, number)?.is_some()),
        HoldTarget::Collection(name) => has_collection(tx, name),
        HoldTarget::Class(name) => Ok(class_of(tx, name)?.is_some()),
    }
}

/// The name of the collection, or of the class, by which the rules are asked.
fn names_of<'a>(target: HoldTarget<'a>) -> (Option<&'a str>, Option<&'a str>)
    ensures collection { option_copied result.0 ≡ held_collection (held_target target.entry) }
    ensures class { option_copied result.1 ≡ held_class (held_target target.entry) }
{
    match target {
        HoldTarget::Deposit(_) => (None, None),
        HoldTarget::Collection(name) => (Some(name), None),
        HoldTarget::Class(name) => (None, Some(name)),
    }
}

/// The refusal, if any, where the rules are asked for that action by the name of the collection or of the class alone;
/// `None` where there is none of that name.
///
/// Fails with `Memory` or `Store`.
#[tactic(auto, using(office_contents::proofs::InTurn::inside_after))]
pub(crate) fn name_denial<S: Alter>(
    tx: &mut Transaction<'_, S>,
    day: Day,
    caller: &str,
    action: Action,
    target: HoldTarget<'_>,
) -> Result<Option<Option<Refusal>>, TableFault>
    ensures inside { GoesOnInside S.Store tx.old.conn tx.new.conn result }
    ensures reads { Shows S.Store tx.old.conn.now tx.new.conn.now result (λ tables said.
        name_denial tables (visit_on day caller.now) action (held_target target.entry)
        ≡ Some said) }
{
    if !is_there(tx, target)? {
        return Ok(None);
    }
    let (collection, class) = names_of(target);
    let why = denial(tx, day, caller, action, collection, class)?;
    Ok(Some(why))
}
