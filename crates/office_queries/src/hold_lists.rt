//! The live holds that cover a deposit.

ghost use Rattle.std.specs.Prelude.{◌≡◌, Some, map, pos};
ghost use Rattle.office_core.specs.declared.request.Request.TheVariants as requests;
ghost use Rattle.office_rows.specs.Rows.{deposit_numbered};
ghost use Rattle.office_contents.specs.Calls.{GoesOnInTurn, GoesOnInside, Shows};
ghost use Rattle.office_contents.specs.Contents.{Does};
ghost use Rattle.office_contents.specs.Tables.{tables_of};
ghost use Rattle.office_by_rows.specs.Asking.{told_hold, told_holds};
ghost use Rattle.office_by_rows.specs.Values.{all_told};
ghost use Rattle.office_access.specs.Asking.{visit_on};
ghost use Rattle.office_queries.specs.Reading.{IsReadFor, ServesReading};

use office_access::{holds_over, kept_deposit, told_hold};
use office_core::{Action, Answer, Day, LiveHold, Sequence};
use office_tables::{DepositRow, TableFault};
use sqlite::{Alter, Transaction};
use std::alloc::Global;

/// What is told of the holds of these numbers.
#[tactic(auto, using(crate::proofs::Calls::calls_in_turn))]
fn told_each<S: Alter>(
    alloc: Global,
    tx: &mut Transaction<'_, S>,
    numbers: &[u32],
) -> Result<Vec<LiveHold>, TableFault>
    ensures inside { GoesOnInTurn S.Store tx.old.conn tx.new.conn result }
    ensures reads { Shows S.Store tx.old.conn.now tx.new.conn.now result (λ tables told.
        all_told (told_hold tables) (map pos numbers.now) ≡ Some told.items) }
{
    let mut told = Vec::new(alloc);
    for number in numbers {
        told.push(told_hold(alloc, tx, *number)?)?;
    }
    Ok(told)
}

/// What is told of the live holds that cover the deposit of that number, which is of that collection
/// and that class.
#[tactic(auto, using(office_contents::proofs::InTurn::then_in_turn))]
fn told_holds<S: Alter>(
    alloc: Global,
    tx: &mut Transaction<'_, S>,
    number: u32,
    collection: &str,
    class: &str,
) -> Result<Vec<LiveHold>, TableFault>
    ensures inside { GoesOnInside S.Store tx.old.conn tx.new.conn result }
    ensures reads { Shows S.Store tx.old.conn.now tx.new.conn.now result (λ tables told.
        told_holds tables number collection.now class.now ≡ Some told.items) }
{
    let numbers = holds_over(alloc, tx, number, collection, class)?;
    told_each(alloc, tx, &numbers)
}

/// The answer with the live holds that cover the deposit of that number, where it has this row.
///
/// Fails with `Memory` or `Store`.
fn stored_holds<S: Alter>(
    alloc: Global,
    tx: &mut Transaction<'_, S>,
    number: u32,
    row: &DepositRow,
) -> Result<Answer, TableFault>
    ensures inside { GoesOnInside S.Store tx.old.conn tx.new.conn result }
    ensures reads { Does S.Store tx.old.conn.now tx.new.conn.now result (λ old new given.
        deposit_numbered (pos number) (tables_of old).deposits ≡ Some row.now
        → IsReadFor (requests.Holds number) old new given) }
{
    Ok(Answer::Holds {
        holds: Sequence::of(told_holds(alloc, tx, number, &row.collection, &row.class)?),
    })
}

/// Answers the live holds that cover a deposit.
///
/// Fails with `Memory` or `Store`.
#[tactic(auto, using(office_contents::proofs::InTurn::inside_then))]
pub fn holds<S: Alter>(
    alloc: Global,
    tx: &mut Transaction<'_, S>,
    day: Day,
    caller: &str,
    number: u32,
) -> Result<Answer, TableFault>
    ensures inside { GoesOnInside S.Store tx.old.conn tx.new.conn result }
    ensures serves { ServesReading S.Store tx.old.conn.now tx.new.conn.now result
        (visit_on day caller.now) (requests.Holds number) }
{
    match kept_deposit(tx, day, caller, Action::Holds, number)? {
        Ok(row) => stored_holds(alloc, tx, number, &row),
        Err(why) => Ok(Answer::Refused(why)),
    }
}
