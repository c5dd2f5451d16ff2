//! The deposits that a caller may destroy on a day.

ghost use Rattle.std.specs.Prelude.{◌≡◌, ℕ, List, Some};
ghost use Rattle.jiff.specs.Types.{Date};
ghost use Rattle.office_core.specs.declared.action.Action.TheVariants as acts;
ghost use Rattle.office_core.specs.declared.request.Request.TheVariants as requests;
ghost use Rattle.office_contents.specs.Calls.{GoesOnInTurn, GoesOnInside, Shows};
ghost use Rattle.office_by_rows.specs.Answers.{due_list, disposable_told};
ghost use Rattle.office_by_rows.specs.Values.{things_told};
ghost use Rattle.office_access.specs.Asking.{role_name, visit_on};
ghost use Rattle.office_queries.specs.Allowances.{AreFor};
ghost use Rattle.office_queries.specs.Reading.{ServesReading};

use crate::allowances::Allowances;
use office_access::{Asker, due_numbered};
use office_core::{Action, Answer, Day, Sequence};
use office_tables::{DisposableRow, TableFault, due_rows};
use sqlite::{Alter, Transaction};
use std::alloc::Global;

/// The number of the deposit that is there, where the rules let the asker destroy it. The due day is read,
/// allowed or not, so that none is passed over that is out of range.
fn allowed_number<'a, S: Alter>(
    tx: &mut Transaction<'_, S>,
    allowances: &mut Allowances<'a>,
    row: &'a DisposableRow,
) -> Result<Option<u32>, TableFault>
    ensures inside { GoesOnInTurn S.Store tx.old.conn tx.new.conn result }
    ensures reads { Shows S.Store tx.old.conn.now tx.new.conn.now result (λ tables number.
        (role : List ℕ) (day : Date) → AreFor tables role day acts.Dispose allowances.old
        → AreFor tables role day acts.Dispose allowances.new
        × (disposable_told tables role day row.now ≡ Some number)) }
{
    due_numbered(row.due)?;
    let allowed = allowances.allows(tx, &row.collection, &row.class)?;
    Ok(allowed.then_some(row.number))
}

/// The numbers of those that the rules let the asker destroy.
fn allowed_among<S: Alter>(
    alloc: Global,
    tx: &mut Transaction<'_, S>,
    asker: &Asker,
    rows: &[DisposableRow],
) -> Result<Vec<u32>, TableFault>
    ensures inside { GoesOnInTurn S.Store tx.old.conn tx.new.conn result }
    ensures reads { Shows S.Store tx.old.conn.now tx.new.conn.now result (λ tables numbers.
        things_told (disposable_told tables (role_name asker.now) asker.now.day) rows.now
        ≡ Some numbers.items) }
{
    let mut allowances = Allowances::read(alloc, tx, asker, Action::Dispose)?;
    let mut numbers = Vec::new(alloc);
    for row in rows {
        if let Some(number) = allowed_number(tx, &mut allowances, row)? {
            numbers.push(number)?;
        }
    }
    Ok(numbers)
}

/// The numbers of the deposits that the caller may destroy on that day, ascending: those whose
/// disposal would be accepted.
///
/// Fails with `Memory` or `Store`.
pub fn due_numbers<S: Alter>(
    alloc: Global,
    tx: &mut Transaction<'_, S>,
    day: Day,
    caller: &str,
) -> Result<Vec<u32>, TableFault>
    ensures inside { GoesOnInside S.Store tx.old.conn tx.new.conn result }
    ensures reads { Shows S.Store tx.old.conn.now tx.new.conn.now result (λ tables numbers.
        due_list tables (visit_on day caller.now) ≡ Some numbers.items) }
{
    let asker = Asker::read(tx, day, caller)?;
    let rows = due_rows(alloc, tx, day.number() as i64)?;
    allowed_among(alloc, tx, &asker, &rows)
}

/// Answers the numbers of the deposits that the caller may destroy on that day.
///
/// Fails with `Memory` or `Store`.
pub fn due_list<S: Alter>(
    alloc: Global,
    tx: &mut Transaction<'_, S>,
    day: Day,
    caller: &str,
) -> Result<Answer, TableFault>
    ensures inside { GoesOnInside S.Store tx.old.conn tx.new.conn result }
    ensures serves { ServesReading S.Store tx.old.conn.now tx.new.conn.now result
        (visit_on day caller.now) requests.DueList }
{
    let numbers = due_numbers(alloc, tx, day, caller)?;
    Ok(Answer::DueList {
        day,
        deposits: Sequence::of(numbers),
    })
}
