//! Classes.

ghost use Rattle.std.specs.Prelude.{◌≡◌, ◌↔◌, ◌∷◌, ◌+ℤ◌, IsTrue, option_map, pos};
ghost use Rattle.office_core.specs.Retention.{due_number};
ghost use Rattle.office_core.specs.RetentionReading.{due_of};
ghost use Rattle.office_core.specs.declared.request.Request.TheVariants as requests;
ghost use Rattle.office_rows.specs.Rows.{with_dues};
ghost use Rattle.office_rows.specs.Told.{class_closings};
ghost use Rattle.office_contents.specs.Calls.{GoesOnInTurn, GoesOnInside};
ghost use Rattle.office_history.specs.Pictures.{years_number};
ghost use Rattle.office_by_rows.specs.Changes.{with_due_days, with_years};
ghost use Rattle.office_by_rows.specs.Values.{day_numbered};
ghost use Rattle.office_access.specs.Asking.{visit_on};
ghost use Rattle.office_access.specs.Serving.{Changes, Serves};

use office_access::{day_numbered, denial};
use office_core::{Action, Answer, Day, Name, Years, due};
use office_tables::{ClosingRow, TableFault, put_class, rows_of_class, set_dues};
use sqlite::{Alter, Transaction};
use std::alloc::Global;

/// The number in a class's row that means these years: -1 for permanent.
fn years_number(years: Years) -> i64
    ensures { result ≡ years_number years }
{
    match years.count() {
        Some(count) => count as i64,
        None => -1,
    }
}

/// Whether the deposit of the next row has the next number, and was closed on the same day.
fn follows(row: &ClosingRow, next: &ClosingRow) -> bool
    ensures { IsTrue result
        ↔ next.now ≡ record { number = row.now.number +ℤ pos 1; closed = row.now.closed } }
{
    i64::from(next.number) == i64::from(row.number) + 1 && next.closed == row.closed
}

/// Sets the due day of a series: the deposits from the first row's number to the last's, which were closed on
/// one day.
fn set_series<S: Alter>(
    tx: &mut Transaction<'_, S>,
    first: &ClosingRow,
    last: &ClosingRow,
    years: Years,
) -> Result<(), TableFault>
    ensures inside { GoesOnInside S.Store tx.old.conn tx.new.conn result }
    ensures changes { Changes S.Store tx.old.conn.now tx.new.conn.now result (λ tables.
        option_map
        (λ closed.
        with_dues first.now.number last.now.number (due_number (due_of closed years)) tables)
        (day_numbered first.now.closed)) }
{
    let closed = day_numbered(first.closed)?;
    set_dues(tx, first.number, last.number, due(closed, years).number())
}

/// Sets the due days of the deposits of these rows, by one statement for each series of them.
#[tactic(auto, using(office_contents::proofs::InTurn::in_turn, office_contents::proofs::InTurn::turn_then))]
fn set_by_series<S: Alter>(
    tx: &mut Transaction<'_, S>,
    row: &ClosingRow,
    others: &[ClosingRow],
    years: Years,
) -> Result<(), TableFault>
    ensures inside { GoesOnInTurn S.Store tx.old.conn tx.new.conn result }
    ensures changes { Changes S.Store tx.old.conn.now tx.new.conn.now result
        (with_due_days years (row.now ∷ others.now)) }
{
    let (mut first, mut last) = (row, row);
    for next in others {
        if !follows(last, next) {
            set_series(tx, first, last, years)?;
            first = next;
        }
        last = next;
    }
    set_series(tx, first, last, years)
}

/// Sets the due days of the deposits of these rows in turn.
fn set_due_days<S: Alter>(
    tx: &mut Transaction<'_, S>,
    rows: &[ClosingRow],
    years: Years,
) -> Result<(), TableFault>
    ensures inside { GoesOnInTurn S.Store tx.old.conn tx.new.conn result }
    ensures changes { Changes S.Store tx.old.conn.now tx.new.conn.now result
        (with_due_days years rows.now) }
{
    match rows.split_first() {
        Some((row, others)) => set_by_series(tx, row, others, years),
        None => Ok(()),
    }
}

/// Sets the due day of each deposit of the class, destroyed ones too, by the years of the class.
fn set_days_of_class<S: Alter>(
    alloc: Global,
    tx: &mut Transaction<'_, S>,
    class: &str,
    years: Years,
) -> Result<(), TableFault>
    ensures inside { GoesOnInside S.Store tx.old.conn tx.new.conn result }
    ensures changes { Changes S.Store tx.old.conn.now tx.new.conn.now result (λ tables.
        with_due_days years (class_closings class.now tables) tables) }
{
    let rows = rows_of_class(alloc, tx, class)?;
    set_due_days(tx, &rows, years)
}

/// Gives the class those years, and its deposits the due days that follow from them.
#[tactic(auto, using(office_contents::proofs::InTurn::inside_then))]
fn put_years<S: Alter>(
    alloc: Global,
    tx: &mut Transaction<'_, S>,
    name: &str,
    years: Years,
) -> Result<(), TableFault>
    ensures inside { GoesOnInside S.Store tx.old.conn tx.new.conn result }
    ensures changes { Changes S.Store tx.old.conn.now tx.new.conn.now result
        (with_years name.now years) }
{
    put_class(tx, name, years_number(years))?;
    set_days_of_class(alloc, tx, name, years)
}

/// Defines a class, or revises it: the class has those years from now on, also for the deposits that
/// are there.
///
/// Fails with `Memory` or `Store`.
#[tactic(auto, using(office_contents::proofs::InTurn::inside_after, office_contents::proofs::InTurn::inside_failed))]
pub fn define_class<S: Alter>(
    alloc: Global,
    tx: &mut Transaction<'_, S>,
    day: Day,
    caller: &str,
    name: &Name<'_>,
    years: Years,
) -> Result<Answer, TableFault>
    ensures inside { GoesOnInside S.Store tx.old.conn tx.new.conn result }
    ensures serves { Serves S.Store tx.old.conn.now tx.new.conn.now result
        (visit_on day caller.now) (requests.DefineClass name.now years) }
{
    if let Some(why) = denial(tx, day, caller, Action::Class, None, Some(name.as_str()))? {
        return Ok(Answer::Refused(why));
    }
    put_years(alloc, tx, name.as_str(), years)?;
    Ok(Answer::Class {
        name: name.to_owned(alloc)?,
        years,
    })
}
