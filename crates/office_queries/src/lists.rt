//! Lists of deposits.

ghost use Rattle.std.specs.Prelude.{◌≡◌, List, Some, ℕ, option_copied};
ghost use Rattle.jiff.specs.Types.{Date};
ghost use Rattle.office_core.specs.declared.action.Action.TheVariants as acts;
ghost use Rattle.office_core.specs.declared.request.Request.TheVariants as requests;
ghost use Rattle.office_contents.specs.Calls.{GoesOnInTurn, GoesOnInside, Shows};
ghost use Rattle.office_history.specs.Answers.{is_selected};
ghost use Rattle.office_by_rows.specs.Answers.{is_shown, is_wanted, listed_record};
ghost use Rattle.office_by_rows.specs.Values.{things_told};
ghost use Rattle.office_access.specs.Asking.{role_name, visit_on};
ghost use Rattle.office_queries.specs.Reading.{ServesReading};
ghost use Rattle.office_queries.specs.Allowances.{AreFor};
ghost use Rattle.office_queries.specs.Listing.{wanted_of};

use crate::allowances::Allowances;
use crate::records::record_in;
use office_access::{Asker, optional_day_numbered};
use office_core::{Action, Answer, Day, DepositRecord, Name, Sequence};
use office_tables::{DepositAndDue, DepositRow, TableFault, deposits_and_dues};
use sqlite::{Alter, Transaction};
use std::alloc::Global;

/// Whether the name is the one that is asked for, or none is asked for.
fn is_selected(only: Option<&Name<'_>>, name: &str) -> bool
    ensures { result ≡ is_selected (option_copied only.entry) name.now }
{
    match only {
        Some(only) => only.as_str() == name,
        None => true,
    }
}

/// Whether the deposit of the row is of the collection and the class that are asked for.
fn is_wanted(row: &DepositRow, collection: Option<&Name<'_>>, class: Option<&Name<'_>>) -> bool
    ensures { result ≡ is_wanted (wanted_of collection.entry class.entry) row.now }
{
    is_selected(collection, &row.collection) && is_selected(class, &row.class)
}

/// Whether the deposit of the row is kept, and the caller may list it.
fn is_shown<'a, S: Alter>(
    tx: &mut Transaction<'_, S>,
    allowances: &mut Allowances<'a>,
    collection: Option<&Name<'_>>,
    class: Option<&Name<'_>>,
    row: &'a DepositRow,
) -> Result<bool, TableFault>
    ensures inside { GoesOnInTurn S.Store tx.old.conn tx.new.conn result }
    ensures reads { Shows S.Store tx.old.conn.now tx.new.conn.now result (λ tables is.
        (role : List ℕ) (day : Date) → AreFor tables role day acts.List allowances.old
        → AreFor tables role day acts.List allowances.new
        × (is_shown tables role day (wanted_of collection.entry class.entry) row.now
        ≡ Some is)) }
{
    if !is_wanted(row, collection, class) {
        return Ok(false);
    }
    // Also of a deposit that was destroyed the day has to be one.
    if optional_day_numbered(row.gone)?.is_some() {
        return Ok(false);
    }
    allowances.allows(tx, &row.collection, &row.class)
}

/// The record of the deposit of the row, where the caller may list it.
fn shown_record<'a, S: Alter>(
    alloc: Global,
    tx: &mut Transaction<'_, S>,
    allowances: &mut Allowances<'a>,
    collection: Option<&Name<'_>>,
    class: Option<&Name<'_>>,
    row: &'a DepositAndDue,
) -> Result<Option<DepositRecord>, TableFault>
    ensures inside { GoesOnInTurn S.Store tx.old.conn tx.new.conn result }
    ensures reads { Shows S.Store tx.old.conn.now tx.new.conn.now result (λ tables told.
        (role : List ℕ) (day : Date) → AreFor tables role day acts.List allowances.old
        → AreFor tables role day acts.List allowances.new
        × (listed_record tables role day (wanted_of collection.entry class.entry) row.now
        ≡ Some told)) }
{
    if is_shown(tx, allowances, collection, class, &row.deposit)? {
        Ok(Some(record_in(alloc, &row.deposit, &row.due_row)?))
    } else {
        Ok(None)
    }
}

/// The records of the deposits among the rows that the asker may list.
fn shown_among<S: Alter>(
    alloc: Global,
    tx: &mut Transaction<'_, S>,
    asker: &Asker,
    collection: Option<&Name<'_>>,
    class: Option<&Name<'_>>,
    rows: &[DepositAndDue],
) -> Result<Vec<DepositRecord>, TableFault>
    ensures inside { GoesOnInTurn S.Store tx.old.conn tx.new.conn result }
    ensures reads { Shows S.Store tx.old.conn.now tx.new.conn.now result (λ tables told.
        things_told
        (listed_record tables (role_name asker.now) asker.now.day
        (wanted_of collection.entry class.entry)) rows.now
        ≡ Some told.items) }
{
    let mut allowances = Allowances::read(alloc, tx, asker, Action::List)?;
    let mut told = Vec::new(alloc);
    for row in rows {
        if let Some(record) = shown_record(alloc, tx, &mut allowances, collection, class, row)? {
            told.push(record)?;
        }
    }
    Ok(told)
}

/// Answers the records of the kept deposits that the caller may list on that day, ascending: of that collection
/// and that class, where one is named.
///
/// Fails with `Memory` or `Store`.
#[tactic(auto, using(crate::proofs::Calls::calls))]
pub fn list<S: Alter>(
    alloc: Global,
    tx: &mut Transaction<'_, S>,
    day: Day,
    caller: &str,
    collection: Option<&Name<'_>>,
    class: Option<&Name<'_>>,
) -> Result<Answer, TableFault>
    ensures inside { GoesOnInside S.Store tx.old.conn tx.new.conn result }
    ensures serves { ServesReading S.Store tx.old.conn.now tx.new.conn.now result
        (visit_on day caller.now)
        (requests.List (option_copied collection.entry) (option_copied class.entry)) }
{
    let asker = Asker::read(tx, day, caller)?;
    let rows = deposits_and_dues(alloc, tx)?;
    let told = shown_among(alloc, tx, &asker, collection, class, &rows)?;
    Ok(Answer::List {
        deposits: Sequence::of(told),
    })
}
