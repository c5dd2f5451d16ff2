//! Records of deposits.

ghost use Rattle.std.specs.Prelude.{◌≡◌, IfErr, IfOk, Some, if◌then◌else◌, is_none, pos};
ghost use Rattle.std.specs.Option.{ok_or};
ghost use Rattle.std.specs.Result.{result_ok};
ghost use Rattle.office_core.specs.FirstOf.{answer_if};
ghost use Rattle.office_core.specs.declared.request.Request.TheVariants as requests;
ghost use Rattle.office_rows.specs.Rows.{deposit_numbered};
ghost use Rattle.office_contents.specs.Calls.{GoesOnInside};
ghost use Rattle.office_contents.specs.Contents.{Does};
ghost use Rattle.office_contents.specs.Tables.{tables_of};
ghost use Rattle.office_history.specs.Pictures.{description_of};
ghost use Rattle.office_by_rows.specs.Answers.{has_names, record_by};
ghost use Rattle.office_access.specs.Asking.{visit_on};
ghost use Rattle.office_queries.specs.Reading.{IsReadFor, ServesReading};
ghost use Rattle.office_queries.specs.Records.{record_if_told, record_of};

use crate::counts::count_in;
use bag_text::{MAX_CONTENT, MAX_FILES};
use office_access::{days_in, due_numbered, kept_deposit, stored_due_row, text_read};
use office_core::{Action, Answer, Day, DepositRecord, Description, DescriptionOf, Due};
use office_tables::{DepositRow, DueRow, TableFault};
use sqlite::{Alter, Transaction};
use std::alloc::Global;

/// How many bytes the files of a bag have at most.
const MAX_BYTES: usize = MAX_FILES * MAX_CONTENT;

/// The number, the days and the counts of a deposit.
#[derive(Drop)]
struct DepositFigures {
    number: u32,
    closed: Day,
    deposited: Day,
    files: usize,
    bytes: usize,
    due: Due,
}

/// What the row of a deposit tells beside its names, with its due row.
///
/// Fails with `Store` where that is no record, whatever the names are.
fn figures_in(row: &DepositRow, due_row: &DueRow) -> Result<DepositFigures, TableFault>
    ensures reads { record_by row.now due_row.now ≡ record_if_told (result_ok result) row.now }
    ensures store { IfErr result (λ fault. fault ≡ TableFault.Store) }
{
    let days = days_in(row)?;
    let files = count_in(row.files, MAX_FILES)?;
    let bytes = count_in(row.bytes, MAX_BYTES)?;
    let due = due_numbered(due_row.due)?;
    Ok(DepositFigures {
        number: row.number,
        closed: days.closed,
        deposited: days.deposited,
        files,
        bytes,
        due,
    })
}

/// The description that the row of a deposit has, whose records were closed on that day.
///
/// Fails with `Store` where a name is none.
fn description_in(row: &DepositRow, closed: Day) -> Result<Description<'_>, TableFault>
    ensures { result
        ≡ ok_or (answer_if (has_names row.now) (description_of row.now closed)) TableFault.Store }
{
    let accession = text_read(&row.accession)?;
    let collection = text_read(&row.collection)?;
    let class = text_read(&row.class)?;
    Ok(DescriptionOf {
        collection,
        class,
        accession,
        closed,
    })
}

/// The record of a deposit, with its description owned.
///
/// Fails with `Memory`.
fn owned_record(
    alloc: Global,
    figures: DepositFigures,
    description: Description<'_>,
) -> Result<DepositRecord, TableFault>
    ensures record { IfOk result (λ told. told ≡ record_of figures description.entry) }
    ensures memory { IfErr result (λ fault. fault ≡ TableFault.Memory) }
{
    Ok(DepositRecord {
        number: figures.number,
        description: description.to_owned(alloc)?,
        deposited: figures.deposited,
        files: figures.files,
        bytes: figures.bytes,
        due: figures.due,
    })
}

/// What the row of a deposit tells, with its due row. A row that tells no record is a fault of
/// the store, and memory is wanted for a record alone.
///
/// Fails with `Memory` or `Store`.
pub fn record_in(
    alloc: Global,
    row: &DepositRow,
    due_row: &DueRow,
) -> Result<DepositRecord, TableFault>
    ensures reads { IfOk result (λ told. record_by row.now due_row.now ≡ Some told) }
    ensures failure { IfErr result (λ fault.
        fault
        ≡ (if is_none (record_by row.now due_row.now) then TableFault.Store else TableFault.Memory)) }
{
    let figures = figures_in(row, due_row)?;
    let description = description_in(row, figures.closed)?;
    owned_record(alloc, figures, description)
}

/// The answer with what is told of the deposit of that number, where it has this row.
///
/// Fails with `Memory` or `Store`.
fn stored_record<S: Alter>(
    alloc: Global,
    tx: &mut Transaction<'_, S>,
    number: u32,
    row: &DepositRow,
) -> Result<Answer, TableFault>
    ensures inside { GoesOnInside S.Store tx.old.conn tx.new.conn result }
    ensures reads { Does S.Store tx.old.conn.now tx.new.conn.now result (λ old new given.
        deposit_numbered (pos number) (tables_of old).deposits ≡ Some row.now
        → IsReadFor (requests.Record number) old new given) }
{
    let due_row = stored_due_row(tx, row.number)?;
    Ok(Answer::Record(record_in(alloc, row, &due_row)?))
}

/// Answers the record of a deposit.
///
/// Fails with `Memory` or `Store`.
#[tactic(auto, using(office_contents::proofs::InTurn::inside_then))]
pub fn record<S: Alter>(
    alloc: Global,
    tx: &mut Transaction<'_, S>,
    day: Day,
    caller: &str,
    number: u32,
) -> Result<Answer, TableFault>
    ensures inside { GoesOnInside S.Store tx.old.conn tx.new.conn result }
    ensures serves { ServesReading S.Store tx.old.conn.now tx.new.conn.now result
        (visit_on day caller.now) (requests.Record number) }
{
    match kept_deposit(tx, day, caller, Action::Record, number)? {
        Ok(row) => stored_record(alloc, tx, number, &row),
        Err(why) => Ok(Answer::Refused(why)),
    }
}
