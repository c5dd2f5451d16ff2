//! Audits: the bag of a deposit is made of what is stored, and checked again.

ghost use Rattle.std.specs.Prelude.{◌≡◌, IfErr, IfOk, map};
ghost use Rattle.bag_text.specs.FaultTexts.{set_fault_text};
ghost use Rattle.bag_text.specs.declared.set_fault.SetFault.TheVariants as faults;
ghost use Rattle.office_core.specs.declared.answer.AuditReport.TheVariants.{Invalid};
ghost use Rattle.office_core.specs.declared.request.Request.TheVariants as requests;
ghost use Rattle.office_contents.specs.Calls.{GoesOnInside};
ghost use Rattle.office_contents.specs.Contents.{Does};
ghost use Rattle.office_by_rows.specs.Answers.{audit_of, file_in};
ghost use Rattle.office_access.specs.Asking.{visit_on};
ghost use Rattle.office_queries.specs.Reading.{IsReadFor, ServesReading};

use crate::bags::pairs_of;
use bag_text::laws::one_list_fault;
use bag_text::{BagSet, SetFault};
use office_access::kept_deposit;
use office_core::{Action, Answer, AuditReport, Day};
use office_history::judging;
use office_tables::{FileRow, TableFault, files_of};
use sqlite::{Alter, Transaction};
use std::alloc::Global;

/// The audit of files that are refused with that fault, which is none of theirs where memory ran out.
///
/// Fails with `Memory`.
fn audit_of_fault(alloc: Global, fault: SetFault) -> Result<AuditReport, TableFault>
    ensures report { IfOk result (λ report.
        (fault ≡ faults.Memory → ⊥) × (report ≡ Invalid (set_fault_text fault))) }
    ensures memory { IfErr result (λ fault. fault ≡ TableFault.Memory) }
{
    match fault {
        SetFault::Memory => Err(TableFault::Memory),
        _ => Ok(AuditReport::Invalid(judging::set_fault_text(alloc, fault)?)),
    }
}

/// The audit of the files of the rows, which never fails for what they are.
///
/// Fails with `Memory`.
fn audit_of(alloc: Global, rows: &[FileRow]) -> Result<AuditReport, TableFault>
    ensures report { IfOk result (λ report. report ≡ audit_of (map file_in rows.now)) }
    ensures memory { IfErr result (λ fault. fault ≡ TableFault.Memory) }
{
    one_list_fault();
    let pairs = pairs_of(alloc, rows)?;
    match BagSet::of(alloc, &pairs) {
        Ok(bag) => Ok(judging::audit(alloc, &bag)?),
        Err(fault) => audit_of_fault(alloc, fault),
    }
}

/// The answer with the audit of the files of that deposit, as they are stored.
///
/// Fails with `Memory` or `Store`.
fn stored_audit<S: Alter>(
    alloc: Global,
    tx: &mut Transaction<'_, S>,
    number: u32,
) -> Result<Answer, TableFault>
    ensures inside { GoesOnInside S.Store tx.old.conn tx.new.conn result }
    ensures reads { Does S.Store tx.old.conn.now tx.new.conn.now result
        (IsReadFor (requests.Audit number)) }
{
    let rows = files_of(alloc, tx, number)?;
    Ok(Answer::Audit {
        deposit: number,
        report: audit_of(alloc, &rows)?,
    })
}

/// Answers the audit of a deposit's bag, as its files are stored, whoever wrote them. It reports on whatever
/// is stored, also where the SHA-256 of a content is no longer its mark.
///
/// Fails with `Memory` or `Store`.
#[tactic(auto, using(office_contents::proofs::InTurn::inside_then))]
pub fn audit<S: Alter>(
    alloc: Global,
    tx: &mut Transaction<'_, S>,
    day: Day,
    caller: &str,
    number: u32,
) -> Result<Answer, TableFault>
    ensures inside { GoesOnInside S.Store tx.old.conn tx.new.conn result }
    // Whatever the tables of the office hold, the report is that of what is there.
    ensures serves { ServesReading S.Store tx.old.conn.now tx.new.conn.now result
        (visit_on day caller.now) (requests.Audit number) }
{
    match kept_deposit(tx, day, caller, Action::Audit, number)? {
        Ok(_) => stored_audit(alloc, tx, number),
        Err(why) => Ok(Answer::Refused(why)),
    }
}
