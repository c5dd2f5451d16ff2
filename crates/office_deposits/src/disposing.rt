//! The disposal of deposits.

ghost use Rattle.std.specs.Prelude.{◌≡◌, Some, pos};
ghost use Rattle.office_core.specs.declared.request.Request.TheVariants as requests;
ghost use Rattle.office_contents.specs.Calls.{GoesOnInside, Shows};
ghost use Rattle.office_by_rows.specs.Changes.{destroyed};
ghost use Rattle.office_by_rows.specs.Refusals as by_rows;
ghost use Rattle.office_access.specs.Asking.{visit_on};
ghost use Rattle.office_access.specs.Contents.{without_contents_of};
ghost use Rattle.office_access.specs.Serving.{Rewrites, Serves};

use office_access::{Asker, disposal_facts};
use office_core::{Answer, Day, Refusal, Subject, verdict};
use office_history::judging::refusal_of;
use office_tables::{TableFault, deposit_row, drop_files, mark_gone};
use sqlite::{Alter, Transaction};
use std::alloc::Global;

/// The first refusal that applies to the disposal of the deposit of that number, if one does.
#[tactic(auto, using(office_contents::proofs::InTurn::inside_after, office_contents::proofs::InTurn::inside_failed, office_contents::proofs::InTurn::inside_then))]
fn disposal_refusal<S: Alter>(
    alloc: Global,
    tx: &mut Transaction<'_, S>,
    day: Day,
    caller: &str,
    number: u32,
) -> Result<Option<Refusal>, TableFault>
    ensures inside { GoesOnInside S.Store tx.old.conn tx.new.conn result }
    ensures reads { Shows S.Store tx.old.conn.now tx.new.conn.now result (λ tables why.
        by_rows.refusal tables (visit_on day caller.now) (requests.Dispose number) ≡ Some why) }
{
    let Some(deposit) = deposit_row(tx, number)? else {
        return Ok(Some(Refusal::NoSuch(Subject::Deposit)));
    };
    let asker = Asker::read(tx, day, caller)?;
    let facts = disposal_facts(alloc, tx, &asker, &deposit)?;
    Ok(refusal_of(verdict(&facts, day)))
}

/// Notes the day on the deposit of that number, and takes its files away.
fn destroy<S: Alter>(tx: &mut Transaction<'_, S>, day: Day, number: u32) -> Result<(), TableFault>
    ensures inside { GoesOnInside S.Store tx.old.conn tx.new.conn result }
    ensures changes { Rewrites S.Store tx.old.conn.now tx.new.conn.now result
        (λ tables. Some (destroyed number day tables))
        (λ tables contents. without_contents_of (pos number) tables.files contents) }
{
    mark_gone(tx, number, day.number() as i64)?;
    drop_files(tx, number)
}

/// Destroys the deposit of that number: its files are taken away, and its row keeps the day.
///
/// Refused, in this order: no such deposit, the caller may not, destroyed already, the least live
/// hold that covers it, not due yet. Fails with `Memory` or `Store`.
#[tactic(auto, using(office_contents::proofs::InTurn::inside_after, office_contents::proofs::InTurn::inside_failed))]
pub fn dispose<S: Alter>(
    alloc: Global,
    tx: &mut Transaction<'_, S>,
    day: Day,
    caller: &str,
    number: u32,
) -> Result<Answer, TableFault>
    ensures inside { GoesOnInside S.Store tx.old.conn tx.new.conn result }
    ensures serves { Serves S.Store tx.old.conn.now tx.new.conn.now result
        (visit_on day caller.now) (requests.Dispose number) }
{
    if let Some(why) = disposal_refusal(alloc, tx, day, caller, number)? {
        return Ok(Answer::Refused(why));
    }
    destroy(tx, day, number)?;
    Ok(Answer::Destroyed {
        deposit: number,
        day,
    })
}
