//! Collections.

ghost use Rattle.office_core.specs.declared.request.Request.TheVariants as requests;
ghost use Rattle.office_contents.specs.Calls.{GoesOnInside};
ghost use Rattle.office_access.specs.Asking.{visit_on};
ghost use Rattle.office_access.specs.Serving.{Serves};

use office_access::denial;
use office_core::{Action, Answer, Day, Name};
use office_tables::{TableFault, put_collection};
use sqlite::{Alter, Transaction};
use std::alloc::Global;

/// Defines a collection. One that is there stays as it is, and is no other change.
///
/// Fails with `Memory` or `Store`.
#[tactic(auto, using(office_contents::proofs::InTurn::inside_after, office_contents::proofs::InTurn::inside_failed))]
pub fn define_collection<S: Alter>(
    alloc: Global,
    tx: &mut Transaction<'_, S>,
    day: Day,
    caller: &str,
    name: &Name<'_>,
) -> Result<Answer, TableFault>
    ensures inside { GoesOnInside S.Store tx.old.conn tx.new.conn result }
    ensures serves { Serves S.Store tx.old.conn.now tx.new.conn.now result
        (visit_on day caller.now) (requests.DefineCollection name.now) }
{
    if let Some(why) = denial(
        tx,
        day,
        caller,
        Action::Collection,
        Some(name.as_str()),
        None,
    )? {
        return Ok(Answer::Refused(why));
    }
    put_collection(tx, name.as_str())?;
    Ok(Answer::Collection {
        name: name.to_owned(alloc)?,
    })
}
