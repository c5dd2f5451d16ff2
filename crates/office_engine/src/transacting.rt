//! One request in one transaction.

ghost use Rattle.std.specs.Prelude.{◌≡◌, ◌⊎◌, IfErr, IsOkAnd, IsTrue, Ok, OnOk, false};
ghost use Rattle.sqlite.specs.State.{HasCleanDisk, IsRolledBack, Shows, Survives};
ghost use Rattle.sqlite.specs.Held.{state};
ghost use Rattle.office_contents.specs.Calls.{GoesOnInside};
ghost use Rattle.office_history.specs.Runs.{IsFailure};
ghost use Rattle.office_access.specs.Asking.{visit_on};
ghost use Rattle.office_access.specs.Serving.{Serves};
ghost use Rattle.office_engine.specs.Deciding.{is_reading};
ghost use Rattle.office_engine.specs.Storing.{CommitsRows, CommitsTo, IfClean, IsTurn, after_item, failure_answer, is_accepted};

use office_classes::{define_class, define_collection};
use office_core::{Answer, Day, Refusal, Request};
use office_deposits::{DepositDetails, deposit, dispose};
use office_holds::{hold_class, hold_collection, hold_deposit, release};
use office_queries::{audit, download_bag, download_file, due_list, holds, list, record};
use office_refines::laws::requests_are_exact;
use office_tables::TableFault;
use sqlite::{Alter, Connection, Transaction};
use std::alloc::Global;

/// The answer where the tables fail.
fn failure_answer(fault: TableFault) -> Answer
    ensures exact { result ≡ failure_answer fault }
    ensures failure { IsFailure result }
    ensures unchanged { is_accepted result ≡ false }
{
    match fault {
        TableFault::Memory => Answer::Refused(Refusal::Memory),
        _ => Answer::Refused(Refusal::Store),
    }
}

/// Whether the answer tells of a change.
fn is_accepted(answer: &Answer) -> bool
    ensures { result ≡ is_accepted answer.now }
{
    match answer {
        Answer::Class { .. } => true,
        Answer::Collection { .. } => true,
        Answer::Deposited { .. } => true,
        Answer::HoldPlaced { .. } => true,
        Answer::HoldReleased { .. } => true,
        Answer::Destroyed { .. } => true,
        _ => false,
    }
}

/// What a request that only reads comes to inside a transaction.
fn read<S: Alter>(
    alloc: Global,
    tx: &mut Transaction<'_, S>,
    day: Day,
    caller: &str,
    request: &Request<'_>,
) -> Result<Answer, TableFault>
    requires { IsTrue (is_reading request.now) }
    ensures inside { GoesOnInside S.Store tx.old.conn tx.new.conn result }
    ensures serves { Serves S.Store tx.old.conn.now tx.new.conn.now result
        (visit_on day caller.now) request.now }
{
    match request {
        Request::List { collection, class } => list(
            alloc,
            tx,
            day,
            caller,
            collection.as_ref(),
            class.as_ref(),
        ),
        Request::Record { deposit } => record(alloc, tx, day, caller, *deposit),
        Request::Holds { deposit } => holds(alloc, tx, day, caller, *deposit),
        Request::DownloadBag { deposit } => download_bag(alloc, tx, day, caller, *deposit),
        Request::DownloadFile { deposit, path } => {
            download_file(tx, day, caller, *deposit, path)
        }
        Request::Audit { deposit } => audit(alloc, tx, day, caller, *deposit),
        Request::DueList => due_list(alloc, tx, day, caller),
        _ => unreachable!(),
    }
}

/// What a request comes to inside a transaction.
fn decide<S: Alter>(
    alloc: Global,
    tx: &mut Transaction<'_, S>,
    day: Day,
    caller: &str,
    request: &Request<'_>,
) -> Result<Answer, TableFault>
    ensures inside { GoesOnInside S.Store tx.old.conn tx.new.conn result }
    ensures serves { Serves S.Store tx.old.conn.now tx.new.conn.now result
        (visit_on day caller.now) request.now }
{
    match request {
        Request::DefineClass { name, years } => define_class(alloc, tx, day, caller, name, *years),
        Request::DefineCollection { name } => define_collection(alloc, tx, day, caller, name),
        Request::Deposit { description, bag } => {
            let asked = DepositDetails {
                day,
                caller,
                description,
            };
            deposit(alloc, tx, &asked, bag)
        }
        Request::HoldDeposit { deposit, matter } => {
            hold_deposit(tx, day, caller, *deposit, matter)
        }
        Request::HoldCollection { collection, matter } => {
            hold_collection(tx, day, caller, collection, matter)
        }
        Request::HoldClass { class, matter } => hold_class(tx, day, caller, class, matter),
        Request::Release { hold } => release(alloc, tx, day, caller, *hold),
        Request::Dispose { deposit } => dispose(alloc, tx, day, caller, *deposit),
        _ => read(alloc, tx, day, caller, request),
    }
}

/// Ends the transaction with the answer to what was decided in it: a change is committed, and all
/// else is rolled back.
fn end<S: Alter>(tx: Transaction<'_, S>, decided: Result<Answer, TableFault>) -> Answer
    ensures outside { tx.exit.0.now.in_transaction ≡ false }
    ensures told { (decided ≡ Ok result) ⊎ IsFailure result }
    ensures failed { IfErr decided (λ fault. result ≡ failure_answer fault) }
    ensures committed { HasCleanDisk (state S.Store tx.exit.0.now) → IsTrue (is_accepted result)
        → (decided ≡ Ok result)
        × Shows (state S.Store tx.entry.conn.now) (state S.Store tx.exit.0.now)
        (state S.Store tx.entry.conn.now).now (state S.Store tx.entry.conn.now).now false }
    ensures undone { HasCleanDisk (state S.Store tx.exit.0.now)
        → OnOk decided (IsTrue (state S.Store tx.entry.conn.now).in_transaction)
        → is_accepted result ≡ false
        → IsRolledBack (state S.Store tx.entry.conn.now) (state S.Store tx.exit.0.now) }
    ensures survives { Survives (state S.Store tx.entry.conn.now) (state S.Store tx.exit.0.now)
        (λ db.
        IsOkAnd decided (λ answer.
        IsTrue (is_accepted answer) × (db ≡ (state S.Store tx.entry.conn.now).now.trees))) }
{
    match decided {
        Ok(answer) => {
            if !is_accepted(&answer) {
                tx.rollback();
                return answer;
            }
            match tx.commit() {
                Ok(()) => answer,
                Err(error) => failure_answer(TableFault::from(error)),
            }
        }
        Err(stopped) => {
            tx.rollback();
            failure_answer(stopped)
        }
    }
}

/// Answers one request in one transaction with one commit. A request that changes nothing is rolled
/// back.
pub fn transact<S: Alter>(
    alloc: Global,
    conn: &mut Connection<S>,
    day: Day,
    caller: &str,
    request: &Request<'_>,
) -> Answer
    requires outside { (state S.Store conn.old).in_transaction ≡ false }
    ensures outside { (state S.Store conn.new).in_transaction ≡ false }
    ensures turn { IfClean S.Store conn.old conn.new (λ old new.
        IsTurn old new (day, caller.entry, request.now) result) }
    ensures survives { Survives (state S.Store conn.old) (state S.Store conn.new)
        (CommitsTo (state S.Store conn.old) (after_item (day, caller.entry, request.now))) }
    ensures survives_rows { Survives (state S.Store conn.old) (state S.Store conn.new)
        (CommitsRows (state S.Store conn.old) (day, caller.entry, request.now)) }
{
    requests_are_exact();
    // What the types of a day and of a request say of their values, and the connection of its state.
    let _date = day.date();
    request.prove_in_range();
    let _is_settled = conn.is_autocommit();
    let mut tx = conn.transaction();
    let decided = decide(alloc, &mut tx, day, caller, request);
    end(tx, decided)
}
