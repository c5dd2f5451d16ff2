//! The due list and the stock, read in a transaction that is rolled back.

ghost use Rattle.std.specs.Prelude.{◌≡◌, IfErr, IfOk, IsTrue, OnOk, false};
ghost use Rattle.sqlite.specs.State.{Survives};
ghost use Rattle.sqlite.specs.Held.{state};
ghost use Rattle.office_contents.specs.Faults.{IsFailure};
ghost use Rattle.office_engine.specs.Storing.{AreToldDue, CountsStock, IfClean, IsToldStock, HasSameTables, ListsDue};

use office_core::Day;
use office_queries::{Stock, due_numbers, stock_of};
use office_refines::laws::due_lists_are_exact;
use office_tables::TableFault;
use office_tables::laws::contents_are_those_of_files;
use sqlite::{Alter, Connection};
use std::alloc::Global;

/// The numbers of the deposits that the caller may destroy on that day, ascending.
pub fn due_list<S: Alter>(
    alloc: Global,
    conn: &mut Connection<S>,
    day: Day,
    caller: &str,
) -> Result<Vec<u32>, TableFault>
    requires outside { (state S.Store conn.old).in_transaction ≡ false }
    ensures outside { (state S.Store conn.new).in_transaction ≡ false }
    ensures failure { IfErr result IsFailure }
    ensures listed { IfClean S.Store conn.old conn.new (λ old new.
        IfOk result (λ numbers. ListsDue old new day caller.now numbers.items)) }
    ensures rows { IfClean S.Store conn.old conn.new (λ old _.
        IfOk result (λ numbers. AreToldDue old day caller.now numbers.items)) }
    ensures open { IfClean S.Store conn.old conn.new (λ old _. OnOk result (IsTrue old.is_open)) }
    ensures kept { IfClean S.Store conn.old conn.new HasSameTables }
    ensures survives { Survives (state S.Store conn.old) (state S.Store conn.new) (λ _. ⊥) }
{
    due_lists_are_exact();
    // What the connection says of its state.
    let _is_settled = conn.is_autocommit();
    let mut tx = conn.transaction();
    let found = due_numbers(alloc, &mut tx, day, caller);
    tx.rollback();
    found
}

/// The stock of the office.
pub fn stock<S: Alter>(alloc: Global, conn: &mut Connection<S>) -> Result<Stock, TableFault>
    requires outside { (state S.Store conn.old).in_transaction ≡ false }
    ensures outside { (state S.Store conn.new).in_transaction ≡ false }
    ensures failure { IfErr result IsFailure }
    ensures counted { IfClean S.Store conn.old conn.new (λ old new.
        IfOk result (CountsStock old new)) }
    ensures rows { IfClean S.Store conn.old conn.new (λ old _.
        IfOk result (IsToldStock old)) }
    ensures open { IfClean S.Store conn.old conn.new (λ old _. OnOk result (IsTrue old.is_open)) }
    ensures kept { IfClean S.Store conn.old conn.new HasSameTables }
    ensures survives { Survives (state S.Store conn.old) (state S.Store conn.new) (λ _. ⊥) }
{
    contents_are_those_of_files();
    // What the connection says of its state.
    let _is_settled = conn.is_autocommit();
    let mut tx = conn.transaction();
    let found = stock_of(alloc, &mut tx);
    tx.rollback();
    found
}
