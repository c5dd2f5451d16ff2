//! The install of a policy, in one transaction.

ghost use Rattle.std.specs.Prelude.{◌≡◌, IfErr, IfOk, IsOkAnd, IsTrue, Ok, OnErr, OnOk, false};
ghost use Rattle.sqlite.specs.State.{HasCleanDisk, IsRolledBack, Shows, Survives};
ghost use Rattle.sqlite.specs.Held.{state};
ghost use Rattle.office_contents.specs.Faults.{IsFailure};
ghost use Rattle.office_engine.specs.Storing.{CommitsInstalled, CommitsTo, IfClean, InstallLasts, InstalledRowsLast, Installs, InstallsRows, HasSameTables, LeavesEither, LeavesInstalled, LeavesInstalledRows, after_policy};

use office_core::Policy;
use office_refines::laws::installs_are_exact;
use office_tables::TableFault;
use sqlite::{Alter, Connection, Transaction};
use std::alloc::Global;

/// Ends the transaction: what was done is committed, and rolled back where it failed.
fn end<S: Alter>(tx: Transaction<'_, S>, done: Result<(), TableFault>) -> Result<(), TableFault>
    ensures outside { tx.exit.0.now.in_transaction ≡ false }
    ensures failure { IfErr done IsFailure → IfErr result IsFailure }
    ensures committed { HasCleanDisk (state S.Store tx.exit.0.now)
        → IfOk result (λ nothing.
        (done ≡ Ok nothing)
        × Shows (state S.Store tx.entry.conn.now) (state S.Store tx.exit.0.now)
        (state S.Store tx.entry.conn.now).now (state S.Store tx.entry.conn.now).now false) }
    ensures undone { HasCleanDisk (state S.Store tx.exit.0.now)
        → OnOk done (IsTrue (state S.Store tx.entry.conn.now).in_transaction)
        → OnErr result
        (IsRolledBack (state S.Store tx.entry.conn.now) (state S.Store tx.exit.0.now)) }
    ensures survives { Survives (state S.Store tx.entry.conn.now) (state S.Store tx.exit.0.now)
        (λ db. IsOkAnd done (λ _. db ≡ (state S.Store tx.entry.conn.now).now.trees)) }
{
    match done {
        Ok(()) => match tx.commit() {
            Ok(()) => Ok(()),
            Err(error) => Err(TableFault::from(error)),
        },
        Err(stopped) => {
            tx.rollback();
            Err(stopped)
        }
    }
}

/// Installs a policy in one transaction with one commit.
pub fn install<S: Alter>(
    alloc: Global,
    conn: &mut Connection<S>,
    policy: &Policy,
) -> Result<(), TableFault>
    requires outside { (state S.Store conn.old).in_transaction ≡ false }
    ensures outside { (state S.Store conn.new).in_transaction ≡ false }
    ensures failure { IfErr result IsFailure }
    ensures installed { IfClean S.Store conn.old conn.new (λ old new.
        OnOk result (Installs old new policy.now)) }
    ensures open { IfClean S.Store conn.old conn.new (λ old _. OnOk result (IsTrue old.is_open)) }
    ensures kept { IfClean S.Store conn.old conn.new (λ old new.
        OnErr result (HasSameTables old new)) }
    ensures survives { Survives (state S.Store conn.old) (state S.Store conn.new)
        (CommitsTo (state S.Store conn.old) (after_policy policy.now)) }
    ensures durable { IfClean S.Store conn.old conn.new (λ old new.
        OnOk result (InstallLasts old new policy.now)) }
    ensures leaves { IfClean S.Store conn.old conn.new (λ old new.
        LeavesEither old new (after_policy policy.now)) }
    ensures made { IfClean S.Store conn.old conn.new (λ old new.
        LeavesInstalled old new result) }
    ensures installed_rows { IfClean S.Store conn.old conn.new (λ old new.
        OnOk result (InstallsRows old new policy.now)) }
    ensures survives_rows { Survives (state S.Store conn.old) (state S.Store conn.new)
        (CommitsInstalled (state S.Store conn.old) policy.now) }
    ensures durable_rows { IfClean S.Store conn.old conn.new (λ old new.
        OnOk result (InstalledRowsLast old new policy.now)) }
    ensures leaves_rows { IfClean S.Store conn.old conn.new (λ old new.
        LeavesInstalledRows old new policy.now) }
{
    installs_are_exact();
    // What the type of a policy says of its callers and rules, and the connection of its state.
    let _rules = policy.rules();
    let _is_settled = conn.is_autocommit();
    let mut tx = conn.transaction();
    let done = office_classes::install(alloc, &mut tx, policy);
    end(tx, done)
}
