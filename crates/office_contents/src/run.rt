//! One statement inside a transaction. The calls of the office's tables are made of `change` and `ask`.

ghost use Rattle.std.specs.Prelude.{◌≡◌, Ok, IfOk, IfErr};
ghost use Rattle.sqlite.specs.State.{HasCleanDisk, Executes, Shown};
ghost use Rattle.sqlite.specs.Values.{bound};
ghost use Rattle.sqlite.specs.Held.{state};
ghost use Rattle.sql_meaning.specs.Columns.{int_at};
ghost use Rattle.office_contents.specs.Calls.{GoesOnInside, RunsOut};

use crate::fault::{Result, TableFault};
use sqlite::types::ValueRef;
use sqlite::{Alter, Row, Transaction};

/// Runs a statement that answers no rows, and says how many rows it changed.
pub fn change<S: Alter>(
    tx: &mut Transaction<'_, S>,
    sql: &str,
    values: &[ValueRef<'_>],
) -> Result<usize>
    ensures inside { GoesOnInside S.Store tx.old.conn tx.new.conn result }
    ensures ran { HasCleanDisk (state S.Store tx.new.conn.now)
        → IfOk result (λ count.
        Executes sql.now (bound values.now) (state S.Store tx.old.conn.now)
        (state S.Store tx.new.conn.now) (Ok count)) }
{
    match tx.execute(sql, values) {
        Ok(count) => Ok(count),
        Err(error) => Err(TableFault::from(error)),
    }
}

/// The rows that a query answers.
pub fn ask<S: Alter>(
    tx: &mut Transaction<'_, S>,
    sql: &str,
    values: &[ValueRef<'_>],
) -> Result<Vec<Row>>
    ensures inside { GoesOnInside S.Store tx.old.conn tx.new.conn result }
    ensures shown { HasCleanDisk (state S.Store tx.new.conn.now)
        → IfOk result (λ rows.
        Shown sql.now (bound values.now) (state S.Store tx.old.conn.now)
        (state S.Store tx.new.conn.now) rows.items) }
    ensures memory { HasCleanDisk (state S.Store tx.new.conn.now)
        → IfErr result (λ fault.
        fault ≡ TableFault.Memory
        → RunsOut sql.now (bound values.now) (state S.Store tx.old.conn.now)
        (state S.Store tx.new.conn.now)) }
{
    match tx.query_all(sql, values) {
        Ok(rows) => Ok(rows),
        Err(error) => Err(TableFault::from(error)),
    }
}

/// The whole number in that column of a row.
pub(crate) fn number_in(row: &Row, at: usize) -> Result<i64>
    ensures shown { IfOk result (λ number. number ≡ int_at row.now at) }
    ensures store { IfErr result (λ fault. fault ≡ TableFault.Store) }
{
    match row.get_ref(at)? {
        ValueRef::Int(number) => Ok(number),
        _ => Err(TableFault::Store),
    }
}
