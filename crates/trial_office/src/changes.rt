//! Changes of the rows, as values that a table can hold.

use crate::office::{Hold, Rule};
use office_tables::{
    CallerRow, NewDeposit, RuleRow, TableFault, drop_files, end_hold, mark_gone, put_class,
    put_collection, put_deposit, put_file, put_hold, put_policy,
};
use sqlite::{Alter, Connection, Transaction};
use std::alloc::{AllocError, Global};

/// A change. Deposits and holds are named by their numbers.
#[derive(Clone, Copy)]
pub(crate) enum Change<'a> {
    /// Callers with their roles, and rules, in the place of those before.
    Policy(&'a [(&'a str, &'a str)], &'a [Rule<'a>]),
    /// A class and its years.
    Class(&'a str, i64),
    Collection(&'a str),
    Deposit(NewDeposit<'a>),
    /// A file of a deposit, with its path and its content.
    File(u32, &'a str, &'a [u8]),
    /// A deposit is destroyed on that day, and its files are dropped.
    Gone(u32, i64),
    Hold(Hold<'a>),
    /// A hold is released on that day.
    Released(u32, i64),
}

/// Makes the changes in one transaction, which is committed where all are made.
pub(crate) fn commit<S: Alter>(
    alloc: Global,
    conn: &mut Connection<S>,
    changes: &[Change],
) -> Result<(), TableFault> {
    if !conn.is_autocommit() {
        return Err(TableFault::Store);
    }
    let mut tx = conn.transaction();
    for change in changes {
        make(alloc, &mut tx, *change)?;
    }
    Ok(tx.commit()?)
}

fn make<S: Alter>(
    alloc: Global,
    tx: &mut Transaction<'_, S>,
    change: Change,
) -> Result<(), TableFault> {
    match change {
        Change::Policy(callers, rules) => {
            put_policy(tx, &callers_of(alloc, callers)?, &rules_of(alloc, rules)?)
        }
        Change::Class(name, years) => put_class(tx, name, years),
        Change::Collection(name) => put_collection(tx, name),
        Change::Deposit(deposit) => put_deposit(tx, deposit),
        Change::File(deposit, path, content) => put_file(tx, deposit, path, content),
        Change::Gone(number, day) => {
            mark_gone(tx, number, day)?;
            drop_files(tx, number)
        }
        Change::Hold(it) => put_hold(tx, it.number, it.target, it.matter, it.placed),
        Change::Released(number, day) => end_hold(tx, number, day),
    }
}

fn callers_of(alloc: Global, callers: &[(&str, &str)]) -> Result<Vec<CallerRow>, AllocError> {
    let mut rows = Vec::new(alloc);
    for (name, role) in callers {
        rows.push(CallerRow {
            name: String::from_str(alloc, name)?,
            role: String::from_str(alloc, role)?,
        })?;
    }
    Ok(rows)
}

fn rules_of(alloc: Global, rules: &[Rule]) -> Result<Vec<RuleRow>, AllocError> {
    let mut rows = Vec::new(alloc);
    for rule in rules {
        rows.push(RuleRow {
            place: rule.place,
            effect: rule.effect,
            role: String::from_str(alloc, rule.role)?,
            action: String::from_str(alloc, rule.action)?,
            collection: String::from_str(alloc, rule.collection)?,
            class: String::from_str(alloc, rule.class)?,
            first: rule.first,
            last: rule.last,
        })?;
    }
    Ok(rows)
}
