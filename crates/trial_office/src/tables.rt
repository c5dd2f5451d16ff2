//! Cases of the tables: a short session over one database in memory.

use crate::office::FIRST_DEPOSIT;
use crate::outcome::Outcome;
use office_tables::{
    CallerRow, HoldTarget, NewDeposit, RuleRow, TableFault, add_holds, add_holds_class,
    by_accession, class_of, contents, create, deposit_row, deposit_rows, deposits_and_dues,
    drop_files, due_row, due_rows, end_hold, file_of, files_of, has_collection,
    has_release_outside, hold_row, last_deposit, last_hold, limits, live_holds, mark_gone,
    match_rule, open_tables, put_class, put_collection, put_deposit, put_file, put_hold,
    put_marked, put_policy, role_of, rows_of_class, rules, set_due, set_holds,
};
use sqlite::{Alter, Connection, Transaction};
use std::alloc::{AllocError, Global};

/// What is done in one transaction, or on the connection itself.
#[derive(Clone, Copy)]
pub(crate) enum Step {
    Create,
    Open,
    Define,
    Install,
    Deposit,
    Hold,
    Read,
    Destroy,
    ReadAgain,
}

/// The session: each step with its name, in turn.
pub(crate) static SESSION: [(&str, Step); 9] = [
    ("tables made", Step::Create),
    ("tables opened", Step::Open),
    ("a class and a collection", Step::Define),
    ("a policy", Step::Install),
    ("a deposit with files", Step::Deposit),
    ("holds", Step::Hold),
    ("rows read", Step::Read),
    ("a deposit destroyed, holds ended", Step::Destroy),
    ("rows read again", Step::ReadAgain),
];

/// Takes the step; where memory was refused, once more, and then it has to hold: a step that was
/// refused has changed nothing.
pub(crate) fn come_out<S: Alter>(alloc: Global, conn: &mut Connection<S>, step: Step) -> Outcome {
    match take(alloc, conn, step) {
        Ok(holds) => Outcome::expected_if(holds),
        Err(TableFault::Memory) => Outcome::memory_if(take(alloc, conn, step) == Ok(true)),
        Err(_) => Outcome::Wrong,
    }
}

/// Takes the step: whether it answers what was worked out.
fn take<S: Alter>(alloc: Global, conn: &mut Connection<S>, step: Step) -> Result<bool, TableFault> {
    if !conn.is_autocommit() {
        return Err(TableFault::Store);
    }
    match step {
        Step::Create => create(conn, 10, 20).map(|()| true),
        Step::Open => open_tables(conn).map(|()| true),
        Step::Read | Step::ReadAgain => {
            let mut tx = conn.transaction();
            match step {
                Step::Read => read(alloc, &mut tx),
                _ => read_again(alloc, &mut tx),
            }
        }
        _ => {
            let mut tx = conn.transaction();
            change(alloc, &mut tx, step)?;
            tx.commit()?;
            Ok(true)
        }
    }
}

const DEPOSIT: NewDeposit<'static> = NewDeposit {
    accession: "A-1",
    class: "short",
    closed: 10,
    deposited: 11,
    files: 2,
    bytes: 3,
    ..FIRST_DEPOSIT
};

/// The changes of a step.
fn change<S: Alter>(
    alloc: Global,
    tx: &mut Transaction<'_, S>,
    step: Step,
) -> Result<(), TableFault> {
    match step {
        Step::Define => {
            put_class(tx, "short", 2)?;
            put_collection(tx, "maps")
        }
        Step::Install => install(alloc, tx),
        Step::Deposit => {
            put_deposit(tx, DEPOSIT)?;
            put_file(tx, 1, "data/b", b"bb")?;
            put_file(tx, 1, "data/a", b"a")?;
            put_marked(tx, 1, "data/c", &[7; 32], b"a")?;
            set_due(tx, 1, Some(740))
        }
        Step::Hold => hold(tx),
        _ => {
            mark_gone(tx, 1, 99)?;
            drop_files(tx, 1)?;
            end_hold(tx, 1, 102)?;
            add_holds(tx, "maps", -1)?;
            end_hold(tx, 3, 104)?;
            add_holds_class(tx, "short", -1)?;
            set_due(tx, 1, None)
        }
    }
}

/// Puts a hold on the deposit, one on its collection and one on its class, and counts them.
fn hold<S: Alter>(tx: &mut Transaction<'_, S>) -> Result<(), TableFault> {
    put_hold(tx, 1, HoldTarget::Deposit(1), "suit", 100)?;
    set_holds(tx, 1, 1)?;
    put_hold(tx, 2, HoldTarget::Collection("maps"), "suit", 101)?;
    add_holds(tx, "maps", 1)?;
    put_hold(tx, 3, HoldTarget::Class("short"), "suit", 101)?;
    add_holds_class(tx, "short", 1)
}

/// Puts a policy of one caller and one rule.
fn install<S: Alter>(alloc: Global, tx: &mut Transaction<'_, S>) -> Result<(), TableFault> {
    let caller = CallerRow {
        name: text(alloc, "anna")?,
        role: text(alloc, "archivist")?,
    };
    let rule = RuleRow {
        place: 1,
        effect: 1,
        role: text(alloc, "archivist")?,
        action: text(alloc, "*")?,
        collection: text(alloc, "*")?,
        class: text(alloc, "*")?,
        first: 100,
        last: 200,
    };
    put_policy(tx, &[caller], &[rule])
}

/// A text of its own.
fn text(alloc: Global, words: &str) -> Result<String, AllocError> {
    words.to_owned(alloc)
}

/// Whether the limits, the definitions and the policy read as they were put.
fn reads_definitions<S: Alter>(
    alloc: Global,
    tx: &mut Transaction<'_, S>,
) -> Result<bool, TableFault> {
    let limits = limits(tx)?;
    Ok(
        limits.max_deposits == 10
            && limits.max_holds == 20
            && class_of(tx, "short")? == Some(2)
            && has_collection(tx, "maps")?
            && role_of(tx, "anna")?.is_some_and(|role| role.as_str() == "archivist")
            && rules(alloc, tx)?.len() == 1,
    )
}

/// Whether the deposit does.
fn reads_deposit<S: Alter>(alloc: Global, tx: &mut Transaction<'_, S>) -> Result<bool, TableFault> {
    Ok(
        last_deposit(tx)? == Some(1)
            && deposit_rows(alloc, tx)?.len() == 1
            && by_accession(tx, "A-1")?.is_some_and(|found| found.number == 1
                && found.gone.is_none()),
    )
}

/// Whether its files do.
fn reads_files<S: Alter>(alloc: Global, tx: &mut Transaction<'_, S>) -> Result<bool, TableFault> {
    let files = files_of(alloc, tx, 1)?;
    if !files.iter().map(|file| file.content.len()).eq([1, 2, 1]) {
        return Ok(false);
    }
    let content = file_of(tx, 1, "data/b")?;
    Ok(content.is_some_and(|bytes| bytes.as_slice() == b"bb".as_slice()))
}

/// Whether the holds do.
fn reads_holds<S: Alter>(alloc: Global, tx: &mut Transaction<'_, S>) -> Result<bool, TableFault> {
    Ok(
        last_hold(tx)? == Some(3)
            && live_holds(alloc, tx, 1, "maps", "short")?.as_slice() == [1, 2, 3].as_slice(),
    )
}

/// Whether the contents do, two of which have the same bytes under other marks, and the rule that decides.
fn reads_contents<S: Alter>(
    alloc: Global,
    tx: &mut Transaction<'_, S>,
) -> Result<bool, TableFault> {
    let rule = match_rule(tx, "archivist", "list", "maps", "", 200)?;
    Ok(contents(alloc, tx)?.len() == 3 && rule.is_some_and(|rule| rule.place == 1))
}

/// Whether what is stored beside the deposit does: its due day and the count of its holds.
fn reads_kept<S: Alter>(alloc: Global, tx: &mut Transaction<'_, S>) -> Result<bool, TableFault> {
    Ok(
        due_row(tx, 1)?.is_some_and(|kept| kept.due == Some(740) && kept.holds == 3)
            && due_rows(alloc, tx, 740)?.is_empty()
            && deposits_and_dues(alloc, tx)?.len() == 1
            && rows_of_class(alloc, tx, "short")?.len() == 1,
    )
}

/// Whether each row reads as it was put.
fn read<S: Alter>(alloc: Global, tx: &mut Transaction<'_, S>) -> Result<bool, TableFault> {
    Ok(
        reads_definitions(alloc, tx)?
            && reads_deposit(alloc, tx)?
            && reads_files(alloc, tx)?
            && reads_contents(alloc, tx)?
            && reads_kept(alloc, tx)?
            && reads_holds(alloc, tx)?,
    )
}

/// Whether each row reads as it was left in the end.
fn read_again<S: Alter>(alloc: Global, tx: &mut Transaction<'_, S>) -> Result<bool, TableFault> {
    Ok(
        deposit_row(tx, 1)?.is_some_and(|found| found.gone == Some(99))
            && file_of(tx, 1, "data/a")?.is_none()
            && contents(alloc, tx)?.is_empty()
            && due_row(tx, 1)?.is_some_and(|kept| kept.due.is_none() && kept.holds == 1)
            && hold_row(tx, 1)?.is_some_and(|hold| hold.released == Some(102))
            && has_release_outside(tx, 1, "maps", "short", 103, 200)?
            && hold_row(tx, 3)?.is_some_and(|hold| hold.released == Some(104))
            && live_holds(alloc, tx, 1, "maps", "short")?.as_slice() == [2].as_slice(),
    )
}
