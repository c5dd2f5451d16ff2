//! Changes of the rows, in words.

use office_tables::{
    CallerRow, HoldTarget, NewDeposit, RuleRow, TableFault, add_holds, add_holds_class, drop_files,
    end_hold, mark_gone, put_class, put_collection, put_deposit, put_deposit_and_due, put_file,
    put_hold, put_marked, put_policy, set_due, set_dues, set_holds,
};
use sqlite::{Alter, Transaction};
use std::alloc::{AllocError, Global};
use test_sessions::{number, word};

/// Puts a policy: its callers and its rules.
fn change_policy<S: Alter>(
    alloc: Global,
    tx: &mut Transaction<'_, S>,
    words: &[&str],
) -> Result<(), TableFault> {
    let callers = callers_of(alloc, word(words, 1))?;
    let rules = rules_of(alloc, word(words, 2))?;
    put_policy(tx, &callers, &rules)
}

/// A deposit that is put.
fn deposit_of<'a>(words: &[&'a str]) -> NewDeposit<'a> {
    NewDeposit {
        number: number(words, 1),
        accession: word(words, 2),
        collection: word(words, 3),
        class: word(words, 4),
        closed: 10,
        deposited: 11,
        files: 2,
        bytes: 300,
    }
}

/// Puts a hold, or ends one.
fn change_hold<S: Alter>(tx: &mut Transaction<'_, S>, words: &[&str]) -> Result<(), TableFault> {
    let hold = number(words, 1);
    match word(words, 0) {
        "hold on deposit" => {
            let target = HoldTarget::Deposit(number(words, 2));
            put_hold(tx, hold, target, word(words, 3), 100)
        }
        "hold on collection" => {
            let target = HoldTarget::Collection(word(words, 2));
            put_hold(tx, hold, target, word(words, 3), 100)
        }
        "hold on class" => {
            let target = HoldTarget::Class(word(words, 2));
            put_hold(tx, hold, target, word(words, 3), 100)
        }
        "end hold" => end_hold(tx, hold, i64::from(number(words, 2))),
        _ => Err(TableFault::Memory),
    }
}

/// The mark that a word means: its first byte, 32 times.
fn mark_of(word: &str) -> [u8; 32] {
    match word.as_bytes() {
        [byte, ..] => [*byte; 32],
        [] => [0; 32],
    }
}

/// Changes what is stored beside a deposit, or puts a file with a mark, or changes a hold.
fn change_kept<S: Alter>(tx: &mut Transaction<'_, S>, words: &[&str]) -> Result<(), TableFault> {
    let deposit = number(words, 1);
    match word(words, 0) {
        "marked" => {
            let mark = mark_of(word(words, 3));
            put_marked(
                tx,
                deposit,
                word(words, 2),
                &mark,
                word(words, 4).as_bytes(),
            )
        }
        "due" => set_due(tx, deposit, word(words, 2).parse().ok()),
        "dues" => {
            let last = number(words, 2);
            set_dues(tx, deposit, last, word(words, 3).parse().ok())
        }
        "holds" => set_holds(tx, deposit, word(words, 2).parse().unwrap_or(0)),
        "more holds" => add_holds(tx, word(words, 1), word(words, 2).parse().unwrap_or(0)),
        "more holds of class" => {
            add_holds_class(tx, word(words, 1), word(words, 2).parse().unwrap_or(0))
        }
        _ => change_hold(tx, words),
    }
}

/// Changes a deposit or its files, or a hold.
fn change_deposit<S: Alter>(tx: &mut Transaction<'_, S>, words: &[&str]) -> Result<(), TableFault> {
    let deposit = number(words, 1);
    match word(words, 0) {
        "deposit" => put_deposit(tx, deposit_of(words)),
        "deposit and due" => {
            let due = word(words, 5).parse().ok();
            let holds = word(words, 6).parse().unwrap_or(0);
            put_deposit_and_due(tx, deposit_of(words), due, holds)
        }
        "gone" => mark_gone(tx, deposit, i64::from(number(words, 2))),
        "file" => put_file(tx, deposit, word(words, 2), word(words, 3).as_bytes()),
        "drop files" => drop_files(tx, deposit),
        _ => change_kept(tx, words),
    }
}

/// Makes the change: deposits and holds are named by their numbers. A deposit has two files and 300
/// bytes, was closed on day 10 and deposited on day 11; a hold is of day 100. Fails with `Memory` where
/// there is no such change.
pub(crate) fn make<S: Alter>(
    alloc: Global,
    tx: &mut Transaction<'_, S>,
    change: &str,
) -> Result<(), TableFault> {
    let words: Vec<&str> = change.split('|').collect(alloc)?;
    match word(&words, 0) {
        "policy" => change_policy(alloc, tx, &words),
        "class" => put_class(tx, word(&words, 1), word(&words, 2).parse().unwrap_or(0)),
        "collection" => put_collection(tx, word(&words, 1)),
        _ => change_deposit(tx, &words),
    }
}

/// A caller: a name and a role.
fn caller_of(alloc: Global, caller: &str) -> Result<CallerRow, AllocError> {
    let (name, role) = caller.split_once(' ').unwrap_or((caller, ""));
    Ok(CallerRow {
        name: String::from_str(alloc, name)?,
        role: String::from_str(alloc, role)?,
    })
}

/// Callers, parted by `,`.
fn callers_of(alloc: Global, callers: &str) -> Result<Vec<CallerRow>, AllocError> {
    let mut rows = Vec::new(alloc);
    for caller in callers.split(',') {
        rows.push(caller_of(alloc, caller)?)?;
    }
    Ok(rows)
}

/// Rules, parted by `,`.
fn rules_of(alloc: Global, rules: &str) -> Result<Vec<RuleRow>, AllocError> {
    let mut rows = Vec::new(alloc);
    for rule in rules.split(',') {
        let words: Vec<&str> = rule.split(' ').collect(alloc)?;
        rows.push(rule_of(alloc, &words)?)?;
    }
    Ok(rows)
}

/// The number of a day, or where there is none the other.
fn day_or(word: &str, other: i64) -> i64 {
    word.parse().unwrap_or(other)
}

/// A rule: its place and its effect, a role, an action, a collection and a class, and the numbers of its
/// first and its last day, where it has such.
fn rule_of(alloc: Global, words: &[&str]) -> Result<RuleRow, AllocError> {
    Ok(RuleRow {
        place: i64::from(number(words, 0)),
        effect: i64::from(number(words, 1)),
        role: String::from_str(alloc, word(words, 2))?,
        action: String::from_str(alloc, word(words, 3))?,
        collection: String::from_str(alloc, word(words, 4))?,
        class: String::from_str(alloc, word(words, 5))?,
        first: day_or(word(words, 6), -25_567),
        last: day_or(word(words, 7), 2_859_848),
    })
}
