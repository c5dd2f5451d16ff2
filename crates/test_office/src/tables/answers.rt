//! What is read, in words, and what it answers.

use office_tables::{
    TableFault, by_accession, class_of, contents, deposit_row, deposit_rows, deposits_and_dues,
    due_row, due_rows, file_of, files_of, has_collection, has_release_outside, hold_row,
    intact_file_of, intact_files_of, last_deposit, last_hold, limits, live_holds, match_rule,
    role_of, rows_of_class, rules,
};
use sqlite::{Alter, Transaction};
use std::alloc::Global;
use std::fmt::Debug;
use test_sessions::{number, word};

/// The answer, as `Debug` shows it, or the code of the fault.
pub(crate) fn answer_text<T: Debug + Drop>(
    alloc: Global,
    answer: Result<T, TableFault>,
) -> Option<String> {
    match answer {
        Ok(found) => format!(in alloc; "{found:?}").ok(),
        Err(fault) => format!(in alloc; "{fault}").ok(),
    }
}

/// What the read answers: deposits and holds are named by their numbers.
pub(crate) fn answer<S: Alter>(
    alloc: Global,
    tx: &mut Transaction<'_, S>,
    read: &str,
) -> Option<String> {
    let words: Vec<&str> = read.split('|').collect(alloc).ok()?;
    let name = word(&words, 1);
    let of = number(&words, 1);
    match word(&words, 0) {
        "limits" => answer_text(alloc, limits(tx)),
        "role" => answer_text(alloc, role_of(tx, name)),
        "rules" => answer_text(alloc, rules(alloc, tx)),
        "years" => answer_text(alloc, class_of(tx, name)),
        "collection" => answer_text(alloc, has_collection(tx, name)),
        "deposit" => answer_text(alloc, deposit_row(tx, of)),
        "accession" => answer_text(alloc, by_accession(tx, name)),
        "deposits" => answer_text(alloc, deposit_rows(alloc, tx)),
        "last deposit" => answer_text(alloc, last_deposit(tx)),
        "rule" => {
            let (collection, class) = (word(&words, 3), word(&words, 4));
            let day = i64::from(number(&words, 5));
            answer_text(
                alloc,
                match_rule(tx, name, word(&words, 2), collection, class, day),
            )
        }
        "closings" => answer_text(alloc, rows_of_class(alloc, tx, name)),
        other => {
            answer_of_files_and_holds(alloc, tx, other, of, word(&words, 2), word(&words, 3))
        }
    }
}

/// What a read of files or holds answers: of those over a deposit by its number, its collection and its class.
fn answer_of_files_and_holds<S: Alter>(
    alloc: Global,
    tx: &mut Transaction<'_, S>,
    read: &str,
    of: u32,
    name: &str,
    class: &str,
) -> Option<String> {
    match read {
        "files" => answer_text(alloc, files_of(alloc, tx, of)),
        "content" => answer_text(alloc, file_of(tx, of, name)),
        "intact files" => answer_text(alloc, intact_files_of(alloc, tx, of)),
        "intact content" => answer_text(alloc, intact_file_of(tx, of, name)),
        "hold" => answer_text(alloc, hold_row(tx, of)),
        "live holds" => answer_text(alloc, live_holds(alloc, tx, of, name, class)),
        "last hold" => answer_text(alloc, last_hold(tx)),
        "released outside" => {
            answer_text(alloc, has_release_outside(tx, of, name, class, 100, 149))
        }
        _ => answer_of_kept(alloc, tx, read, of),
    }
}

/// What a read answers of contents, or of what is stored beside a deposit.
fn answer_of_kept<S: Alter>(
    alloc: Global,
    tx: &mut Transaction<'_, S>,
    read: &str,
    of: u32,
) -> Option<String> {
    match read {
        "contents" => answer_text(alloc, contents(alloc, tx)),
        "due" => answer_text(alloc, due_row(tx, of)),
        "due rows" => answer_text(alloc, due_rows(alloc, tx, i64::from(of))),
        "deposits and dues" => answer_text(alloc, deposits_and_dues(alloc, tx)),
        _ => None,
    }
}
