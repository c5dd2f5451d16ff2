//! Steps over one connection, in words, and the answer to each.

ghost use Rattle.sqlite.specs.Held.{state};
ghost use Rattle.std.specs.Prelude.{◌≡◌, false};

use crate::tables::answers::{answer, answer_text};
use crate::tables::changes::make;
use crate::tables::sizes::{find, put};
use office_tables::{TableFault, create, open_tables};
use sqlite::{Alter, Connection};
use std::alloc::Global;
use test_sessions::{held_rows, shown_rows};

/// Takes the steps in turn: the first that is answered otherwise, with its answer, or no text.
///
/// A step is a line: words, which are parted by `|`, and its answer after ` > `, if it isn't `()`.
///
/// | Step | What it does | What it answers |
/// |---|---|---|
/// | `create` | makes an office that may have 10 deposits and 20 holds | `()` |
/// | `open` | asks whether the database is an office | `()` |
/// | `run` | runs SQL | `()` |
/// | `do` | changes, parted by `;`, in one transaction, which is committed where all are made; where they are refused, no row has changed | `()` |
/// | `read` | a read | what is read, as `Debug` shows it |
/// | `show` | a query | the rows that it shows, a `;` after each |
/// | `held` | | what each table of an office holds, likewise |
/// | `put` | puts files of that name into deposit 1, in a transaction each | how many |
/// | `find` | finds them, each and as they are listed | how many |
///
/// or the code of a fault.
pub(crate) fn steps<S: Alter>(
    alloc: Global,
    conn: &mut Connection<S>,
    text: &str,
) -> Option<String> {
    for line in text.lines() {
        let (step, wanted) = line.split_once(" > ").unwrap_or((line, "()"));
        let answer = answer_of_step(alloc, conn, step)?;
        if answer.as_str() != wanted {
            return format!(in alloc; "{step}: {answer}").ok();
        }
    }
    Some(String::new(alloc))
}

/// What the step answers.
fn answer_of_step<S: Alter>(alloc: Global, conn: &mut Connection<S>, step: &str) -> Option<String> {
    let (word, rest) = step.split_once('|').unwrap_or((step, ""));
    match word {
        "show" => in_one_line(alloc, shown_rows(alloc, conn, rest)?),
        "held" => in_one_line(alloc, held_rows(alloc, conn)?),
        "do" => try_changes(alloc, conn, rest),
        "put" => answer_text(alloc, put(alloc, conn, rest)),
        "find" => answer_text(alloc, find(alloc, conn, rest)),
        _ => ask_database(alloc, conn, word, rest),
    }
}

/// What a step answers that asks of the whole database, or reads of it.
fn ask_database<S: Alter>(
    alloc: Global,
    conn: &mut Connection<S>,
    word: &str,
    rest: &str,
) -> Option<String> {
    if !conn.is_autocommit() {
        return None;
    }
    match word {
        "create" => answer_text(alloc, create(conn, 10, 20)),
        "open" => answer_text(alloc, open_tables(conn)),
        "run" => answer_text(alloc, conn.execute_batch(rest).map_err(TableFault::from)),
        "read" => {
            let mut tx = conn.transaction();
            answer(alloc, &mut tx, rest)
        }
        _ => None,
    }
}

/// The lines of a text, with a `;` after each.
fn in_one_line(alloc: Global, text: String) -> Option<String> {
    let mut line = String::new(alloc);
    for part in text.as_str().lines() {
        line.push_str(part).ok()?;
        line.push_str(";").ok()?;
    }
    Some(line)
}

/// What the changes answer: that a row has changed, where they are refused and one has.
fn try_changes<S: Alter>(alloc: Global, conn: &mut Connection<S>, changes: &str) -> Option<String> {
    let before = held_rows(alloc, conn).unwrap_or(String::new(alloc));
    if !conn.is_autocommit() {
        return None;
    }
    let answer = make_changes(alloc, conn, changes);
    let after = held_rows(alloc, conn).unwrap_or(String::new(alloc));
    if answer.is_err() && before.as_str() != after.as_str() {
        return String::from_str(alloc, "a row has changed").ok();
    }
    answer_text(alloc, answer)
}

/// Makes the changes in one transaction and commits it; rolls back where one is refused.
fn make_changes<S: Alter>(
    alloc: Global,
    conn: &mut Connection<S>,
    changes: &str,
) -> Result<(), TableFault>
    requires { (state S.Store conn.old).in_transaction ≡ false }
{
    let mut tx = conn.transaction();
    for change in changes.split(';') {
        make(alloc, &mut tx, change)?;
    }
    Ok(tx.commit()?)
}
