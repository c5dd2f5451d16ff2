//! Rows that another program alters.

use crate::offices::{Way, adopt_and_put};
use sqlite::{Alter, Connection};
use std::alloc::Global;
use test_sessions::held_rows;

/// Runs SQL on the tables of an office: what they held before, and what they hold after it.
fn alter<S: Alter>(alloc: Global, conn: &mut Connection<S>, sql: &str) -> Option<(String, String)> {
    let before = held_rows(alloc, conn)?;
    conn.execute_batch(sql).ok()?;
    Some((before, held_rows(alloc, conn)?))
}

/// Runs SQL that makes tables: no text, or `None` where it fails.
pub(crate) fn make<S: Alter>(alloc: Global, conn: &mut Connection<S>, sql: &str) -> Option<String> {
    conn.execute_batch(sql).ok()?;
    Some(String::new(alloc))
}

/// Alters rows permanently: no text, but where none is altered.
pub(crate) fn alter_for_good<S: Alter>(
    alloc: Global,
    conn: &mut Connection<S>,
    sql: &str,
) -> Option<String> {
    let (before, after) = alter(alloc, conn, sql)?;
    if before.as_str() == after.as_str() {
        return String::from_str(alloc, "nothing is altered").ok();
    }
    Some(String::new(alloc))
}

/// Alters rows, asks of the office, and takes the alteration back: SQL that alters, SQL that takes it
/// back, and rows, each of which changes nothing. The connection is handed back, with what is answered
/// otherwise, with the code of the fault where it isn't taken for an office, or with no text.
pub(crate) fn case<S: Alter + Drop>(
    alloc: Global,
    conn: Connection<S>,
    text: &'static str,
) -> (Option<String>, Connection<S>) {
    let (alters, rest) = text.split_once('\n').unwrap_or((text, ""));
    let (restores, rows) = rest.split_once('\n').unwrap_or((rest, ""));
    let mut conn = conn;
    let before = alter(alloc, &mut conn, alters);
    let (differs, mut conn) = adopt_and_put(alloc, conn, Way::Steps, rows);
    let after = alter(alloc, &mut conn, restores);
    (compare_rows(alloc, before, differs, after), conn)
}

/// The answer, where the rows were altered, were as altered after it was given, and are as before.
fn compare_rows(
    alloc: Global,
    before: Option<(String, String)>,
    answer: Option<String>,
    after: Option<(String, String)>,
) -> Option<String> {
    let (first, altered) = before?;
    let (asked, last) = after?;
    let told = if first.as_str() == altered.as_str() {
        "nothing is altered"
    } else if asked.as_str() != altered.as_str() {
        "a row has changed"
    } else if last.as_str() != first.as_str() {
        "not taken back"
    } else {
        return answer;
    };
    String::from_str(alloc, told).ok()
}
