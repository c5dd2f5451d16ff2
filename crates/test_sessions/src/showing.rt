//! Rows as text.

use sqlite::types::ValueRef;
use sqlite::{Alter, Connection, Row};
use std::alloc::Global;

/// What shows the rows of each table; a file with the bytes of its content, a content with its mark in their place.
static QUERIES: [&str; 9] = [
    "SELECT id, version, max_deposits, max_holds FROM office ORDER BY id",
    "SELECT name, role FROM caller ORDER BY name",
    "SELECT place, effect, role, action, collection, class, first, last FROM rule_5 ORDER BY place",
    "SELECT name, years FROM class ORDER BY name",
    "SELECT name FROM collection ORDER BY name",
    "SELECT number, accession, collection, class, closed, deposited, files, bytes, gone, due, holds FROM deposit ORDER BY number",
    "SELECT deposit, path, content, bytes FROM file JOIN content ON content.id = file.content ORDER BY deposit, path",
    "SELECT number, deposit, collection, class, matter, placed, released FROM hold_4 ORDER BY number",
    "SELECT id, hex(mark), size FROM content ORDER BY id",
];

/// Adds the value of a column to the text, as the `sqlite3` command prints it.
fn push_value(text: &mut String, row: &Row, at: usize) -> Option<()> {
    let alloc = *text.allocator();
    match row.get_ref(at).ok()? {
        ValueRef::Null => {}
        ValueRef::Int(number) => text.push_str(&format!(in alloc; "{number}").ok()?).ok()?,
        ValueRef::Real(_) => text.push_str("real").ok()?,
        ValueRef::Text(bytes) | ValueRef::Blob(bytes) => {
            text.push_str(std::str::from_utf8(bytes).ok()?).ok()?
        }
    }
    Some(())
}

/// The rows that a query shows: a line each, with `|` between columns. `None` where the store fails.
pub fn shown_rows<S: Alter>(alloc: Global, conn: &mut Connection<S>, sql: &str) -> Option<String> {
    let mut text = String::new(alloc);
    let rows = conn.query_all(sql, &[]).ok()?;
    for row in rows.iter() {
        for at in 0..row.column_count() {
            if at != 0 {
                text.push_str("|").ok()?;
            }
            push_value(&mut text, row, at)?;
        }
        text.push_str("\n").ok()?;
    }
    Some(text)
}

/// What each table of an office holds, with the line `--` after each. `None` where the store fails.
pub fn held_rows<S: Alter>(alloc: Global, conn: &mut Connection<S>) -> Option<String> {
    let mut text = String::new(alloc);
    for sql in QUERIES {
        text.push_str(&shown_rows(alloc, conn, sql)?).ok()?;
        text.push_str("--\n").ok()?;
    }
    Some(text)
}
