//! Rows of tables.

use std::alloc::Global;
use std::process::Abort;
use std::test::Fail;

/// Fails the test by the name of a row that doesn't hold.
pub(crate) fn holds(rt: &impl Abort, is_so: bool, row: &str) {
    assert!(*rt; is_so, "{row}");
}

/// The rows of a text, of which there are this number, or the test fails: what is in a line before ` => `, and what
/// follows it. A line without that mark is no row.
pub(crate) fn rows_of(alloc: Global, table: &str, count: usize) -> Result<Vec<(&str, &str)>, Fail> {
    let mut rows = Vec::new(alloc);
    for line in table.lines() {
        if let Some(row) = line.split_once(" => ") {
            rows.push(row)?;
        }
    }
    if rows.len() == count {
        return Ok(rows);
    }
    Err(Fail::new("another number of rows"))
}
