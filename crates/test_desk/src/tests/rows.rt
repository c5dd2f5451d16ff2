//! Rows of tables.

use std::process::Abort;

/// Fails the test by the text of a row that doesn't hold.
pub(crate) fn holds(rt: &impl Abort, is_so: bool, row: &str) {
    assert!(*rt; is_so, "{row:?}");
}
