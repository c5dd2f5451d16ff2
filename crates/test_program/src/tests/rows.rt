//! Rows that say what `check` and `explain` print.

use crate::tests::runs::{Given, came_of};
use commands::Ending;
use std::alloc::{AllocError, Global};
use std::test::Fail;
use test_bags::bytes_of;

/// The words between the bars of a text.
pub(crate) fn words_of(alloc: Global, text: &str) -> Result<Vec<&str>, AllocError> {
    text.split('|').collect(alloc)
}

/// Whether a run on these words prints what a row says: a line, and what is printed to standard error. A
/// row may leave out the latter where a bag is refused, and has none where nothing is told. Without a
/// line, the words are invalid.
pub(crate) fn prints(
    rt: &HostRuntime,
    words: &[&str],
    given: &[u8],
    row: &str,
) -> Result<bool, Fail> {
    let (line, reason) = row.split_once(" => ").unwrap_or((row, ""));
    let came = came_of(rt, words, &Given::new(given))?;
    let is_refused = line.starts_with("invalid ") || line.starts_with("unreadable ");
    let is_told = if reason.is_empty() && is_refused {
        !came.told.is_empty()
    } else {
        came.told.as_slice() == bytes_of(rt.alloc(), reason)?.as_slice()
    };
    let is_accepted = line.starts_with("valid ") || line.starts_with("allow ");
    let wanted = if is_accepted {
        Ending::Accepted
    } else if line.is_empty() {
        Ending::Misused
    } else {
        Ending::Refused
    };
    let is_line = came.said.as_slice() == bytes_of(rt.alloc(), line)?.as_slice();
    Ok(is_line && is_told && came.ending == wanted)
}
