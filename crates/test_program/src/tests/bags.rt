//! What `check` says of small bags from standard input, and of texts that are no form; and of bags at
//! the limits, from a stream and from a file.

use crate::tests::codes::{DECLARATIONS, ENTRIES, INFOS, MANIFESTS, PAYLOADS};
use crate::tests::output::Taking;
use crate::tests::rows::prints;
use crate::tests::runs::{Came, Given, came_of};
use commands::Ending;
use std::alloc::Global;
use std::fs;
use std::test::*;
use test_bags::{bytes_of, many_files};

/// Whether a form, with marks, is judged as a row says.
fn is_judged(rt: &HostRuntime, form: &str, row: &str) -> Result<bool, Fail> {
    let form = bytes_of(rt.alloc(), form)?;
    prints(rt, ["check", "-"].as_slice(), form.as_slice(), row)
}

/// How many rows a table has. Fails where a form is judged otherwise than its row says.
fn rows_of(rt: &HostRuntime, table: &str) -> Result<usize, Fail> {
    let mut rows = 0usize;
    for line in table.lines() {
        if let Some((form, row)) = line.split_once(" => ") {
            if !is_judged(rt, form, row)? {
                return Err(Fail::new(line));
            }
            rows = rows.saturating_add(1);
        }
    }
    Ok(rows)
}

#[test]
fn small_bags_are_judged(rt: HostRuntime) -> Result<(), Fail> {
    for (table, wanted) in [
        (DECLARATIONS, 34),
        (MANIFESTS, 41),
        (PAYLOADS, 28),
        (INFOS, 37),
        (ENTRIES, 30),
    ] {
        let rows = rows_of(&rt, table)?;
        assert!(rt; rows == wanted, "{rows} rows");
    }
    Ok(())
}

#[test]
fn two_thousand_files_and_one_more(rt: HostRuntime) -> Result<(), Fail> {
    let mut form = many_files(rt.alloc(), 2000)?;
    form.extend_from_slice(b"FILE 4 0\n2000\nEND\n")?;
    let is_so = prints(
        &rt,
        ["check", "-"].as_slice(),
        form.as_slice(),
        r"unreadable S6\n => the form has more files than the 2,000 that a bag may have (S6)\n",
    )?;
    assert!(rt; is_so);
    Ok(())
}

/// A form of 16,777,216 bytes, the most that are read: a declaration and one payload file.
fn longest_form(alloc: Global) -> Result<Vec<u8>, Fail> {
    let front = bytes_of(alloc, r"BAGSET 1\n{declared}FILE 6 16777106\ndata/a")?;
    let content = vec![in alloc; b'x'; 16_777_106]?;
    let mut form = Vec::with_capacity(alloc, 16_777_217)?;
    form.extend_from_slice(front.as_slice())?;
    form.extend_from_slice(content.as_slice())?;
    form.extend_from_slice(b"\nEND\n")?;
    Ok(form)
}

/// The longest form and one byte more: how many bytes are read, the line that is printed, and what
/// is printed to standard error.
static LENGTHS: [(usize, &str); 2] = [
    (
        16_777_216,
        r"invalid B5\n => the bag has neither manifest-sha256.txt nor manifest-sha512.txt (B5)\n",
    ),
    (
        16_777_217,
        r"unreadable SIZE\n => the form is longer than 16,777,216 bytes, the most that is judged (SIZE)\n",
    ),
];

#[test]
fn a_file_is_judged(rt: HostRuntime) -> Result<(), Fail> {
    let form = bytes_of(rt.alloc(), r"BAGSET 1\n{bag}")?;
    fs::write(&rt, "bag-a.bagset", form.as_slice())?;
    let is_so = prints(
        &rt,
        ["check", "bag-a.bagset"].as_slice(),
        b"",
        r"valid 1.0 files 1 bytes 3 manifests 1\n",
    )?;
    assert!(rt; is_so);
    fs::remove_file(&rt, "bag-a.bagset")?;
    Ok(())
}

/// Whether a form is judged as a row says, from a stream and from a file.
fn is_judged_from_both(rt: &HostRuntime, form: &[u8], row: &str) -> Result<bool, Fail> {
    fs::write(rt, "longest.bagset", form)?;
    Ok(
        prints(rt, ["check", "-"].as_slice(), form, row)?
            && prints(rt, ["check", "longest.bagset"].as_slice(), b"", row)?,
    )
}

/// Judges a form where that can't be said.
fn came_unsaid(rt: &HostRuntime, form: &[u8]) -> Result<Came, Fail> {
    let given = Given {
        output: Taking::Fails,
        ..Given::new(form)
    };
    came_of(rt, ["check", "-"].as_slice(), &given)
}

#[test]
fn reads_up_to_the_limit(rt: HostRuntime) -> Result<(), Fail> {
    let mut form = longest_form(rt.alloc())?;
    for (length, row) in &LENGTHS {
        assert!(rt; form.len() == *length);
        assert!(rt; is_judged_from_both(&rt, form.as_slice(), row)?, "{row}");
        form.push(b'\n')?;
    }
    fs::remove_file(&rt, "longest.bagset")?;
    let came = came_unsaid(&rt, form.as_slice())?;
    assert!(rt; came.said.is_empty());
    assert!(rt;
        came.told.as_slice()
            == b"device\ndepot: cannot write standard output: broken pipe\n".as_slice()
    );
    assert!(rt; came.ending == Ending::Failed);
    Ok(())
}
