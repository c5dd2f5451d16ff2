//! What is said of a bag that is cut or changed at each of its bytes, and of bags at the limits.

use crate::tests::devices::told;
use crate::tests::rows::holds;
use commands::{Ending, check_outcome};
use std::alloc::{AllocError, Global};
use std::test::*;
use test_bags::{bytes_of, many_files, text_of};

/// Whether this is the line, with the end that comes with it.
fn says(rt: &HostRuntime, bytes: &[u8], line: &str) -> Result<bool, AllocError> {
    let outcome = check_outcome(rt.alloc(), bytes)?;
    let wanted = if line.starts_with("valid ") {
        Ending::Accepted
    } else {
        Ending::Refused
    };
    Ok(outcome.text.as_str() == line && outcome.ending == wanted)
}

/// Whether a form with the bytes up to there is said to end too early.
fn ends_early(rt: &HostRuntime, form: &[u8], length: usize) -> Result<bool, Fail> {
    let cut = form.get(..length).ok_or("longer")?;
    Ok(says(rt, cut, "unreadable S3\n")?)
}

/// Up to which length the form, cut there, is said to end too early: its own at most.
fn first_length(rt: &HostRuntime, form: &[u8]) -> Result<usize, Fail> {
    for length in 0..form.len() {
        if !ends_early(rt, form, length)? {
            return Ok(length);
        }
    }
    Ok(form.len())
}

/// Changes the byte at that offset, or changes it back.
fn change(form: &mut Vec<u8>, at: usize) {
    if let Some(byte) = form.get_mut(at) {
        *byte ^= 1;
    }
}

/// Whether a form is refused, and not as a valid bag.
fn is_refused(rt: &HostRuntime, form: &[u8]) -> Result<bool, AllocError> {
    let outcome = check_outcome(rt.alloc(), form)?;
    Ok(outcome.ending == Ending::Refused && !outcome.text.starts_with("valid"))
}

/// Up to which offset the form is refused where its byte there is changed: its length at most. Each byte is
/// changed back.
fn first_offset(rt: &HostRuntime, form: &mut Vec<u8>) -> Result<usize, AllocError> {
    for at in 0..form.len() {
        change(form, at);
        let is_so = is_refused(rt, form.as_slice())?;
        change(form, at);
        if !is_so {
            return Ok(at);
        }
    }
    Ok(form.len())
}

#[test]
fn a_form_that_is_cut_or_changed(rt: HostRuntime) -> Result<(), Fail> {
    let mut form = bytes_of(rt.alloc(), r"BAGSET 1\n{bag}")?;
    assert!(rt; form.len() == 210);
    let length = first_length(&rt, form.as_slice())?;
    assert!(rt; length == 210, "{length}");
    let at = first_offset(&rt, &mut form)?;
    assert!(rt; at == 210, "byte {at}");
    let line = "valid 1.0 files 1 bytes 3 manifests 1\n";
    assert!(rt; says(&rt, form.as_slice(), line)?);
    Ok(())
}

/// The manifest of bag A.
static MANIFEST: &str =
    "ba7816bf8f01cfea414140de5dae2223b00361a396177a9cb410ff61f20015ad  data/a\n";

/// How many bytes are left of the manifest of bag A, at least and at most, and what is said then.
static CUT: [(usize, usize, &str); 9] = [
    (0, 0, "invalid B12 manifest-sha256.txt data/a\n"),
    (1, 63, "invalid B6 manifest-sha256.txt L3 1\n"),
    (64, 66, "invalid B6 manifest-sha256.txt L4 1\n"),
    (67, 67, "invalid B7 manifest-sha256.txt d\n"),
    (68, 68, "invalid B7 manifest-sha256.txt da\n"),
    (69, 69, "invalid B7 manifest-sha256.txt dat\n"),
    (70, 70, "invalid B7 manifest-sha256.txt data\n"),
    (71, 71, "invalid B6 manifest-sha256.txt L5 1\n"),
    (72, 73, "valid 1.0 files 1 bytes 3 manifests 1\n"),
];

/// The form of bag A with that manifest.
fn form_with(alloc: Global, manifest: &str) -> Result<String, AllocError> {
    let front = text_of(alloc, r"BAGSET 1\n{declared}{payload}FILE 19 ")?;
    let length = manifest.len();
    format!(in alloc; "{front}{length}\nmanifest-sha256.txt{manifest}\nEND\n")
}

/// Whether this line is said where this number of bytes is left of the manifest.
fn says_of_cut(rt: &HostRuntime, length: usize, line: &str) -> Result<bool, Fail> {
    let manifest = MANIFEST.get(..length).ok_or("longer than the manifest")?;
    let form = form_with(rt.alloc(), manifest)?;
    Ok(says(rt, form.as_bytes(), line)?)
}

#[test]
fn manifests_that_are_cut(rt: HostRuntime) -> Result<(), Fail> {
    for (least, most, line) in &CUT {
        for length in *least..most.saturating_add(1) {
            assert!(rt; says_of_cut(&rt, length, line)?, "{length}");
        }
    }
    Ok(())
}

/// Numbers of four digits, a line each, with that before each.
fn numbered(alloc: Global, before: &str, count: u32) -> Result<String, AllocError> {
    let mut text = String::new(alloc);
    for number in 0..count {
        text.push_str(&format!(in alloc; "{before}{number:04}\n")?)?;
    }
    Ok(text)
}

/// A manifest that lists this number of empty payload files.
fn listed(alloc: Global, count: u32) -> Result<String, AllocError> {
    let before = text_of(alloc, "{nothing}  data/")?;
    numbered(alloc, &before, count)
}

/// The form of a bag with this number of empty payload files, with names of four digits, all listed.
fn empty_files(alloc: Global, count: u32) -> Result<String, AllocError> {
    let front = text_of(alloc, r"BAGSET 1\n{declared}")?;
    let files = numbered(alloc, "FILE 9 0\ndata/", count)?;
    let manifest = listed(alloc, count)?;
    let length = manifest.len();
    format!(in alloc; "{front}{files}FILE 19 {length}\nmanifest-sha256.txt{manifest}\nEND\n")
}

/// What follows two thousand files, and the line that is printed.
static BEHIND: [(&str, &str); 4] = [
    ("END\n", "invalid B1\n"),
    ("FILE 4 0", "unreadable S3\n"),
    ("FILE 4 0\n", "unreadable S6\n"),
    ("FILE 4 0\n2000\nEND\n", "unreadable S6\n"),
];

/// Whether this line is said where that follows two thousand files.
fn says_after(rt: &HostRuntime, rest: &str, line: &str) -> Result<bool, AllocError> {
    let mut form = many_files(rt.alloc(), 2000)?;
    form.extend_from_slice(rest.as_bytes())?;
    says(rt, form.as_slice(), line)
}

/// Whether this is told of one file more.
fn tells_of_one_more(rt: &HostRuntime, reason: &str) -> Result<bool, AllocError> {
    let mut form = many_files(rt.alloc(), 2001)?;
    form.extend_from_slice(b"END\n")?;
    let outcome = check_outcome(rt.alloc(), form.as_slice())?;
    Ok(told(&outcome) == reason)
}

/// Numbers of empty payload files, and the line that is printed of a bag that lists this number.
static COUNTS: [(u32, &str); 2] = [
    (1998, "valid 1.0 files 1998 bytes 0 manifests 1\n"),
    (1999, "unreadable S6\n"),
];

/// Whether this line is said of a bag of this number of empty payload files.
fn says_of_empty(rt: &HostRuntime, count: u32, line: &str) -> Result<bool, AllocError> {
    let form = empty_files(rt.alloc(), count)?;
    says(rt, form.as_bytes(), line)
}

/// Whether a path of 1,024 bytes is read.
fn reads_longest_path(rt: &HostRuntime) -> Result<bool, AllocError> {
    let path = "a".repeat(rt.alloc(), 1024)?;
    let form = format!(in rt.alloc(); "BAGSET 1\nFILE 1024 0\n{path}\nEND\n")?;
    says(rt, form.as_bytes(), "invalid B1\n")
}

#[test]
fn two_thousand_files_and_one_more(rt: HostRuntime) -> Result<(), Fail> {
    for (rest, line) in &BEHIND {
        holds(&rt, says_after(&rt, rest, line)?, rest);
    }
    let reason = "the form has more files than the 2,000 that a bag may have (S6)\n";
    assert!(rt; tells_of_one_more(&rt, reason)?);
    Ok(())
}

#[test]
fn bags_at_their_limits(rt: HostRuntime) -> Result<(), Fail> {
    for (count, line) in &COUNTS {
        holds(&rt, says_of_empty(&rt, *count, line)?, line);
    }
    assert!(rt; reads_longest_path(&rt)?);
    Ok(())
}
