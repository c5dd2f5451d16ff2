//! The calls of `bag_text`: texts that are read and written, and the faults at each limit.

use crate::tests::rows::holds;
use bag_text::{
    Algorithm, BagInfo, BagPath, BagSet, Checksum, Listing, MAX_CONTENT, MAX_FILES, MAX_PATH,
    Manifest, Version, as_text, has_digits_alone, read_bag_info, read_bagset, read_declaration,
    read_manifest, write_bagset,
};
use std::alloc::{AllocError, Global};
use std::borrow::CowStr;
use std::process::Abort;
use std::test::*;
use test_bags::text_of;

const DECLARATION: &str = "BagIt-Version: 1.0\nTag-File-Character-Encoding: UTF-8\n";

static MANIFEST: &[u8] =
    b"ba7816bf8f01cfea414140de5dae2223b00361a396177a9cb410ff61f20015ad  data/a\n";

/// The form of a bag of these files, or their fault.
fn form_of(alloc: Global, files: &[(&str, &[u8])]) -> Result<String, Fail> {
    match BagSet::of(alloc, files) {
        Ok(bag) => Ok(String::from_utf8(write_bagset(alloc, &bag)?)?),
        Err(fault) => Ok(fault.to_string(alloc)?),
    }
}

/// A path of bag A, and what its file has, where it has one.
static CONTENTS: [(&str, Option<&[u8]>); 3] = [
    (
        "bagit.txt",
        Some(b"BagIt-Version: 1.0\nTag-File-Character-Encoding: UTF-8\n"),
    ),
    ("data/a", Some(b"abc")),
    ("data", None),
];

/// Fails the test, where the bag has other files.
fn compare_contents(rt: &impl Abort, bag: &BagSet<'_>) {
    for (path, content) in &CONTENTS {
        holds(rt, bag.get(path) == *content, path);
    }
    holds(rt, bag.files().len() == 3, "files");
}

#[test]
fn reads_a_small_bag(rt: HostRuntime) -> Result<(), Fail> {
    let form = text_of(rt.alloc(), r"BAGSET 1\n{bag}")?;
    assert!(rt; form.len() == 210);
    let bag = read_bagset(rt.alloc(), form.as_bytes())?;
    compare_contents(&rt, &bag);
    // And makes and writes it.
    assert!(rt; form_of(rt.alloc(), bag.files())?.as_str() == form.as_str());
    Ok(())
}

/// Bytes, and whether they are digits alone.
static DIGITS: [(&[u8], bool); 2] = [(b"0199", true), (b"1.0", false)];

#[test]
fn reads_a_declaration(rt: HostRuntime) {
    assert!(rt; read_declaration(DECLARATION.as_bytes()) == Ok(Version::V1_0));
    assert!(rt; as_text(DECLARATION.as_bytes()) == Some(DECLARATION));
    for (bytes, is_so) in &DIGITS {
        assert!(rt; has_digits_alone(bytes) == *is_so);
    }
}

/// Paths, and where a manifest lists each, if it does.
static LISTED: [(&str, Option<Listing>); 2] = [
    (
        "data/a",
        Some(Listing {
            checksum: Checksum::Sha256([
                0xba, 0x78, 0x16, 0xbf, 0x8f, 0x01, 0xcf, 0xea, 0x41, 0x41, 0x40, 0xde, 0x5d, 0xae,
                0x22, 0x23, 0xb0, 0x03, 0x61, 0xa3, 0x96, 0x17, 0x7a, 0x9c, 0xb4, 0x10, 0xff, 0x61,
                0xf2, 0x00, 0x15, 0xad,
            ]),
            line: 1,
        }),
    ),
    ("data/b", None),
];

/// Fails the test, where other paths are listed.
fn compare_listed(rt: &impl Abort, listed: &Manifest<'_>) {
    for (path, listing) in &LISTED {
        holds(rt, listed.get(path) == *listing, path);
        holds(rt, listed.lists(path) == listing.is_some(), path);
    }
    holds(rt, listed.entries.len() == 1, "entries");
}

#[test]
fn reads_a_manifest(rt: HostRuntime) -> Result<(), Fail> {
    let listed = read_manifest(rt.alloc(), MANIFEST, Version::V1_0, Algorithm::Sha256)?;
    compare_listed(&rt, &listed);
    Ok(())
}

/// Files, and the form of a bag of them, or their fault.
static LISTS: [(&[(&str, &[u8])], &str); 7] = [
    (&[], "BAGSET 1\nEND\n"),
    (
        &[("a", b""), ("b", b"")],
        "BAGSET 1\nFILE 1 0\na\nFILE 1 0\nb\nEND\n",
    ),
    (&[("b", b""), ("a", b"")], "S4 1"),
    (&[("a", b""), ("a", b"")], "S4 1"),
    (&[("b", b""), ("a//b", b"")], "S5 1"),
    (&[("data", b"")], "S8"),
    (
        &[("data/a", b""), ("data/a!", b""), ("data/a/b", b"")],
        "S8",
    ),
];

/// Whether this is said of these files.
fn has_form(alloc: Global, files: &[(&str, &[u8])], want: &str) -> Result<bool, Fail> {
    Ok(form_of(alloc, files)?.as_str() == want)
}

#[test]
fn lists_of_files(rt: HostRuntime) -> Result<(), Fail> {
    for (files, want) in &LISTS {
        holds(&rt, has_form(rt.alloc(), files, want)?, want);
    }
    Ok(())
}

/// What is said of a file with one byte too many.
fn said_of_content(alloc: Global) -> Result<String, Fail> {
    let content = vec![in alloc; 0; MAX_CONTENT + 1]?;
    form_of(alloc, &[("", content.as_slice())])
}

/// What is said of a path with one byte too many.
fn said_of_long_path(alloc: Global) -> Result<String, Fail> {
    let path = "a".repeat(alloc, MAX_PATH + 1)?;
    form_of(alloc, &[(path.as_str(), b"")])
}

#[test]
fn names_what_is_too_long_in_a_list(rt: HostRuntime) -> Result<(), Fail> {
    assert!(rt; said_of_content(rt.alloc())?.as_str() == "S2 0");
    assert!(rt; said_of_long_path(rt.alloc())?.as_str() == "S5 0");
    Ok(())
}

/// Names of four digits, a line each.
fn numbers(alloc: Global, count: usize) -> Result<String, AllocError> {
    let mut names = String::new(alloc);
    for number in 0..count {
        names.push_str(&format!(in alloc; "{number:04}\n")?)?;
    }
    Ok(names)
}

/// Empty files with these names.
fn empty_files(alloc: Global, names: &str) -> Result<Vec<(&str, &[u8])>, AllocError> {
    let mut files: Vec<(&str, &[u8])> = Vec::new(alloc);
    for name in names.lines() {
        files.push((name, b"".as_slice()))?;
    }
    Ok(files)
}

/// The form of a bag of this number of empty files, or their fault.
fn form_of_many(alloc: Global, count: usize) -> Result<String, Fail> {
    let names = numbers(alloc, count)?;
    let files = empty_files(alloc, &names)?;
    form_of(alloc, &files)
}

#[test]
fn takes_two_thousand_files(rt: HostRuntime) -> Result<(), Fail> {
    assert!(rt; form_of_many(rt.alloc(), MAX_FILES + 1)?.as_str() == "S6");
    assert!(rt; form_of_many(rt.alloc(), MAX_FILES)?.starts_with("BAGSET 1\n"));
    Ok(())
}

/// A text of three labels with their values.
static INFO: &[u8] =
    b"Source-Organization \t:  An archive: the old one \r\n\r\nExternal-Description: one\n \t two: 2\n  \t\n\tthree\rPayload-Oxum:3.1";

/// Each label and value, and whether the value is in the text as it is.
static PAIRS: [(&str, &str, bool); 3] = [
    ("Source-Organization", "An archive: the old one ", true),
    ("External-Description", "one\ntwo: 2\nthree", false),
    ("Payload-Oxum", "3.1", true),
];

/// Whether the label and the value at this position are those of the row.
fn is_row(info: &BagInfo<'_>, at: usize, row: &(&str, &str, bool)) -> bool {
    match info.pairs.get(at) {
        Some((label, value)) => {
            let is_lent = matches!(value, CowStr::Borrowed(_));
            *label == row.0 && value.as_str() == row.1 && is_lent == row.2
        }
        None => false,
    }
}

/// Fails the test, where there are other labels and values.
fn compare_pairs(rt: &impl Abort, info: &BagInfo<'_>) {
    for (at, row) in PAIRS.iter().enumerate() {
        holds(rt, is_row(info, at, row), row.0);
    }
    holds(rt, info.pairs.len() == PAIRS.len(), "pairs");
}

#[test]
fn labels_and_values(rt: HostRuntime) -> Result<(), Fail> {
    let info = read_bag_info(rt.alloc(), INFO)?;
    compare_pairs(&rt, &info);
    Ok(())
}

/// The fault of a text as labels with their values, or nothing.
fn fault_of_info(alloc: Global, text: &[u8]) -> Result<String, AllocError> {
    match read_bag_info(alloc, text) {
        Ok(_) => Ok(String::new(alloc)),
        Err(fault) => fault.to_string(alloc),
    }
}

#[test]
fn no_label(rt: HostRuntime) -> Result<(), AllocError> {
    let fault = fault_of_info(rt.alloc(), b"A: b\r\n\t\nc\n: d\n")?;
    assert!(rt; fault.as_str() == "I3 3");
    Ok(())
}

/// Texts, and the fault of each as a path, or nothing. Of two faults the least counts. `{1024}` is as many
/// bytes.
static PATHS: [(&str, &str); 20] = [
    ("a", ""),
    ("...", ""),
    ("a b/.c", ""),
    ("data/a b/..c", ""),
    ("\u{e9}\n\r%*\\", ""),
    ("", "P1"),
    ("/", "P3"),
    ("/a", "P3"),
    ("a/", "P3"),
    ("a//b", "P3"),
    ("../", "P3"),
    (".", "P4"),
    ("./a", "P4"),
    ("a/../b", "P4"),
    ("data/../a", "P4"),
    ("\0/..", "P4"),
    ("a\0b", "P5"),
    ("{1024}", ""),
    ("{1024}a", "P2"),
    ("{1024}a/../\0", "P2"),
];

/// The fault of a text as a path, or the path as it was read.
fn said_of_path(alloc: Global, text: &str) -> Result<String, AllocError> {
    match BagPath::read(text) {
        Ok(path) => String::from_str(alloc, path.as_str()),
        Err(fault) => fault.to_string(alloc),
    }
}

/// Whether the text with the mark has that fault as a path, or is one where none is named.
fn is_path(alloc: Global, marked: &str, fault: &str) -> Result<bool, AllocError> {
    let long = "\u{e9}".repeat(alloc, 512)?;
    let text = marked.replace(alloc, "{1024}", &long)?;
    let said = said_of_path(alloc, &text)?;
    if fault.is_empty() {
        return Ok(said == text);
    }
    Ok(said.as_str() == fault)
}

#[test]
fn paths(rt: HostRuntime) -> Result<(), AllocError> {
    for (text, fault) in &PATHS {
        holds(&rt, is_path(rt.alloc(), text, fault)?, text);
    }
    Ok(())
}
