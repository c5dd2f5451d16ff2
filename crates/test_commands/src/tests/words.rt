//! The sentences that no run of `check` or `explain` tells, and files that are no form.

use crate::tests::rows::{holds, rows_of};
use bag_check::BagFault;
use bag_text::{InfoFault, LineFault, PathCause, SetFault, Version, path_cause, read_bagset};
use fault_words::{
    FolderWords, InWords, OddCause, OddEntry, OtherFile, TooLarge, bag_lines, form_lines, hint_for,
    missing_day_words, policy_reason,
};
use office_core::{PolicyFault, read_policy};
use std::alloc::{AllocError, Global};
use std::test::*;
use test_bags::{bytes_of, text_of};

/// What is said of the files of a folder: of one file at fault its path comes in front.
static FOLDERS: &str = "has more than 16,777,216 bytes, the most that a file of a bag may have (S2)
does not come after the path before it, byte for byte (S4)
is no good path: it is not UTF-8, has more than 1,024 bytes or a NUL, or has a segment that is empty, . or .. (S5)
the folder has more files than the 2,000 that a bag may have (S6)
a path of the folder is data, or names both a file and a folder (S8)
the files of the folder are no bag";

/// What is said of files whose form is longer than any that is written.
static TOO_LARGE: &str =
    "the form of the folder is longer than 16,777,216 bytes, the most that is written (SIZE)";

#[test]
fn folders_in_words(rt: HostRuntime) -> Result<(), AllocError> {
    let faults = [
        SetFault::BadEntry(3),
        SetFault::OutOfOrder(1),
        SetFault::BadPath(0),
        SetFault::TooManyFiles,
        SetFault::PathClash,
        SetFault::Truncated,
    ];
    let mut lines = 0usize;
    for (line, fault) in FOLDERS.lines().zip(faults.iter()) {
        let said = FolderWords(*fault).to_string(rt.alloc())?;
        assert!(rt; line == said.as_str(), "{said}");
        lines = lines.saturating_add(1);
    }
    assert!(rt; lines == 6);
    assert!(rt; TooLarge.to_string(rt.alloc())?.as_str() == TOO_LARGE);
    Ok(())
}

/// Whether this is told of the fault of a bag.
fn tells(alloc: Global, fault: BagFault<'_>, wanted: &str) -> Result<bool, AllocError> {
    Ok(InWords(&fault).to_string(alloc)?.as_str() == wanted)
}

#[test]
fn want_of_memory_in_words(rt: HostRuntime) -> Result<(), AllocError> {
    let manifest = BagFault::ManifestText {
        manifest: "manifest-sha256.txt",
        fault: LineFault::Memory,
    };
    assert!(rt; tells(rt.alloc(), manifest, "memory ran out (B6 L7)")?);
    let info = BagFault::InfoText(InfoFault::Memory);
    assert!(rt; tells(rt.alloc(), info, "memory ran out (B13 I6)")?);
    assert!(rt; tells(rt.alloc(), BagFault::Memory, "memory ran out (B18)")?);
    Ok(())
}

#[test]
fn want_of_memory_in_other_words(rt: HostRuntime) -> Result<(), AllocError> {
    let form = InWords(&SetFault::Memory).to_string(rt.alloc())?;
    assert!(rt; form.as_str() == "memory ran out (S9)");
    let policy = InWords(&PolicyFault::Memory).to_string(rt.alloc())?;
    assert!(rt; policy.as_str() == "memory ran out (Y7)");
    Ok(())
}

/// Lines that no fault of their bag names, since its manifest isn't UTF-8, and what is told of them as of
/// lines that list no good path.
static BAD_PATHS: [(usize, &str); 2] = [
    (
        1,
        "line 1 of manifest-sha256.txt has no good path: it is not UTF-8 (B6 L5)\n",
    ),
    (
        2,
        "line 2 of manifest-sha256.txt has no good path (B6 L5)\n",
    ),
];

#[test]
fn paths_of_a_manifest_that_is_no_text(rt: HostRuntime) -> Result<(), Fail> {
    let cause = path_cause(rt.alloc(), Version::V1_0, b"0 data/\xFF")?;
    assert!(rt; cause == Some(PathCause::NotUtf8));
    let form = bytes_of(
        rt.alloc(),
        r"BAGSET 1\n{declared}{payload}FILE 19 74\nmanifest-sha256.txt{abc}  data/a{ff}\n\nEND\n",
    )?;
    let bag = read_bagset(rt.alloc(), form.as_slice())?;
    for (line, wanted) in &BAD_PATHS {
        let fault = BagFault::ManifestText {
            manifest: "manifest-sha256.txt",
            fault: LineFault::BadPath(*line),
        };
        let lines = bag_lines(rt.alloc(), &bag, &fault)?;
        holds(&rt, lines.as_str() == *wanted, wanted);
    }
    Ok(())
}

static BEGINNINGS: [(&[u8], Option<OtherFile>); 9] = [
    (b"PK\x03\x04\x14", Some(OtherFile::Zip)),
    (b"PK\x03", None),
    (b"\x1F\x8B\x08", Some(OtherFile::Gzip)),
    (b"BagIt-Version: 1.0\n", Some(OtherFile::Declaration)),
    (b"BAGSET 1\r\nEND\r\n", Some(OtherFile::ChangedForm)),
    (b"BAGSET 1\nEND\n", None),
    (b"BAGSET 1\n\r", None),
    (b"ustar", None),
    (b"", None),
];

/// Whether a file that begins so is that one. A hint is given of bytes that begin otherwise than a form,
/// and of no others.
fn is_other(bytes: &[u8], other: Option<OtherFile>) -> bool {
    OtherFile::of(bytes) == other
        && hint_for(SetFault::BadOpening, bytes) == other
        && hint_for(SetFault::TrailingBytes, bytes) == None
}

/// Places in a tar file, from one to the other, and whether the bytes between them are told as a tar
/// file's.
static TAR_PARTS: [(usize, usize, Option<OtherFile>); 4] = [
    (0, 512, Some(OtherFile::Tar)),
    (0, 262, Some(OtherFile::Tar)),
    (0, 261, None),
    (1, 512, None),
];

#[test]
fn files_by_their_beginnings(rt: HostRuntime) -> Result<(), Fail> {
    for (bytes, other) in &BEGINNINGS {
        assert!(rt; is_other(*bytes, *other));
    }
    let mut bytes = [0; 512];
    bytes[257..262].copy_from_slice(b"ustar");
    for (from, to, other) in &TAR_PARTS {
        let part = bytes.get(*from..*to).ok_or("longer")?;
        assert!(rt; OtherFile::of(part) == *other);
    }
    Ok(())
}

/// What a file may be taken for that begins otherwise than a form, and what is told then.
static OPENINGS: [(Option<OtherFile>, &str); 2] = [
    (
        Some(OtherFile::Tar),
        "this is no transfer form: it does not begin with the line BAGSET 1 (S1)\nthis looks like a tar file; a bag's transfer form is wanted, which depot pack makes of a folder\n",
    ),
    (
        None,
        "this is no transfer form: it does not begin with the line BAGSET 1 (S1)\n",
    ),
];

#[test]
fn files_in_words(rt: HostRuntime) -> Result<(), AllocError> {
    for (other, wanted) in &OPENINGS {
        let lines = form_lines(rt.alloc(), SetFault::BadOpening, *other)?;
        holds(&rt, lines.as_str() == *wanted, wanted);
    }
    let folder = OtherFile::Folder.to_string(rt.alloc())?;
    assert!(rt;
        folder.as_str()
            == "this is a folder; a bag's transfer form is wanted, which depot pack makes of it"
    );
    Ok(())
}

/// Policies that are refused, and what is printed of each to standard error, with marks: the line, the key
/// and the caller are worked out by hand.
static REFUSED_POLICIES: &str = r#"
version = 1\n# {ff}\n => the policy is no text in TOML (Y1): line 2\n
version = 1\n[callers]\nanna = "clerk\ncarl = "clerk"\n => the policy is no text in TOML (Y1): line 3\n
version = 1\n\n[callers]\nanna = "clerk"\nanna = "clerk"\ncarl = "clerk"\n => the policy is no text in TOML (Y1): line 5\n
version = 1\nrule = [\n]\n\n[callers\n => the policy is no text in TOML (Y1): line 5\n
version = 1\nrule = [\n1,\n2,\n3,\n => the policy is no text in TOML (Y1): line 2\n
= => the policy is no text in TOML (Y1): line 1\n
version = 3\n => the policy has no version, or one that is neither the whole number 1 nor 2 (Y2)\n
version = 1\n"to do" = 1\nzone = 1\n => the policy has a key at the top other than version, callers and rule (Y3): the key to%20do\n
version = 1\n[callers]\ncarl = "clerk"\nAnna = "clerk"\n => the callers of the policy are no table, or a caller or a role is no name (Y4): the caller Anna\n
version = 1\n[callers]\nanna = "clerk"\ncarl = 1\neve = 2\n => the callers of the policy are no table, or a caller or a role is no name (Y4): the caller carl\n
version = 1\ncallers = []\n => the callers of the policy are no table, or a caller or a role is no name (Y4): the key callers\n
version = 1\nrule = 1\n => the rules of the policy are no array: each begins with the line [[rule]] (Y5)\n
version = 1\nrule = [1]\n => rule 1{no-rule}\n
version = 1\nrule = [{effect="allow",role="*",action="list",collection="*",class="*",note="x",at=1}]\n => rule 1{no-rule}: the key at\n
version = 1\nrule = [{effect="allow",role="*",action="list",collection="*",class="*"},{effect="allow",role="*",action="lists",collection="*",class=1}]\n => rule 2{no-rule}: the key action\n
version = 1\nrule = [{effect="allow",role="*",action="list",collection="*"}]\n => rule 1{no-rule}: the key class\n
# Days: none in version 1; a text that is no day, a date that is no text, and a first day after the last.
version = 1\nrule = [{effect="allow",role="*",action="list",collection="*",class="*",last="2024-12-31"}]\n => rule 1{no-rule}: the key last\n
version = 1\nrule = [{effect="allow",role="*",action="list",collection="*",class="*",first="x",last="y"}]\n => rule 1{no-rule}: the key first\n
version = 2\nrule = [{effect="allow",role="*",action="list",collection="*",class="*",first="2024-02-29",last="9800-01-01"}]\n => rule 1{no-rule}: the key last\n
version = 2\nrule = [{effect="allow",role="*",action="list",collection="*",class="*",last=2024-12-31}]\n => rule 1{no-rule}: the key last\n
version = 2\nrule = [{effect="allow",role="*",action="list",collection="*",class="*",first="2024-12-31",last="2024-12-30"}]\n => rule 1{no-rule}: the key first\n
version = 2\nrule = [{effect="allow",role="*",action="list",collection="*",class="",first="2025-02-29",note="x"}]\n => rule 1{no-rule}: the key note\n
version = 2\nrule = [{effect="allow",role="*",action="list",collection="*",class="",first="2025-02-29"}]\n => rule 1{no-rule}: the key class\n
"#;

/// What is told of the bytes of a policy's file: nothing where they are one.
fn reason_of(alloc: Global, bytes: &[u8]) -> Result<String, AllocError> {
    let fault = match str::from_utf8(bytes) {
        Ok(text) => match read_policy(alloc, text) {
            Ok(_) => return Ok(String::new(alloc)),
            Err(fault) => fault,
        },
        Err(_) => PolicyFault::NotToml,
    };
    policy_reason(alloc, bytes, fault)
}

/// Whether this is told of a policy's file, both with marks.
fn is_told(alloc: Global, policy: &str, reason: &str) -> Result<bool, AllocError> {
    let policy = bytes_of(alloc, policy)?;
    let said = reason_of(alloc, policy.as_slice())?;
    Ok(said.as_str() == text_of(alloc, reason)?.as_str())
}

#[test]
fn locations_in_policies(rt: HostRuntime) -> Result<(), Fail> {
    let rows = rows_of(rt.alloc(), REFUSED_POLICIES, 23)?;
    for (policy, reason) in &rows {
        holds(&rt, is_told(rt.alloc(), policy, reason)?, policy);
    }
    Ok(())
}

#[test]
fn a_fault_without_a_location(rt: HostRuntime) -> Result<(), AllocError> {
    // The bytes don't have it.
    let said = policy_reason(rt.alloc(), b"version = 1\n", PolicyFault::NotToml)?;
    assert!(rt; said.as_str() == "the policy is no text in TOML (Y1)\n");
    Ok(())
}

/// Why an entry of a folder is odd, and what is told of it.
static ODD_ENTRIES: [(OddCause, &str); 2] = [
    (
        OddCause::NoFile,
        "the entry a%20b/link of the folder is neither a file nor a folder, such as a link (NAME)",
    ),
    (
        OddCause::NotUtf8,
        "the entry a%20b/link of the folder has a name that is not UTF-8 (NAME)",
    ),
];

#[test]
fn an_odd_entry_by_its_path(rt: HostRuntime) -> Result<(), Fail> {
    for (cause, wanted) in &ODD_ENTRIES {
        let entry = OddEntry {
            path: "a b/link",
            cause: *cause,
        };
        holds(
            &rt,
            entry.to_string(rt.alloc())?.as_str() == *wanted,
            wanted,
        );
    }
    Ok(())
}

#[test]
fn a_missing_day_in_words(rt: HostRuntime) -> Result<(), AllocError> {
    let words = missing_day_words();
    let said = format!(in rt.alloc(); "{words}\n")?;
    assert!(rt; said.as_str() == text_of(rt.alloc(), "{no-day}")?.as_str());
    Ok(())
}
