//! Streams that fail: all that is printed to standard error, and how a run ends.

use crate::tests::output::{Taking, Told};
use crate::tests::runs::{Given, begin, run_with};
use commands::Ending;
use program::refuse_words;
use std::fs;
use std::io::{Error, ErrorKind};
use std::test::*;

/// Runs, how many bytes the input gives before it fails, and what becomes of what is printed and told.
static FAILURES: [(&str, u64, Taking, Taking); 14] = [
    // The input fails at once, and in the middle.
    (
        "check,-||Failed||device\ndepot: cannot read standard input: broken pipe\n",
        0,
        Taking::All,
        Taking::All,
    ),
    (
        "check,-|~bag~|Failed||device\ndepot: cannot read standard input: broken pipe\n",
        100,
        Taking::All,
        Taking::All,
    ),
    // The output takes nothing, fails, or fails as it is flushed.
    (
        "check,-|~bag~|Failed||device\ndepot: cannot write standard output: write zero\n",
        u64::MAX,
        Taking::Nothing,
        Taking::All,
    ),
    (
        "check,-|~bag~|Failed||device\ndepot: cannot write standard output: broken pipe\n",
        u64::MAX,
        Taking::Fails,
        Taking::All,
    ),
    (
        "check,-|~bag~|Failed|valid 1.0 files 1 bytes 3 manifests 1\n|device\ndepot: cannot write standard output: broken pipe\n",
        u64::MAX,
        Taking::Unflushed,
        Taking::All,
    ),
    // Standard error fails, as it is told of a failure, of a bag that is refused, and of words.
    ("check,-||Unsaid||", 0, Taking::All, Taking::Fails),
    (
        "check,-||Unsaid|unreadable S3\n|",
        u64::MAX,
        Taking::All,
        Taking::Fails,
    ),
    ("judge,-||Unsaid||", u64::MAX, Taking::All, Taking::Nothing),
    // And as it is told of a folder that is packed, and is no bag.
    (
        "pack,f/plain,f/form||Unsaid|packed 1 files 27 bytes\n|",
        u64::MAX,
        Taking::All,
        Taking::Fails,
    ),
    // It takes all, and fails as it is flushed.
    (
        "check,-||Unsaid||device\n",
        0,
        Taking::All,
        Taking::Unflushed,
    ),
    (
        "check,-||Unsaid|unreadable S3\n|the form ..",
        u64::MAX,
        Taking::All,
        Taking::Unflushed,
    ),
    (
        "judge,-||Unsaid||depot has no subcommand judge\n..",
        u64::MAX,
        Taking::All,
        Taking::Unflushed,
    ),
    // What tells nothing ends well all the same.
    (
        "check,-|~bag~|Accepted|valid 1.0 files 1 bytes 3 manifests 1\n|",
        u64::MAX,
        Taking::All,
        Taking::Fails,
    ),
    // A `serve` whose last line can't be written ends well all the same.
    (
        "serve,--port,0,--count,1,:memory:,2024-03-01|~maps~|Accepted|~denied~#|",
        u64::MAX,
        Taking::All,
        Taking::Fails,
    ),
];

#[test]
fn streams_that_fail(rt: HostRuntime) -> Result<(), Fail> {
    begin(&rt, "f", &[("f/plain/a", "abc")])?;
    for (text, gives, output, error) in &FAILURES {
        let given = Given {
            gives: *gives,
            output: *output,
            error: *error,
            ..Given::new(b"")
        };
        run_with(&rt, text, &given)?;
    }
    let form = fs::read(&rt, "f/form")?;
    assert!(rt; form.as_slice() == b"BAGSET 1\nFILE 1 3\naabc\nEND\n".as_slice());
    fs::remove_dir_all(&rt, "f")?;
    Ok(())
}

/// Why the words could not be had, what is printed to standard error, and how it ends.
static ERRORS: [(ErrorKind, &str, Ending); 3] = [
    (
        ErrorKind::InvalidData,
        "a word is not UTF-8: give names of files and folders in UTF-8\n",
        Ending::Misused,
    ),
    (ErrorKind::BrokenPipe, "device\n", Ending::Failed),
    (ErrorKind::OutOfMemory, "memory\n", Ending::Failed),
];

#[test]
fn words_that_could_not_be_had(rt: HostRuntime) {
    for (kind, text, want) in &ERRORS {
        let mut error = Told {
            said: Vec::new(rt.alloc()),
            taking: Taking::All,
        };
        let ending = refuse_words(&Error::from(*kind), &mut error);
        assert!(rt; error.said.as_slice() == text.as_bytes(), "{text}");
        assert!(rt; ending == *want, "{text}");
        error.taking = Taking::Fails;
        let ending = refuse_words(&Error::from(*kind), &mut error);
        assert!(rt; ending == Ending::Unsaid, "{text}");
        assert!(rt; ending.status() == 3, "{text}");
    }
}
