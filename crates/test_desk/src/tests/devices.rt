//! The calls of `desk_devices` and of `desk_heads` on a device: heads, what follows them, and writes, at devices that fail.

use crate::tests::rows::holds;
use desk_devices::{Counted, FailAt, FillFault, Portion, WriteFailed, fill, write_whole};
use desk_heads::{HeadEnd, HeadFault, find_head_end, read_head};
use std::alloc::{AllocError, Global};
use std::io::{Error, ErrorKind, Read, Write};
use std::test::*;

/// Bytes that have a head, and where it ends.
static HEADS: [(&str, usize); 6] = [
    ("GET / HTTP/1.1\r\nDepot-Caller: anna\r\n\r\n", 38),
    ("GET / HTTP/1.1\n\nbody", 16),
    ("\n\n", 2),
    ("\r\n\r\n", 4),
    ("a\n\r\nb\n\n", 4),
    ("a\r\n\n", 4),
];

/// Bytes that have none yet.
static SHORT: [&str; 6] = ["", "\n", "a\r\n\r", "a\n\r\r\n", "a\n \n", "\r\r\r"];

#[test]
fn ends_of_heads(rt: HostRuntime) {
    for (text, end) in &HEADS {
        let found = find_head_end(text.as_bytes());
        holds(&rt, found == HeadEnd::Found(*end), text);
    }
    for text in &SHORT {
        holds(&rt, find_head_end(text.as_bytes()) == HeadEnd::Short, text);
    }
}

/// A number of letters `a`, what follows them, and where the head of these bytes ends.
static LONG: [(usize, &str, HeadEnd); 7] = [
    (8_191, "", HeadEnd::Short),
    (8_192, "", HeadEnd::TooLarge),
    (8_193, "", HeadEnd::TooLarge),
    (8_189, "\n\nb", HeadEnd::Found(8_191)),
    (8_190, "\n\nb", HeadEnd::Found(8_192)),
    (8_191, "\n\nb", HeadEnd::TooLarge),
    (8_192, "\n\nb", HeadEnd::TooLarge),
];

/// Where the head ends that is read of the bytes.
fn read_end_or_entry(alloc: Global, bytes: &[u8]) -> HeadEnd {
    let mut reader = Counted::new(FailAt::new(bytes, Portion::All, 100));
    match read_head(alloc, &mut reader) {
        Ok(head) => HeadEnd::Found(head.end),
        Err(HeadFault::TooLarge) => HeadEnd::TooLarge,
        Err(_) => HeadEnd::Short,
    }
}

/// Whether the head of the letters and what follows them ends there, and where it is read, too.
fn ends_at(alloc: Global, letters: usize, end: &str, found: HeadEnd) -> Result<bool, AllocError> {
    let mut text = "a".repeat(alloc, letters)?;
    text.push_str(end)?;
    let bytes = text.as_bytes();
    Ok(find_head_end(bytes) == found && read_end_or_entry(alloc, bytes) == found)
}

#[test]
fn heads_of_8192_bytes(rt: HostRuntime) -> Result<(), AllocError> {
    for (letters, end, found) in &LONG {
        let is_so = ends_at(rt.alloc(), *letters, end, *found)?;
        assert!(rt; is_so, "{letters} letters");
    }
    Ok(())
}

/// What is read of `GET / HTTP/1.1`, an empty line and `body` by a device that works for this number of
/// calls: the end of the head, how many bytes came, and how many calls failed.
fn read_at(
    alloc: Global,
    input: &str,
    portion: Portion,
    calls: u64,
) -> Result<(usize, usize, u64), (HeadFault, u64)> {
    let mut reader = Counted::new(FailAt::new(input.as_bytes(), portion, calls));
    match read_head(alloc, &mut reader) {
        Ok(head) => Ok((head.end, head.bytes.len(), reader.failures())),
        Err(fault) => Err((fault, reader.failures())),
    }
}

#[test]
fn heads_at_devices_that_fail(rt: HostRuntime) {
    let input = "GET / HTTP/1.1\n\nbody";
    let short = "GET / HTTP/1.1\n";
    let rows = [
        (input, Portion::OneByte, 16, Ok((16, 16, 0))),
        (input, Portion::OneByte, 15, Err((HeadFault::Read, 1))),
        (input, Portion::OneByte, 0, Err((HeadFault::Read, 1))),
        (input, Portion::All, 1, Ok((16, 20, 0))),
        (input, Portion::All, 0, Err((HeadFault::Read, 1))),
        (short, Portion::OneByte, 16, Err((HeadFault::Truncated, 0))),
        (short, Portion::OneByte, 15, Err((HeadFault::Read, 1))),
        (short, Portion::All, 2, Err((HeadFault::Truncated, 0))),
        ("", Portion::All, 1, Err((HeadFault::Truncated, 0))),
    ];
    for (text, portion, calls, want) in &rows {
        let found = read_at(rt.alloc(), text, *portion, *calls);
        assert_eq!(rt; found, *want, "{text:?} at {calls}");
    }
}

/// What comes of `body` by a device that works for this number of calls, to follow the two bytes
/// `a\n`: the bytes, and how many calls failed.
fn fill_at(
    alloc: Global,
    portion: Portion,
    calls: u64,
    want: usize,
) -> Result<(Result<(), FillFault>, Vec<u8>, u64), Fail> {
    let mut bytes = Vec::from_slice(alloc, b"a\n")?;
    let mut reader = Counted::new(FailAt::new("body".as_bytes(), portion, calls));
    let result = fill(&mut reader, &mut bytes, want);
    Ok((result, bytes, reader.failures()))
}

/// How a device gives bytes, for how many calls it works and how many bytes are wanted; and then the
/// answer, the bytes, and how many calls failed.
static FILLED: [(Portion, u64, usize, Result<(), FillFault>, &str, u64); 6] = [
    (Portion::OneByte, 0, 2, Ok(()), "a\n", 0),
    (Portion::OneByte, 3, 5, Ok(()), "a\nbod", 0),
    (Portion::OneByte, 2, 5, Err(FillFault::Read), "a\nbo", 1),
    (Portion::All, 1, 5, Ok(()), "a\nbody", 0),
    (Portion::All, 1, 7, Err(FillFault::Read), "a\nbody", 1),
    (Portion::All, 2, 7, Err(FillFault::Truncated), "a\nbody", 0),
];

#[test]
fn bytes_after_a_head(rt: HostRuntime) -> Result<(), Fail> {
    for (portion, calls, want, answer, text, failures) in &FILLED {
        let (result, bytes, failed) = fill_at(rt.alloc(), *portion, *calls, *want)?;
        assert!(rt; result == *answer);
        assert!(rt; bytes.as_slice() == text.as_bytes());
        assert!(rt; failed == *failures);
    }
    Ok(())
}

/// How a device takes bytes, and for how many calls it works; and then the answer to a write of `body`,
/// the bytes that are written, and how many calls failed.
static WRITTEN: [(Portion, u64, Result<(), WriteFailed>, &str, u64); 4] = [
    (Portion::OneByte, 4, Ok(()), "body", 0),
    (Portion::OneByte, 3, Err(WriteFailed), "bod", 1),
    (Portion::All, 1, Ok(()), "body", 0),
    (Portion::All, 0, Err(WriteFailed), "", 1),
];

/// Whether that comes of a write of `body` to such a device.
fn is_written(alloc: Global, row: &(Portion, u64, Result<(), WriteFailed>, &str, u64)) -> bool {
    let (portion, calls, answer, text, failures) = *row;
    let memory: Vec<u8> = Vec::new(alloc);
    let mut writer = Counted::new(FailAt::new(memory, portion, calls));
    write_whole(&mut writer, b"body") == answer
        && writer.device().memory.as_slice() == text.as_bytes()
        && writer.failures() == failures
}

#[test]
fn bytes_written_whole(rt: HostRuntime) {
    for row in &WRITTEN {
        holds(&rt, is_written(rt.alloc(), row), row.3);
    }
}

/// The kind of an error, where there is one.
fn kind_of(error: Option<Error>) -> Option<ErrorKind> {
    Some(error?.kind())
}

#[test]
fn failed_reads_are_counted(rt: HostRuntime) {
    let mut reader = Counted::new(FailAt::new("ab".as_bytes(), Portion::OneByte, 1));
    let mut buffer = [0u8; 4];
    assert!(rt; matches!(reader.read(&mut buffer), Ok(1)));
    assert!(rt; reader.read(&mut buffer).is_err());
    assert!(rt; reader.read(&mut buffer).is_err());
    assert!(rt; reader.failures() == 2);
    assert!(rt; kind_of(reader.last_error()) == Some(ErrorKind::BrokenPipe));
    assert!(rt; reader.into_device().memory == b"b".as_slice());
}

#[test]
fn failed_writes_are_counted(rt: HostRuntime) {
    let memory: Vec<u8> = Vec::new(rt.alloc());
    let mut writer = Counted::new(FailAt::new(memory, Portion::All, 2));
    assert!(rt; writer.flush().is_ok());
    assert!(rt; matches!(writer.write(b"ab"), Ok(2)));
    assert!(rt; writer.flush().is_err());
    assert!(rt; writer.write(b"c").is_err());
    assert!(rt; writer.failures() == 2);
    assert!(rt; writer.device().memory.as_slice() == b"ab".as_slice());
}

#[test]
fn a_write_that_takes_nothing_is_counted(rt: HostRuntime) {
    let mut full = [0u8; 1];
    let mut narrow = Counted::new(&mut full[..]);
    assert!(rt; matches!(narrow.write(b"ab"), Ok(1)));
    assert!(rt; matches!(narrow.write(b""), Ok(0)));
    assert!(rt; narrow.failures() == 0);
    assert!(rt; narrow.last_error().is_none());
    assert!(rt; matches!(narrow.write(b"b"), Ok(0)));
    assert!(rt; narrow.failures() == 1);
    assert!(rt; kind_of(narrow.last_error()) == Some(ErrorKind::WriteZero));
}
