//! The calls of `http_desk`: what is where a record may begin, and the records of answers.

use crate::tests::rows::holds;
use http_desk::{Found, MAX_REQUEST, answer_record, record_at};
use office_core::Day;
use std::alloc::{AllocError, Global};
use std::test::*;

/// A record's text, and the day that it names, its bytes and what follows it.
static WHOLE: [(&str, &str, &str, &str); 5] = [
    ("REQ 2024-03-01 0\n\n", "2024-03-01", "", ""),
    ("REQ 2024-02-29 0\n\n\n", "2024-02-29", "", "\n"),
    ("REQ 1900-01-01 1\na\nx", "1900-01-01", "a", "x"),
    ("REQ 9799-12-31 2\n\n\n\n", "9799-12-31", "\n\n", ""),
    (
        "REQ 2024-03-01 10\nabcdefghij\nREQ",
        "2024-03-01",
        "abcdefghij",
        "REQ",
    ),
];

/// Whether the text of the row is a record, with what the row says of it.
fn is_whole(row: &(&str, &str, &str, &str)) -> bool {
    match record_at(row.0.as_bytes()) {
        Found::Whole { day, bytes, rest } => {
            Some(day) == Day::read(row.1) && bytes == row.2.as_bytes() && rest == row.3.as_bytes()
        }
        _ => false,
    }
}

#[test]
fn whole_records(rt: HostRuntime) {
    for row in &WHOLE {
        holds(&rt, is_whole(row), row.0);
    }
}

static BEGINNINGS: [&str; 10] = [
    "",
    "R",
    "REQ 2024-03-01",
    "REQ 2024-03-01 16800000",
    "REQ 2024-03-01 16800000\n",
    "REQ 2024-03-01 0\n",
    "REQ 2024-03-01 3\nab\n",
    "REQ 2024-03-01 3\nabc",
    "REQ 2024-03-01 4\n\n\n\n\n",
    "no line yet",
];

static BAD: [&str; 22] = [
    "\n",
    "REQ \n",
    "req 2024-03-01 0\n\n",
    "ANS 0\n\n",
    "REQ 2024-03-01\n",
    "REQ 2024-03-01 \n",
    "REQ 2024-03-01 00\n\n",
    "REQ 2024-03-01 01\na\n",
    "REQ 2024-03-01 -0\n\n",
    "REQ 2024-03-01 +1\na\n",
    "REQ 2024-03-01  1\na\n",
    "REQ 2024-03-01 0 \n\n",
    "REQ 2024-03-01 0\r\n\n",
    "REQ 2024-03-01\t0\n\n",
    "REQ 2024-02-30 0\n\n",
    "REQ 1899-12-31 0\n\n",
    "REQ 9800-01-01 0\n\n",
    "REQ 24-03-01 0\n\n",
    "REQ 2024-03-01 16800001\n",
    "REQ 2024-03-01 168000000",
    "REQ 2024-03-01 3\nabcd",
    "REQ 2024-03-01 0\nREQ",
];

#[test]
fn no_records(rt: HostRuntime) {
    for text in &BEGINNINGS {
        holds(&rt, record_at(text.as_bytes()) == Found::More, text);
    }
    for text in &BAD {
        holds(&rt, record_at(text.as_bytes()) == Found::Bad, text);
    }
    assert!(rt; record_at(b"REQ \xff024-03-01 0\n\n") == Found::Bad);
}

/// Answers, and their records.
static ANSWERS: [(&str, &str); 3] = [
    ("", "ANS 0\n\n"),
    ("ok", "ANS 2\nok\n"),
    ("\n\n", "ANS 2\n\n\n\n"),
];

/// Whether the answer has this record.
fn is_recorded(alloc: Global, bytes: &str, text: &str) -> Result<bool, AllocError> {
    Ok(answer_record(alloc, bytes.as_bytes())?.as_slice() == text.as_bytes())
}

#[test]
fn records_of_answers(rt: HostRuntime) -> Result<(), AllocError> {
    for (bytes, text) in &ANSWERS {
        holds(&rt, is_recorded(rt.alloc(), bytes, text)?, text);
    }
    assert!(rt; MAX_REQUEST == 16_800_000);
    Ok(())
}
