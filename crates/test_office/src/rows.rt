//! Rows of a session, in words.

use std::alloc::Global;
use test_sessions::{Row, TestRequest};

/// The answer to a download of the bag `BAG`.
const WHOLE: &str =
    "bag BAGSET 1\nFILE 9 54\nbagit.txtBagIt-Version: 1.0\nTag-File-Character-Encoding: UTF-8\n\nFILE 6 3\ndata/aabc\nFILE 19 73\nmanifest-sha256.txtba7816bf8f01cfea414140de5dae2223b00361a396177a9cb410ff61f20015ad  data/a\n\nEND\n";

/// The same, where the bytes of `data/a` are `abd`.
const OTHER_BYTES: &str =
    "bag BAGSET 1\nFILE 9 54\nbagit.txtBagIt-Version: 1.0\nTag-File-Character-Encoding: UTF-8\n\nFILE 6 3\ndata/aabd\nFILE 19 73\nmanifest-sha256.txtba7816bf8f01cfea414140de5dae2223b00361a396177a9cb410ff61f20015ad  data/a\n\nEND\n";

/// The answer to a download of the bag `BAG_0_97`.
const WHOLE_0_97: &str =
    "bag BAGSET 1\nFILE 9 55\nbagit.txtBagIt-Version: 0.97\nTag-File-Character-Encoding: UTF-8\n\nFILE 6 3\ndata/aabc\nFILE 19 73\nmanifest-sha256.txtba7816bf8f01cfea414140de5dae2223b00361a396177a9cb410ff61f20015ad  data/a\n\nEND\n";

/// An answer, where a bag has one word.
fn answer_of(answer: &'static str) -> &'static str {
    match answer {
        "whole" => WHOLE,
        "other bytes" => OTHER_BYTES,
        "whole 0.97" => WHOLE_0_97,
        "none" => "bag BAGSET 1\nEND\n",
        _ => answer,
    }
}

/// The rows of a text: lines that say what is asked and what is told, as `record 9 > NoSuch deposit`,
/// after a line with the day and who asks. Those before any such line are asked by `anna` on
/// 2030-01-01.
pub(crate) fn rows(alloc: Global, text: &'static str) -> Option<Vec<Row>> {
    let mut rows = Vec::new(alloc);
    let mut when = ("2030-01-01", "anna");
    for line in text.lines() {
        match line.split_once(" > ") {
            Some((asks, answer)) => {
                let words: Vec<&'static str> = asks.split(' ').collect(alloc).ok()?;
                rows.push((
                    when.0,
                    when.1,
                    TestRequest::read(&words)?,
                    answer_of(answer),
                ))
                .ok()?;
            }
            None => when = line.split_once(' ')?,
        }
    }
    Some(rows)
}
