//! Sessions whose answers are compared as the bodies that a peer gets, worked out by hand from `docs/HTTP.md`.

use crate::parts::Part;
use crate::rows::rows;
use desk_answers::answer_bytes;
use office_core::{Answer, Day};
use std::alloc::Global;
use test_sessions::AnyOffice;

/// The body of the response that gives the answer.
fn body(alloc: Global, answer: &Answer) -> Option<String> {
    let bytes = answer_bytes(alloc, answer).ok()?;
    let (_, body) = str::from_utf8(&bytes).ok()?.split_once("\r\n\r\n")?;
    String::from_str(alloc, body).ok()
}

/// Puts the rows to the office one after the other: the first whose answer has another body, with that body, or no
/// text.
pub(crate) fn put_for_bodies<O: AnyOffice>(
    alloc: Global,
    office: &mut O,
    text: &'static str,
) -> Option<String> {
    for (at, row) in rows(alloc, text)?.iter().enumerate() {
        let (day, caller, asked, told) = *row;
        let answer = office.step(alloc, Day::read(day)?, caller, &asked.request()?);
        let body = body(alloc, &answer)?;
        // (in words a bag has one before it)
        if body.as_str() != told.strip_prefix("bag ").unwrap_or(told) {
            return format!(in alloc; "row {at} answers {body}").ok();
        }
    }
    Some(String::new(alloc))
}

/// Holds, contents, lists, due lists, and files that were altered.
pub(crate) static BODIES: [&[Part]; 8] = [
    // A hold of a collection covers what comes later.
    &[
        ("office", "1000000"),
        (
            "bodies",
            "2024-03-02 anna\n\
             hold-all maps > {\"hold\":1}\n\
             2024-03-03 anna\n\
             deposit maps y1 A-1 > {\"deposit\":1}\n\
             2030-01-01 anna\n\
             dispose 1 > {\"error\":\"Held\",\"hold\":1}\n\
             hold 1 > {\"hold\":2}\n\
             2030-01-02 anna\n\
             release 1 > {\"hold\":1,\"released\":\"2030-01-02\"}\n\
             dispose 1 > {\"error\":\"Held\",\"hold\":2}\n\
             2030-01-03 anna\n\
             release 2 > {\"hold\":2,\"released\":\"2030-01-03\"}\n\
             dispose 1 > {\"day\":\"2030-01-03\",\"destroyed\":1}\n\
             hold 1 > {\"day\":\"2030-01-03\",\"error\":\"Gone\"}\n\
             release 2 > {\"day\":\"2030-01-03\",\"error\":\"Released\"}",
        ),
    ],
    // What two deposits share goes with the last of them.
    &[
        ("office", "1000000"),
        (
            "bodies",
            "2024-03-01 anna\n\
             deposit maps y1 A-1 > {\"deposit\":1}\n\
             deposit maps y1 A-2 2024-02-29 0.97 > {\"deposit\":2}",
        ),
        ("stock", "4 contents, 185 bytes"),
        (
            "bodies",
            "dispose 1 > {\"day\":\"2030-01-01\",\"destroyed\":1}\n\
             bag 2 > whole 0.97",
        ),
        ("stock", "3 contents, 131 bytes"),
        (
            "bodies",
            "dispose 2 > {\"day\":\"2030-01-01\",\"destroyed\":2}",
        ),
        ("stock", "0 contents, 0 bytes"),
    ],
    // The rules decide which records a list has, and which numbers a due list has.
    &[
        ("office", "1000000"),
        (
            "bodies",
            "2024-03-01 anna\n\
             deposit maps y10 A-1 > {\"deposit\":1}\n\
             deposit tax y10 A-2 > {\"deposit\":2}\n\
             deposit maps y1 A-3 > {\"deposit\":3}\n\
             2024-03-01 carl\n\
             list > {\"deposits\":[{\"accession\":\"A-1\",\"bytes\":3,\"class\":\"y10\",\
             \"closed\":\"2024-02-29\",\"collection\":\"maps\",\"deposit\":1,\
             \"deposited\":\"2024-03-01\",\"due\":\"2034-02-28\",\"files\":1},\
             {\"accession\":\"A-2\",\"bytes\":3,\"class\":\"y10\",\
             \"closed\":\"2024-02-29\",\"collection\":\"tax\",\"deposit\":2,\
             \"deposited\":\"2024-03-01\",\"due\":\"2034-02-28\",\"files\":1}]}\n\
             2024-03-05 anna\n\
             due > {\"day\":\"2024-03-05\",\"deposits\":[]}\n\
             class y10 0 > {\"class\":\"y10\",\"years\":0}\n\
             due > {\"day\":\"2024-03-05\",\"deposits\":[1]}",
        ),
    ],
    // A content of no byte counts, too.
    &[
        ("office", "1000000"),
        (
            "bodies",
            "2024-03-01 anna\n\
             deposit maps y1 A-1 2024-02-29 empty > {\"deposit\":1}",
        ),
        ("stock", "3 contents, 140 bytes"),
    ],
    // Due lists follow holds, disposals and years, and rest on the due day that is stored: 20512 is 2026-02-28.
    &[
        ("office", "1000000"),
        (
            "bodies",
            "2024-03-01 anna\n\
             deposit maps y1 A-1 > {\"deposit\":1}\n\
             deposit maps y1 A-2 > {\"deposit\":2}\n\
             hold 2 > {\"hold\":1}\n\
             hold-all maps > {\"hold\":2}\n\
             2025-02-28 anna\n\
             due > {\"day\":\"2025-02-28\",\"deposits\":[]}\n\
             release 2 > {\"hold\":2,\"released\":\"2025-02-28\"}\n\
             due > {\"day\":\"2025-02-28\",\"deposits\":[1]}\n\
             release 1 > {\"hold\":1,\"released\":\"2025-02-28\"}\n\
             due > {\"day\":\"2025-02-28\",\"deposits\":[1,2]}\n\
             2025-02-27 anna\n\
             due > {\"day\":\"2025-02-27\",\"deposits\":[]}\n\
             2025-02-28 anna\n\
             dispose 1 > {\"day\":\"2025-02-28\",\"destroyed\":1}\n\
             due > {\"day\":\"2025-02-28\",\"deposits\":[2]}\n\
             keep y1 > {\"class\":\"y1\",\"years\":null}\n\
             due > {\"day\":\"2025-02-28\",\"deposits\":[]}\n\
             class y1 1 > {\"class\":\"y1\",\"years\":1}\n\
             due > {\"day\":\"2025-02-28\",\"deposits\":[2]}",
        ),
        ("alters", "UPDATE deposit SET due = 20512 WHERE number = 2"),
        (
            "bodies altered",
            "2025-02-28 anna\n\
             due > {\"day\":\"2025-02-28\",\"deposits\":[]}",
        ),
    ],
    // A file has other bytes; the same bag, deposited again, is served as it came.
    &[
        ("office", "1000000"),
        (
            "bodies",
            "2024-03-01 anna\n\
             deposit maps y1 A-1 > {\"deposit\":1}",
        ),
        (
            "alters",
            "UPDATE content SET bytes = x'616264' WHERE bytes = x'616263'",
        ),
        (
            "bodies altered",
            "2024-03-01 anna\n\
             file 1 data/a > {\"error\":\"Store\"}\n\
             bag 1 > {\"error\":\"Store\"}\n\
             audit 1 > {\"deposit\":1,\"fault\":\"B17 manifest-sha256.txt data/a\",\"valid\":false}\n\
             deposit maps y1 A-2 > {\"deposit\":2}\n\
             bag 2 > whole",
        ),
    ],
    // A file is missing.
    &[
        ("office", "1000000"),
        (
            "bodies",
            "2024-03-01 anna\n\
             deposit maps y1 A-1 > {\"deposit\":1}",
        ),
        ("alters", "DELETE FROM file WHERE path = 'data/a'"),
        (
            "bodies altered",
            "audit 1 > {\"deposit\":1,\"fault\":\"B11 manifest-sha256.txt data/a\",\"valid\":false}",
        ),
    ],
    // There is one more, whose path is none.
    &[
        ("office", "1000000"),
        (
            "bodies",
            "2024-03-01 anna\n\
             deposit maps y1 A-1 > {\"deposit\":1}",
        ),
        (
            "alters",
            "INSERT INTO file (deposit, path, content) SELECT 1, 'data/../x', id FROM content WHERE size = 3",
        ),
        (
            "bodies altered",
            "bag 1 > {\"error\":\"Store\"}\n\
             audit 1 > {\"deposit\":1,\"fault\":\"S5 1\",\"valid\":false}",
        ),
    ],
];
