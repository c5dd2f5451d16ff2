//! A stop in a request and in a run, and what is found again in the files.

use crate::offices::Way;
use crate::parts::{Part, agree};
use crate::rows::rows;
use crate::stores::in_files;
use office_core::{Answer, Day, Request};
use office_engine::Office;
use sqlite::{FileStore, Files};
use sqlite_disk::Disk;
use std::alloc::{AllocError, Global};
use std::test::Fail;
use test_sessions::{Row, SMALL_CACHES, TestRequest, words};
use test_stops::{reopen, stop_in, stop_in_run};

static BEFORE: [Part; 2] = [
    ("office", "1000000"),
    (
        "asks",
        "2024-03-01 anna\n\
         deposit maps y1 A-1 > deposit 1\n\
         deposit maps y1 A-2 > deposit 2",
    ),
];

const AFTER_THE_REQUEST: &str = "2024-03-02 anna\n\
     holds 1 > holds: 1 on deposit placed 2024-03-02 for Case 7;\n\
     list > list: 1 2\n\
     2025-02-28 anna\n\
     dispose 1 > Held 1";

const THE_RUN: &str = "2024-03-02 anna\n\
     hold-all maps > hold 2\n\
     release 1 > released 1 2024-03-02\n\
     class y1 2 > class y1 2";

const AFTER_THE_RUN: &str = "2025-02-28 anna\n\
     dispose 1 > Held 2\n\
     dispose 2 > Held 2\n\
     release 1 > Released 2024-03-02\n\
     release 2 > released 2 2025-02-28\n\
     dispose 2 > NotDue 2026-02-28";

/// The office that is found in the files.
fn find_office<D: Disk + Drop>(alloc: Global, files: Files<D>) -> Option<Office<FileStore<D>>> {
    if !files.may_be_used() {
        return None;
    }
    reopen(alloc, files, SMALL_CACHES)
}

/// Stops in a hold of deposit 1. What the files have then.
fn stop_in_hold<D: Disk + Drop>(alloc: Global, files: Files<D>) -> Option<Files<D>> {
    let day = Day::read("2024-03-02")?;
    let hold = TestRequest::HoldDeposit(1).request()?;
    let store = stop_in(alloc, find_office(alloc, files)?, day, "anna", &hold);
    Some(store.close())
}

/// What the rows ask, as a run takes it.
fn items_of(alloc: Global, rows: &[Row]) -> Option<Vec<(Day, &'static str, Request<'static>)>> {
    let mut items = Vec::new(alloc);
    for (day, caller, asked, _) in rows {
        items
            .push((Day::read(day)?, *caller, asked.request()?))
            .ok()?;
    }
    Some(items)
}

/// The first answer that its row doesn't tell, or no text.
fn other_answer(
    alloc: Global,
    answers: &Result<Vec<Answer>, AllocError>,
    rows: &[Row],
) -> Option<String> {
    let answers = answers.as_ref().ok()?;
    if answers.len() != rows.len() {
        return String::from_str(alloc, "another number of answers").ok();
    }
    for (answer, row) in answers.iter().zip(rows.iter()) {
        let answer = words(alloc, answer).ok()?;
        if answer.as_str() != row.3 {
            return Some(answer);
        }
    }
    Some(String::new(alloc))
}

/// Stops in a run of the rows. What is answered otherwise, or no text, and what the files have then.
fn stop_in_rows<D: Disk + Drop>(
    alloc: Global,
    files: Files<D>,
    text: &'static str,
) -> Option<(String, Files<D>)> {
    let rows = rows(alloc, text)?;
    let items = items_of(alloc, &rows)?;
    let stopped = stop_in_run(alloc, find_office(alloc, files)?, &items);
    let files = stopped.files.close();
    Some((other_answer(alloc, &stopped.answers, &rows)?, files))
}

/// Stops in a hold of deposit 1, and then in each of the runs, each time with an opening of the files
/// before it. What is answered otherwise, or no text.
fn stop_in_turn<D: Disk + Drop>(
    alloc: Global,
    files: Files<D>,
    runs: &[&'static str],
) -> Option<String> {
    let mut files = stop_in_hold(alloc, files)?;
    for text in runs {
        let (differs, left) = stop_in_rows(alloc, files, text)?;
        if !differs.is_empty() {
            return Some(differs);
        }
        files = left;
    }
    Some(String::new(alloc))
}

/// A stop in a request leaves the office after it.
pub fn a_stop_leaves_the_office_after_its_last_request(alloc: Global) -> Result<(), Fail> {
    let files = in_files(alloc, Way::Steps, &BEFORE)?;
    agree(stop_in_turn(alloc, files, &[AFTER_THE_REQUEST]))
}

/// A stop in a run leaves the office after it.
pub fn a_stop_leaves_the_office_after_the_run(alloc: Global) -> Result<(), Fail> {
    let files = in_files(alloc, Way::Steps, &BEFORE)?;
    agree(stop_in_turn(alloc, files, &[THE_RUN, AFTER_THE_RUN]))
}
