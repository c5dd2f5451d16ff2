//! A stop of both files at any of their calls, while an office is made and the files are closed.

use crate::files::NOT_CLOSED;
use crate::offices::Way;
use crate::parts::agree;
use crate::stores::take_over;
use std::alloc::Global;
use std::test::Fail;
use test_sessions::{Disks, MANY, copy_files, empty, has_stopped, lose};

/// The whole empty office: the eleven tables of an office, and its indexes, those that keys make too.
const WHOLE: &str = "open\n\
     read|limits > OfficeLimits { max_deposits: 10, max_holds: 20 }\n\
     held > 1|5|10|20;--;--;--;--;--;--;--;--;--;\n\
     show|SELECT type, name FROM sqlite_schema > table|office;table|caller;\
     index|sqlite_autoindex_caller_1;table|rule;table|class;index|sqlite_autoindex_class_1;\
     table|collection;index|sqlite_autoindex_collection_1;table|deposit;\
     index|sqlite_autoindex_deposit_1;table|file;index|sqlite_autoindex_file_1;table|hold;\
     table|content;index|hold_deposit;index|hold_collection;index|file_content;\
     index|content_mark;index|deposit_due;table|hold_4;index|hold_4_deposit;\
     index|hold_4_collection;index|hold_4_class;table|rule_5;";

/// An empty database.
const EMPTY: &str = "open > Q1\n\
     show|SELECT name FROM sqlite_schema > ";

/// What the steps answer over the files, which are handed back.
fn answer(alloc: Global, files: Disks, steps: &'static str) -> (Option<String>, Disks) {
    take_over(alloc, files, Way::Steps, ("steps", steps))
}

/// Whether the files hold an office, which is then the whole empty office; else they hold an empty
/// database.
fn hold_office(alloc: Global, files: Disks) -> Result<bool, Fail> {
    let (opened, files) = answer(alloc, files, "open");
    let is_office = opened.ok_or("no answer")?.is_empty();
    let (differs, _) = answer(alloc, files, if is_office { WHOLE } else { EMPTY });
    agree(differs)?;
    Ok(is_office)
}

/// Makes an office in empty files, which stop after this number of calls, and closes them: whether the log
/// and the database file have stopped. Fails where an office that was made is lost, with all that was
/// written or with what was synced alone.
fn stop(alloc: Global, log_calls: u64, db_calls: u64) -> Result<(bool, bool), Fail> {
    let (made, mut left) = answer(alloc, empty(alloc, log_calls, db_calls), "create");
    let made = made.ok_or("no answer")?;
    let is_made = made.is_empty() || made.as_str() == NOT_CLOSED;
    let stopped = (has_stopped(&mut left.log), has_stopped(&mut left.db));
    let is_written = hold_office(alloc, copy_files(alloc, &left, MANY, MANY)?)?;
    let is_synced = hold_office(alloc, lose(left))?;
    if is_made && !(is_written && is_synced) {
        return Err(Fail::new("an office that was made is lost"));
    }
    Ok(stopped)
}

/// Stops the log after this number of calls, and the database file at its first call, then at its second,
/// and so on, until it doesn't stop: whether the log has stopped then, and at how many calls the
/// database file was stopped.
fn stops_of_database(alloc: Global, log_calls: u64) -> Result<(bool, u64), Fail> {
    for db_calls in 0..1_000 {
        let (log_stopped, db_stopped) = stop(alloc, log_calls, db_calls)?;
        if !db_stopped {
            return Ok((log_stopped, db_calls));
        }
    }
    Err(Fail::new("no run without a stop of the database file"))
}

/// Does so with the log stopped at its first call, then at its second, and so on, until it doesn't
/// stop: how many stops there are in all.
fn stops(alloc: Global) -> Result<u64, Fail> {
    let mut count = 0u64;
    for log_calls in 0..1_000 {
        let (log_stopped, db_calls) = stops_of_database(alloc, log_calls)?;
        count = db_calls.saturating_add(count);
        if !log_stopped {
            return Ok(count);
        }
        count = count.saturating_add(1);
    }
    Err(Fail::new("no run without a stop of the log"))
}

/// Each stop leaves an empty database or the whole empty office. Fails where there are few stops.
pub fn each_stop_leaves_an_office_or_none(alloc: Global) -> Result<(), Fail> {
    if stops(alloc)? <= 100 {
        return Err("few stops".into());
    }
    Ok(())
}
