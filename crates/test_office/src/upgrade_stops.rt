//! A stop of both files at any of their calls, while an office of an older version is upgraded.

use crate::files::NOT_CLOSED;
use crate::offices::Way;
use crate::parts::{Part, agree};
use crate::stores::{in_files, take_over};
use crate::upgrades::UPGRADES;
use std::alloc::Global;
use std::test::Fail;
use test_sessions::{Disks, MANY, copy_files, has_stopped, lose};

/// An office of an older version in files.
#[derive(Drop)]
struct Older<'a> {
    files: Disks,
    /// The rows that it holds, and those that it holds once it is upgraded.
    rows: Part,
    renewed: Part,
    /// It is upgraded, and goes on.
    rest: &'a [Part],
}

/// Files in which an office was found, and whether it is one of this version.
#[derive(Drop)]
struct Found {
    files: Disks,
    is_renewed: bool,
}

/// Takes the parts one after the other over the files.
fn go_on(alloc: Global, files: Disks, parts: &[Part]) -> Result<(), Fail> {
    let mut files = files;
    for part in parts {
        let (differs, left) = take_over(alloc, files, Way::OneRun, *part);
        agree(differs)?;
        files = left;
    }
    Ok(())
}

/// Whether the files hold an office of this version. Where they do not, they hold the older one.
fn is_newest(alloc: Global, files: Disks) -> Result<bool, Fail> {
    let (told, _) = take_over(alloc, files, Way::Steps, ("found", ""));
    match told.ok_or("no answer")?.as_str() {
        "" => Ok(true),
        "Q2" => Ok(false),
        _ => Err(Fail::new("another office is found")),
    }
}

/// Whether the files hold the same bytes.
fn is_same(one: &Disks, other: &Disks) -> bool {
    one.log.inner().bytes() == other.log.inner().bytes()
        && one.db.inner().bytes() == other.db.inner().bytes()
}

/// Finds the office in files of these bytes. It has all rows of this version, or all of the older one. Either is
/// upgraded, and goes on.
fn find(alloc: Global, older: &Older<'_>, files: &Disks) -> Result<Found, Fail> {
    let is_renewed = is_newest(alloc, copy_files(alloc, files, MANY, MANY)?)?;
    let rows = if is_renewed {
        older.renewed
    } else {
        older.rows
    };
    go_on(alloc, copy_files(alloc, files, MANY, MANY)?, &[rows])?;
    go_on(alloc, copy_files(alloc, files, MANY, MANY)?, older.rest)?;
    Ok(Found {
        files: copy_files(alloc, files, MANY, MANY)?,
        is_renewed,
    })
}

/// The same, where it may have been found before in files of the same bytes: most calls change none.
fn find_after(
    alloc: Global,
    older: &Older<'_>,
    files: &Disks,
    before: Found,
) -> Result<Found, Fail> {
    if is_same(files, &before.files) {
        return Ok(before);
    }
    find(alloc, older, files)
}

/// Whether the upgrade was done. It was, too, where the store failed after it, as its tables were looked at: then none
/// is told. Where it was not, the files were not opened, or the store failed.
fn was_done(told: Option<String>) -> Result<bool, Fail> {
    match told {
        None => Ok(true),
        Some(text) => match text.as_str() {
            "" | NOT_CLOSED => Ok(true),
            "not opened" | "Q4" => Ok(false),
            _ => Err(Fail::new(text)),
        },
    }
}

/// What a stop left: with all that was written, and with what was synced alone; and whether the log and the database
/// file have stopped.
#[derive(Drop)]
struct Left {
    written: Found,
    synced: Found,
    stopped: (bool, bool),
}

/// What is left where nothing was done.
fn leave(alloc: Global, older: &Older<'_>) -> Result<Left, Fail> {
    Ok(Left {
        written: find(alloc, older, &older.files)?,
        synced: find(alloc, older, &older.files)?,
        stopped: (false, false),
    })
}

/// Upgrades the office in the files, which stop after this number of calls, and finds what is left.
fn stop(
    alloc: Global,
    older: &Older<'_>,
    log_calls: u64,
    db_calls: u64,
    before: Left,
) -> Result<Left, Fail> {
    let files = copy_files(alloc, &older.files, log_calls, db_calls)?;
    let (told, mut files) = take_over(alloc, files, Way::Steps, ("upgraded", ""));
    let is_done = was_done(told)?;
    let stopped = (has_stopped(&mut files.log), has_stopped(&mut files.db));
    let written = find_after(alloc, older, &files, before.written)?;
    let synced = find_after(alloc, older, &lose(files), before.synced)?;
    if is_done && !(written.is_renewed && synced.is_renewed) {
        return Err(Fail::new("an upgrade that was done is lost"));
    }
    if synced.is_renewed && !written.is_renewed {
        return Err(Fail::new("what was synced is not written"));
    }
    if !is_done && !stopped.0 && !stopped.1 {
        return Err(Fail::new("nothing stops, and nothing is upgraded"));
    }
    Ok(Left {
        written,
        synced,
        stopped,
    })
}

/// Which of the two files stops.
#[derive(Clone, Copy)]
enum Stopping {
    Log,
    Database,
}

/// Stops the file at its first call, then at its second, and so on, until it doesn't stop: how many stops there are.
fn stops_of(alloc: Global, older: &Older<'_>, file: Stopping) -> Result<u64, Fail> {
    let mut left = leave(alloc, older)?;
    for calls in 0..1_000 {
        let (log_calls, db_calls) = match file {
            Stopping::Log => (calls, MANY),
            Stopping::Database => (MANY, calls),
        };
        left = stop(alloc, older, log_calls, db_calls, left)?;
        let has_stopped = match file {
            Stopping::Log => left.stopped.0,
            Stopping::Database => left.stopped.1,
        };
        if !has_stopped {
            return Ok(calls);
        }
    }
    Err(Fail::new("no upgrade without a stop"))
}

/// Each stop in an upgrade leaves the older office or the upgraded one, which go on alike. Fails where there are few
/// stops.
pub fn each_stop_in_an_upgrade_leaves_an_office_that_goes_on(alloc: Global) -> Result<(), Fail> {
    for session in UPGRADES.iter() {
        let [made, rows, _, rest @ ..] = session else {
            return Err("no session".into());
        };
        let [_, renewed, ..] = rest else {
            return Err("no rows".into());
        };
        let older = Older {
            files: in_files(alloc, Way::Steps, &[*made])?,
            rows: *rows,
            renewed: *renewed,
            rest,
        };
        let log = stops_of(alloc, &older, Stopping::Log)?;
        let db = stops_of(alloc, &older, Stopping::Database)?;
        if log <= 10 || db <= 5 {
            return Err(Fail::new(format!(in alloc;
                "few stops: {log} of the log, {db} of the database file"
            )?));
        }
    }
    Ok(())
}
