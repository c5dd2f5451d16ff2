//! Sessions over each store, and rows put to the plain office.

use crate::bodies::put_for_bodies;
use crate::files::take_once;
use crate::offices::{Way, equip, install_named, limits, other_stock, put};
use crate::parts::{Part, agree, take_part};
use sqlite::Connection;
use std::alloc::Global;
use std::test::Fail;
use test_plain::Office;
use test_sessions::{Disks, MANY, empty};

/// A plain office with the policy, the classes and the collections of `test_sessions`.
fn new_plain(alloc: Global, most: &str) -> Result<Office, Fail> {
    let mut office = Office::create(alloc, limits(most).ok_or("limits")?);
    agree(equip(alloc, &mut office))?;
    Ok(office)
}

/// Takes a part with the plain office, which has no tables that could be altered.
fn take_plain(alloc: Global, office: &mut Office, way: Way, part: Part) -> Option<String> {
    let (kind, text) = part;
    match kind {
        "policy" => install_named(alloc, office, text),
        "asks" => put(alloc, office, way, text),
        "bodies" => put_for_bodies(alloc, office, text),
        "stock" => other_stock(alloc, office, text),
        _ => Some(String::new(alloc)),
    }
}

/// Takes the parts after the first, which makes the office, with a plain office.
fn in_plain(alloc: Global, way: Way, parts: &[Part]) -> Result<(), Fail> {
    let (first, rest) = parts.split_first().ok_or("no part")?;
    let mut office = new_plain(alloc, first.1)?;
    for part in rest {
        agree(take_plain(alloc, &mut office, way, *part))?;
    }
    Ok(())
}

/// Takes the parts over a database in memory.
pub(crate) fn in_memory(alloc: Global, way: Way, parts: &[Part]) -> Result<(), Fail> {
    let mut conn = Connection::open_in_memory(alloc)?;
    for part in parts {
        let (differs, left) = take_part(alloc, conn, way, *part);
        agree(differs)?;
        conn = left;
    }
    Ok(())
}

/// Takes the part over the files, which are handed back, with what is answered otherwise, or no text.
pub(crate) fn take_over(
    alloc: Global,
    files: Disks,
    way: Way,
    part: Part,
) -> (Option<String>, Disks) {
    take_once(alloc, files, way, part)
}

/// Takes the parts over new files, which are closed and opened again between them.
pub(crate) fn in_files(alloc: Global, way: Way, parts: &[Part]) -> Result<Disks, Fail> {
    let mut files = empty(alloc, MANY, MANY);
    for part in parts {
        let (differs, left) = take_over(alloc, files, way, *part);
        agree(differs)?;
        files = left;
    }
    Ok(files)
}

/// Takes each session over new files and in a new database in memory.
pub(crate) fn over_tables(alloc: Global, way: Way, sessions: &[&[Part]]) -> Result<(), Fail> {
    for parts in sessions {
        let _files = in_files(alloc, way, parts)?;
        in_memory(alloc, way, parts)?;
    }
    Ok(())
}

/// Takes each session with a plain office and in a new database in memory, by steps.
pub(crate) fn to_both_in_memory(alloc: Global, sessions: &[&[Part]]) -> Result<(), Fail> {
    for parts in sessions {
        in_plain(alloc, Way::Steps, parts)?;
        in_memory(alloc, Way::Steps, parts)?;
    }
    Ok(())
}

/// Puts each session to each office, by steps and by runs.
pub(crate) fn to_offices(alloc: Global, sessions: &[&[Part]]) -> Result<(), Fail> {
    for way in [Way::Steps, Way::OneRun] {
        for parts in sessions {
            in_plain(alloc, way, parts)?;
        }
        over_tables(alloc, way, sessions)?;
    }
    Ok(())
}
