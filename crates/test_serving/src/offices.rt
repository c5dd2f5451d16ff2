//! An office in two files, and what is done with it.

use crate::accepts::take_accepts;
use crate::day::take_day;
use crate::files::{leave, open};
use crate::listening::take_peers;
use crate::replays::take_records;
use crate::sessions::{take_altered, take_holds, take_rules};
use crate::stops::{START, Visit, Way, visit_over};
use crate::troubles::take_troubles;
use office_core::Limits;
use office_engine::Office;
use sqlite::{Alter, Connection, Files, Options};
use sqlite_disk::Disk;
use std::test::Fail;
use test_sessions::{Disks, look};

/// What is put to an office that was made.
#[derive(Clone, Copy)]
pub(crate) enum Part {
    Nothing,
    /// Requests as bytes.
    Requests,
    /// Records of requests.
    Records,
    /// Peers that connect.
    Peers,
    /// A session with holds on classes, and requests where a content is altered.
    Holds,
    /// A session under rules with days.
    Rules,
}

/// What is done with two files.
#[derive(Clone, Copy)]
pub(crate) enum Task {
    /// An office is made in them, and something is put to it.
    Make(Part),
    /// The office in them is visited.
    Visit(Way),
}

/// Gives the office the policy, the classes and the collections of the worked sessions.
fn furnish<S: Alter>(rt: &HostRuntime, office: &mut Office<S>) -> Result<(), Fail> {
    match test_sessions::open(rt.alloc(), office)? {
        None => Ok(()),
        Some(text) => Err(Fail::new(text)),
    }
}

/// Puts the part to the office.
fn serve<S: Alter>(rt: &HostRuntime, office: &mut Office<S>, part: Part) -> Result<(), Fail> {
    match part {
        Part::Nothing => return Ok(()),
        Part::Requests | Part::Records | Part::Peers | Part::Holds | Part::Rules => {
            furnish(rt, office)?
        }
    }
    match part {
        Part::Nothing => Ok(()),
        Part::Requests => take_day(rt.alloc(), office),
        Part::Records => take_records(rt.alloc(), office),
        Part::Peers => {
            take_peers(rt, office)?;
            take_accepts(rt.alloc(), office)
        }
        Part::Holds => take_holds(rt.alloc(), office),
        Part::Rules => take_rules(rt.alloc(), office),
    }
}

/// Makes an office, and puts the part to it. Fails where its tables then keep something otherwise than their
/// rows give.
fn make_over<S: Alter + Drop>(
    rt: &HostRuntime,
    conn: Connection<S>,
    part: Part,
) -> Result<Connection<S>, Fail> {
    let limits = Limits::new(1_000_000, 1_000_000).ok_or("limits")?;
    if !conn.is_autocommit() {
        return Err("a transaction is open".into());
    }
    let Ok(mut office) = Office::create(conn, limits) else {
        return Err("no office was made".into());
    };
    serve(rt, &mut office, part)?;
    let office = match part {
        Part::Peers => take_troubles(rt, office)?,
        Part::Holds => take_altered(rt.alloc(), office)?,
        _ => office,
    };
    let (told, conn) = look(rt.alloc(), office);
    match told {
        Some(text) if text.is_empty() => Ok(conn),
        Some(text) => Err(Fail::new(text)),
        None => Err("the tables can't be read".into()),
    }
}

/// Performs the task over the connection, and hands it back. The visit is `None` where the store fails
/// before a step.
fn perform_with<S: Alter + Drop>(
    rt: &HostRuntime,
    conn: Connection<S>,
    task: Task,
) -> Result<(Option<Visit>, Connection<S>), Fail> {
    match task {
        Task::Make(part) => Ok((Some(START), make_over(rt, conn, part)?)),
        Task::Visit(way) => visit_over(rt.alloc(), conn, way),
    }
}

/// Whether the files are to be closed: not where their rows can't be read any more.
fn closes(visit: &Option<Visit>) -> bool {
    match visit {
        Some(visit) => visit.shown.is_some(),
        None => false,
    }
}

/// Performs the task over the files, and hands them back: closed, but as they are left where their
/// rows can't be read any more.
fn perform_over<D: Disk + Drop>(
    rt: &HostRuntime,
    files: Files<D>,
    options: Options,
    task: Task,
) -> Result<(Option<Visit>, Files<D>), Fail> {
    let conn = match open(rt.alloc(), files, options) {
        Ok(conn) => conn,
        Err(left) => return Ok((None, left)),
    };
    let (visit, conn) = perform_with(rt, conn, task)?;
    let closes = closes(&visit);
    Ok((visit, leave(conn, closes)))
}

/// Performs the task over files in memory. It alone names a store.
pub(crate) fn perform(
    rt: &HostRuntime,
    files: Disks,
    options: Options,
    task: Task,
) -> Result<(Option<Visit>, Disks), Fail> {
    perform_over(rt, files, options, task)
}
