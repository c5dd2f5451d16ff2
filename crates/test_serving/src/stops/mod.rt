//! An office over two files, one of which stops at each of its calls.

mod steps;
mod visits;

use crate::files::have_stopped;
use crate::offices::{Part, Task, perform};
use std::test::Fail;
use steps::WHOLE;
pub(crate) use steps::Way;
use test_sessions::{Disks, MANY, SMALL_CACHES, copy_files, empty, lose};
pub(crate) use visits::{START, Visit, visit_over};

/// Takes the session over files in which an office was stopped when the session had come so far, or
/// in the next step. Fails where the office is neither as before that step nor as after it, or
/// where the rest of the session is answered otherwise than in an office that wasn't stopped.
fn find(rt: &HostRuntime, files: Disks, way: Way, reached: usize) -> Result<(), Fail> {
    let (visit, _) = perform(rt, files, SMALL_CACHES, Task::Visit(way))?;
    let visit = visit.ok_or("no office is found")?;
    if visit.found != reached && visit.found != reached.saturating_add(1) {
        return Err("the office is found with other steps than those that were accepted".into());
    }
    if visit.reached != WHOLE || visit.shown != Some(WHOLE) {
        return Err("the session did not end".into());
    }
    Ok(())
}

/// Takes the session over files that hold an office and stop after this number of calls: whether one of
/// them has stopped. The office is found again with all that was written, and with what was synced
/// alone.
fn stop(
    rt: &HostRuntime,
    made: &Disks,
    way: Way,
    log_calls: u64,
    db_calls: u64,
) -> Result<bool, Fail> {
    let files = copy_files(rt.alloc(), made, log_calls, db_calls)?;
    let (visit, mut left) = perform(rt, files, SMALL_CACHES, Task::Visit(way))?;
    let visit = visit.unwrap_or(START);
    let reached = visit.reached;
    if visit.found != 0 || visit.shown.unwrap_or(reached) != reached {
        return Err("other rows than after the steps that were accepted".into());
    }
    let is_stopped = have_stopped(&mut left);
    if reached != WHOLE && !is_stopped {
        return Err("the store failed without a stop".into());
    }
    find(rt, copy_files(rt.alloc(), &left, MANY, MANY)?, way, reached)?;
    find(rt, lose(left), way, reached)?;
    Ok(is_stopped)
}

/// How the session comes, which file stops, and at how many calls it is to stop at least.
struct Stopped {
    way: Way,
    /// Whether the log stops, or else the database file.
    of_log: bool,
    least: u64,
}

static STOPS: [Stopped; 4] = [
    Stopped {
        way: Way::Called,
        of_log: true,
        least: 140,
    },
    Stopped {
        way: Way::Sent,
        of_log: true,
        least: 140,
    },
    Stopped {
        way: Way::Called,
        of_log: false,
        least: 50,
    },
    Stopped {
        way: Way::Sent,
        of_log: false,
        least: 50,
    },
];

/// Stops the file at its first call, then at its second, and so on, until it doesn't stop: at how
/// many calls it was stopped.
fn count_stops(rt: &HostRuntime, made: &Disks, stopped: &Stopped) -> Result<u64, Fail> {
    for calls in 0..10_000 {
        let (log_calls, db_calls) = if stopped.of_log {
            (calls, MANY)
        } else {
            (MANY, calls)
        };
        if !stop(rt, made, stopped.way, log_calls, db_calls)? {
            return Ok(calls);
        }
    }
    Err("no run without a stop".into())
}

/// An office is found again wherever one of its files stops.
pub(crate) fn take_stops(rt: &HostRuntime) -> Result<(), Fail> {
    let (_, made) = perform(
        rt,
        empty(rt.alloc(), MANY, MANY),
        SMALL_CACHES,
        Task::Make(Part::Nothing),
    )?;
    for stopped in &STOPS {
        if count_stops(rt, &made, stopped)? < stopped.least {
            return Err("few stops".into());
        }
    }
    Ok(())
}
