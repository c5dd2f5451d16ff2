//! What is done with an office in a file.

use crate::comparing::{compare, compare_on};
use crate::office;
use crate::requests::{self, TrialRequest};
use crate::tally::Tally;
use crate::timed::{self, Call};
use crate::upgrading::{told_version, upgraded};
use anyhow::{Context, Result, bail};
use office_engine::Office;
use sqlite::{Alter, Connection, Error, File, FileStore, Unknown};
use std::time::{Duration, Instant};
use store_file::open_file;

/// What is done with the file.
#[derive(Clone, Copy)]
pub(crate) enum Task {
    /// The worked office is made in it.
    Write,
    /// An office in which bags can be deposited.
    Make,
    /// A call of the tables, this number of times.
    Time(Call, u32),
    /// A request to the office, this number of times.
    Ask(TrialRequest, u32),
    /// So many requests, drawn by the seed, which are put to an office in it and to the plain office.
    Draw(u32, u64),
    /// As many more, of an office that `Draw` left, with an upgrade first.
    DrawOn(u32, u64),
    /// An upgrade.
    Upgrade,
}

/// What a task comes to.
#[derive(Clone, Copy)]
pub(crate) enum Report {
    Done,
    /// The time of the calls or requests: the opening of the file doesn't count.
    Took(Duration),
    /// The version of the tables before an upgrade, where they told one, and its time.
    Upgraded(Option<i64>, Duration),
    /// What came of requests.
    Drew(Tally),
}

/// Makes the call this number of times. The time of all calls.
fn time<S: Alter>(
    rt: &HostRuntime,
    conn: &mut Connection<S>,
    call: Call,
    count: u32,
) -> Result<Duration> {
    let last = timed::last(conn)?;
    let start = Instant::now(rt)?;
    timed::repeat(rt.alloc(), conn, call, last, count)?;
    Ok(start.elapsed(rt)?)
}

/// Makes the request this number of times. The connection again, and the time of all requests.
fn ask<S: Alter + Drop>(
    rt: &HostRuntime,
    mut conn: Connection<S>,
    asked: TrialRequest,
    count: u32,
) -> Result<(Connection<S>, Duration)> {
    let last = timed::last(&mut conn)?;
    if !conn.is_autocommit() {
        bail!("a transaction is open");
    }
    let Ok(mut office) = Office::adopt(conn) else {
        bail!("the file holds no office");
    };
    let forms = requests::forms(rt.alloc(), asked, count)?;
    let start = Instant::now(rt)?;
    requests::repeat(rt.alloc(), &mut office, asked, last, count, &forms)?;
    let took = start.elapsed(rt)?;
    Ok((office.into_connection(), took))
}

/// Upgrades the office. The connection again, the version that its tables told, and the time.
fn upgrade<S: Alter + Drop>(
    rt: &HostRuntime,
    mut conn: Connection<S>,
) -> Result<(Connection<S>, Option<i64>, Duration)> {
    let version = told_version(&mut conn);
    let start = Instant::now(rt)?;
    let office = upgraded(conn)?;
    let took = start.elapsed(rt)?;
    Ok((office.into_connection(), version, took))
}

/// Does the task over the open file. The connection again, and what the task comes to.
fn perform<S: Alter + Drop>(
    rt: &HostRuntime,
    mut conn: Connection<S>,
    task: Task,
) -> Result<(Connection<S>, Report)> {
    match task {
        Task::Write => office::write(rt.alloc(), &mut conn)?,
        Task::Make => timed::make(rt.alloc(), &mut conn)?,
        Task::Time(call, count) => {
            let took = time(rt, &mut conn, call, count)?;
            return Ok((conn, Report::Took(took)));
        }
        Task::Ask(asked, count) => {
            let (conn, took) = ask(rt, conn, asked, count)?;
            return Ok((conn, Report::Took(took)));
        }
        Task::Draw(count, seed) => {
            let (conn, tally) = compare(rt.alloc(), conn, seed, count)?;
            return Ok((conn, Report::Drew(tally)));
        }
        Task::DrawOn(count, seed) => {
            let (conn, tally) = compare_on(rt.alloc(), conn, seed, count)?;
            return Ok((conn, Report::Drew(tally)));
        }
        Task::Upgrade => {
            let (conn, version, took) = upgrade(rt, conn)?;
            return Ok((conn, Report::Upgraded(version, took)));
        }
    }
    Ok((conn, Report::Done))
}

/// Opens the file as the program does.
fn open(rt: &HostRuntime, file: &str) -> Result<Connection<FileStore<File>>, Error> {
    match open_file(rt, file, Unknown) {
        Ok(conn) => Ok(conn),
        Err((error, _)) => Err(error),
    }
}

impl Task {
    /// The task that a word asks for.
    pub(crate) fn read(word: &str) -> Option<Task> {
        match word {
            "write" => Some(Task::Write),
            "make" => Some(Task::Make),
            "upgrade" => Some(Task::Upgrade),
            _ => None,
        }
    }

    /// The calls or requests that a word asks for, this number of them.
    pub(crate) fn read_timed(word: &str, count: u32) -> Option<Task> {
        match word {
            "deposits" => Some(Task::Time(Call::Deposit, count)),
            "read" => Some(Task::Time(Call::Read, count)),
            "live" => Some(Task::Time(Call::LiveHolds, count)),
            "last" => Some(Task::Time(Call::LastDeposit, count)),
            "ask-deposits" => Some(Task::Ask(TrialRequest::Deposit, count)),
            "ask-own-deposits" => Some(Task::Ask(TrialRequest::OwnDeposit, count)),
            "ask-records" => Some(Task::Ask(TrialRequest::Record, count)),
            "ask-disposals" => Some(Task::Ask(TrialRequest::Disposal, count)),
            "ask-bags" => Some(Task::Ask(TrialRequest::Bag, count)),
            "ask-lists" => Some(Task::Ask(TrialRequest::List, count)),
            "ask-due" => Some(Task::Ask(TrialRequest::DueList, count)),
            "ask-holds" => Some(Task::Ask(TrialRequest::Hold, count)),
            "ask-classes" => Some(Task::Ask(TrialRequest::Class, count)),
            _ => None,
        }
    }

    /// Does the task over the file.
    pub(crate) fn take(self, rt: &HostRuntime, file: &str) -> Result<Report> {
        let conn = open(rt, file).context("opening the file")?;
        let (conn, report) = perform(rt, conn, self)?;
        conn.close().context("closing the file")?;
        Ok(report)
    }
}
