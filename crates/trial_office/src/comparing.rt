//! The same requests, put to both offices.

use crate::drawing::{Drawn, Draws};
use crate::tally::{Came, Known, Tally};
use crate::texts::{FIRST_CLASSES, FIRST_COLLECTIONS, POLICIES};
use crate::upgrading::upgraded;
use anyhow::{Context, Result, bail};
use office_core::{Answer, Day, Limits, Name, Request, Years, read_policy};
use office_engine::Office;
use sqlite::{Alter, Connection, MemStore};
use std::alloc::Global;

/// The two offices.
#[derive(Drop)]
struct Offices<S: Alter> {
    plain: test_plain::Office,
    kept: Office<S>,
    known: Known,
}

/// What the two answer to one request.
#[derive(Drop)]
struct Answers {
    wanted: String,
    found: String,
    /// What came of it, by the answer of the plain office.
    came: Came,
}

impl<S: Alter + Drop> Offices<S> {
    /// Two new offices, with room for some deposits and holds, one of them in the empty database.
    fn create(alloc: Global, conn: Connection<S>) -> Result<Offices<S>> {
        let limits = Limits::new(7, 7).context("limits")?;
        if !conn.is_autocommit() {
            bail!("a transaction is open");
        }
        let Ok(kept) = Office::create(conn, limits) else {
            bail!("no office could be made");
        };
        Ok(Offices {
            plain: test_plain::Office::create(alloc, limits),
            kept,
            known: Known::new(alloc),
        })
    }

    fn install(&mut self, alloc: Global, policy: &str) -> Result<()> {
        let policy_read = read_policy(alloc, policy)?;
        self.known.note_policy(alloc, &policy_read)?;
        self.kept.install(alloc, &policy_read)?;
        self.plain.install(read_policy(alloc, policy)?)?;
        Ok(())
    }

    /// What the two answer.
    fn answers(
        &mut self,
        alloc: Global,
        day: Day,
        caller: &str,
        request: &Request<'_>,
    ) -> Result<Answers> {
        let answer = self.plain.step(alloc, day, caller, request);
        let kept = self.kept.step(alloc, day, caller, request);
        let wanted = format!(in alloc; "{answer:?}")?;
        let found = format!(in alloc; "{kept:?}")?;
        let came = self.known.note(request, &answer)?;
        Ok(Answers {
            wanted,
            found,
            came,
        })
    }

    /// What comes of the request. Fails where the answers differ.
    fn step(
        &mut self,
        alloc: Global,
        day: Day,
        caller: &str,
        request: &Request<'_>,
    ) -> Result<Came> {
        let Answers {
            wanted,
            found,
            came,
        } = self.answers(alloc, day, caller, request)?;
        if wanted != found {
            bail!(
                "{request:?} on {day} by {caller:?} is answered {found}, by the plain office {wanted}"
            );
        }
        Ok(came)
    }

    /// Defines what is there from the beginning.
    fn define(&mut self, alloc: Global) -> Result<()> {
        let day = Day::read("2024-02-28").context("the first day")?;
        for name in FIRST_CLASSES {
            let request = Request::DefineClass {
                name: Name::read(name).context("a class")?,
                years: Years::new(1).context("years")?,
            };
            self.step(alloc, day, "anna", &request)?;
        }
        for name in FIRST_COLLECTIONS {
            let request = Request::DefineCollection {
                name: Name::read(name).context("a collection")?,
            };
            self.step(alloc, day, "anna", &request)?;
        }
        Ok(())
    }

    /// Compares what either office lists as due.
    fn compare_due(&mut self, alloc: Global, day: Day, caller: &str) -> Result<()> {
        let found = self.kept.due_list(alloc, day, caller)?;
        if let Answer::DueList { deposits, .. } = self
            .plain
            .step(alloc, day, caller, &Request::DueList)
        {
            if deposits.as_slice() == found.as_slice() {
                return Ok(());
            }
        }
        bail!("the due list on {day} for {caller:?} is another one")
    }

    /// Compares what either office has in stock.
    fn compare_stock(&mut self, alloc: Global) -> Result<()> {
        let found = self.kept.stock(alloc)?;
        let wanted = self.plain.stock(alloc)?;
        if (found.contents, found.bytes) != (wanted.contents, wanted.bytes) {
            bail!("the stock is {found:?}, of the plain office {wanted:?}");
        }
        Ok(())
    }

    /// Puts what is drawn to both offices, and counts what comes of it. Fails where the answers differ, or,
    /// after an accepted request, the due lists or the stocks.
    fn take(&mut self, alloc: Global, drawn: &Drawn, tally: &mut Tally) -> Result<()> {
        if let Some(policy) = drawn.policy {
            self.install(alloc, policy)?;
        }
        let came = self.step(alloc, drawn.day, drawn.caller, &drawn.request)?;
        tally.count(came, self.known.is_under_days());
        if came.is_accepted() {
            self.compare_due(alloc, drawn.day, drawn.caller)?;
            self.compare_stock(alloc)?;
        }
        Ok(())
    }
}

/// Puts this number of requests, which are drawn, to the two offices. What came of them.
fn take_all<S: Alter + Drop>(
    alloc: Global,
    offices: &mut Offices<S>,
    draws: &mut Draws,
    count: u32,
) -> Result<Tally> {
    let mut tally = Tally::new();
    for _ in 0..count {
        let drawn = draws.next().context("a draw")?;
        offices.take(alloc, &drawn, &mut tally)?;
    }
    Ok(tally)
}

/// Puts this number of requests, which are drawn, to two new offices, one of them in the empty database, with
/// installs before some of them. Fails where an answer of the one isn't the answer of the other. The two
/// offices, and what came of the requests.
fn compare_new<S: Alter + Drop>(
    alloc: Global,
    conn: Connection<S>,
    draws: &mut Draws,
    count: u32,
) -> Result<(Offices<S>, Tally)> {
    let mut offices = Offices::create(alloc, conn)?;
    offices.install(alloc, POLICIES[0])?;
    offices.define(alloc)?;
    let tally = take_all(alloc, &mut offices, draws, count)?;
    Ok((offices, tally))
}

/// The same by a seed. The connection again, and what came of the requests.
pub(crate) fn compare<S: Alter + Drop>(
    alloc: Global,
    conn: Connection<S>,
    seed: u64,
    count: u32,
) -> Result<(Connection<S>, Tally)> {
    let (offices, tally) = compare_new(alloc, conn, &mut Draws::new(seed), count)?;
    let Offices { kept, .. } = offices;
    Ok((kept.into_connection(), tally))
}

/// The same with an office in memory. The two offices, and what came of the requests.
fn compare_with_memory(
    alloc: Global,
    draws: &mut Draws,
    count: u32,
) -> Result<(Offices<MemStore>, Tally)> {
    let conn = Connection::open_in_memory(alloc).context("opening memory")?;
    compare_new(alloc, conn, draws, count)
}

/// Puts this number of requests, drawn by the seed, to an office in memory and to the plain office.
pub(crate) fn compare_in_memory(alloc: Global, seed: u64, count: u32) -> Result<Tally> {
    let (_, tally) = compare_with_memory(alloc, &mut Draws::new(seed), count)?;
    Ok(tally)
}

/// Goes on where `compare` left an office after this number of requests, with as many more: its tables may be
/// those of an older version by now, and are upgraded first. Fails where an answer isn't that of the plain
/// office that is brought to the same state. The connection again, and what came of the further requests.
pub(crate) fn compare_on<S: Alter + Drop>(
    alloc: Global,
    conn: Connection<S>,
    seed: u64,
    count: u32,
) -> Result<(Connection<S>, Tally)> {
    let mut draws = Draws::new(seed);
    let (before, _) = compare_with_memory(alloc, &mut draws, count)?;
    let kept = upgraded(conn)?;
    let Offices { plain, known, .. } = before;
    let mut offices = Offices { plain, kept, known };
    offices.compare_stock(alloc)?;
    let tally = take_all(alloc, &mut offices, &mut draws, count)?;
    let Offices { kept, .. } = offices;
    Ok((kept.into_connection(), tally))
}
