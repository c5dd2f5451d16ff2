//! A visit to an office: its rows are found, and a session goes on from there.

use super::steps::{STOCKS, TABLES, Way, go_on};
use office_engine::Office;
use office_tables::TableFault;
use sqlite::{Alter, Connection};
use std::alloc::Global;
use std::test::Fail;
use test_sessions::{derived_otherwise, held_rows};

/// A visit, by numbers of steps that are done.
#[derive(Clone, Copy, Drop)]
pub(crate) struct Visit {
    /// What was found.
    pub(crate) found: usize,
    /// What was reached before the store failed, or the session was at its end.
    pub(crate) reached: usize,
    /// What was found then. `None` where the rows can't be read any more.
    pub(crate) shown: Option<usize>,
}

/// That of an office whose session has not begun.
pub(crate) const START: Visit = Visit {
    found: 0,
    reached: 0,
    shown: Some(0),
};

/// How far the session has come by the rows of the tables, beyond its end where they are of another
/// office, or where contents, due days or counts of holds are not what the rows give. `None` where the
/// store fails.
fn place<S: Alter>(alloc: Global, conn: &mut Connection<S>) -> Option<usize> {
    let found = held_rows(alloc, conn)?;
    if !derived_otherwise(alloc, conn)?.is_empty() {
        return Some(usize::MAX);
    }
    let mut done = 0_usize;
    for wanted in &TABLES {
        if found.as_bytes() == *wanted {
            return Some(done);
        }
        done = done.saturating_add(1);
    }
    Some(usize::MAX)
}

/// Fails where the office tells another stock than it has after this number of steps. A store that fails
/// tells none.
fn tells_stock<S: Alter>(alloc: Global, office: &mut Office<S>, done: usize) -> Result<(), Fail> {
    let (contents, bytes) = *STOCKS.get(done).ok_or("no such step")?;
    match office.stock(alloc) {
        Ok(found) if found.contents == contents && found.bytes == bytes => Ok(()),
        Ok(_) => Err("the office tells another stock".into()),
        Err(TableFault::Store) => Ok(()),
        Err(_) => Err("the office tells no stock".into()),
    }
}

/// Goes on with the session, with a look at the stock before and after it: how far it comes.
fn go_on_and_tell<S: Alter>(
    alloc: Global,
    office: &mut Office<S>,
    way: Way,
    found: usize,
) -> Result<usize, Fail> {
    tells_stock(alloc, office, found)?;
    let reached = go_on(alloc, office, way, found)?;
    tells_stock(alloc, office, reached)?;
    Ok(reached)
}

/// Finds the office and goes on with the session. `None` where the store fails before the next
/// step.
pub(crate) fn visit_over<S: Alter + Drop>(
    alloc: Global,
    mut conn: Connection<S>,
    way: Way,
) -> Result<(Option<Visit>, Connection<S>), Fail> {
    let Some(found) = place(alloc, &mut conn) else {
        return Ok((None, conn));
    };
    if !conn.is_autocommit() {
        return Err("a transaction is open".into());
    }
    match Office::adopt(conn) {
        Ok(mut office) => {
            let reached = go_on_and_tell(alloc, &mut office, way, found)?;
            let mut conn = office.into_connection();
            let shown = place(alloc, &mut conn);
            let visit = Visit {
                found,
                reached,
                shown,
            };
            Ok((Some(visit), conn))
        }
        Err((conn, TableFault::Store)) => Ok((None, conn)),
        Err(_) => Err("the office was not adopted".into()),
    }
}
