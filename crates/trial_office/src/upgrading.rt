//! Offices whose tables may be of an older version.

use anyhow::{Result, bail};
use office_engine::Office;
use office_tables::{TableFault, version_told};
use sqlite::{Alter, Connection};

/// Why there is no office.
fn why(fault: TableFault) -> &'static str {
    match fault {
        TableFault::NotAnOffice => "the file holds no office",
        TableFault::OtherVersion => "its tables are of another version",
        TableFault::Memory => "memory ran out",
        TableFault::Store => "the store failed",
    }
}

/// The version of the tables, where they tell one.
pub(crate) fn told_version<S: Alter>(conn: &mut Connection<S>) -> Option<i64> {
    if !conn.is_autocommit() {
        return None;
    }
    version_told(&mut conn.transaction()).unwrap_or(None)
}

/// The office, whose tables are of the newest version then.
pub(crate) fn upgraded<S: Alter + Drop>(conn: Connection<S>) -> Result<Office<S>> {
    if !conn.is_autocommit() {
        bail!("a transaction is open");
    }
    match Office::upgrade(conn) {
        Ok(office) => Ok(office),
        Err((_, fault)) => bail!("no office is upgraded: {}", why(fault)),
    }
}
