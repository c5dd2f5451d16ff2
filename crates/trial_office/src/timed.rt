//! Calls that are timed, over bags of 10 KiB with three files.

use crate::changes::{Change, commit};
use crate::office::{self, FIRST_DAY, FIRST_DEPOSIT, LAST_DAY, Rule};
use anyhow::{Result, bail};
use office_tables::{NewDeposit, TableFault, file_of, last_deposit, live_holds};
use sqlite::{Alter, Connection};
use std::alloc::Global;

pub(crate) const DECLARATION: &[u8] = b"BagIt-Version: 1.0\nTag-File-Character-Encoding: UTF-8\n";

/// The payload file of a bag.
pub(crate) const RECORD: &str = "data/record";

/// Its length: with the other two files the bag has 10,240 bytes.
pub(crate) const RECORD_LENGTH: usize = 10_108;

/// The line that lists it.
pub(crate) const MANIFEST: &[u8] =
    b"c18da936f4a0e2d069d24a948518a527894ef8b727b5f6d020d11e9bbf5448d4  data/record\n";

/// A call that is made many times.
#[derive(Clone, Copy)]
pub(crate) enum Call {
    /// A bag is deposited.
    Deposit,
    /// The payload file of one of the deposits, here and there.
    Read,
    /// The live holds over deposit 1, of the collection `tax`, which are to be three.
    LiveHolds,
    /// The last number of a deposit.
    LastDeposit,
}

/// A policy that allows its one caller everything, and the class and the collection of the bags.
static DEFINITIONS: [Change<'static>; 3] = [
    Change::Policy(
        &[("anna", "archivist")],
        &[Rule {
            place: 1,
            effect: 1,
            role: "archivist",
            action: "*",
            collection: "*",
            class: "*",
            first: FIRST_DAY,
            last: LAST_DAY,
        }],
    ),
    Change::Class("y10", 10),
    Change::Collection("tax"),
];

/// Makes an office in which bags can be deposited.
pub(crate) fn make<S: Alter>(alloc: Global, conn: &mut Connection<S>) -> Result<(), TableFault> {
    office::make(conn)?;
    commit(alloc, conn, &DEFINITIONS)
}

/// The last number of a deposit, or 0.
pub(crate) fn last<S: Alter>(conn: &mut Connection<S>) -> Result<u32, TableFault> {
    if !conn.is_autocommit() {
        return Err(TableFault::Store);
    }
    Ok(last_deposit(&mut conn.transaction())?.unwrap_or(0))
}

/// A number from 1 to `last`, here and there.
pub(crate) fn scattered_number(turn: u32, last: u32) -> u32 {
    let before = turn.wrapping_mul(7919).checked_rem(last).unwrap_or(0);
    before.wrapping_add(1)
}

/// Makes the call this many times, over deposits 1 to `last`.
pub(crate) fn repeat<S: Alter>(
    alloc: Global,
    conn: &mut Connection<S>,
    call: Call,
    last: u32,
    count: u32,
) -> Result<()> {
    let record = vec![in alloc; b'r'; RECORD_LENGTH]?;
    for turn in 1..=count {
        match call {
            Call::Deposit => deposit(alloc, conn, last.wrapping_add(turn), &record)?,
            _ if reads(alloc, conn, call, scattered_number(turn, last))? => {}
            _ => bail!("a row is not as it was put in"),
        }
    }
    Ok(())
}

/// A bag, with the content of its payload file.
fn bag<'a>(number: u32, accession: &'a str, record: &'a [u8]) -> [Change<'a>; 4] {
    [
        Change::Deposit(NewDeposit {
            number,
            accession,
            collection: "tax",
            class: "y10",
            bytes: 10_108,
            ..FIRST_DEPOSIT
        }),
        Change::File(number, "bagit.txt", DECLARATION),
        Change::File(number, RECORD, record),
        Change::File(number, "manifest-sha256.txt", MANIFEST),
    ]
}

/// Deposits a bag, in one transaction.
fn deposit<S: Alter>(
    alloc: Global,
    conn: &mut Connection<S>,
    number: u32,
    record: &[u8],
) -> Result<()> {
    let accession = format!(in alloc; "2026-{number:07}")?;
    Ok(commit(alloc, conn, &bag(number, &accession, record))?)
}

/// Whether what is read, in a transaction of its own, is what was put in.
fn reads<S: Alter>(
    alloc: Global,
    conn: &mut Connection<S>,
    call: Call,
    number: u32,
) -> Result<bool, TableFault> {
    if !conn.is_autocommit() {
        return Err(TableFault::Store);
    }
    let mut tx = conn.transaction();
    match call {
        Call::Read => {
            let content = file_of(&mut tx, number, RECORD)?;
            Ok(content.is_some_and(|bytes| bytes.len() == RECORD_LENGTH))
        }
        Call::LiveHolds => Ok(live_holds(alloc, &mut tx, 1, "tax", "y10")?.len() == 3),
        _ => Ok(last_deposit(&mut tx)?.is_some()),
    }
}
