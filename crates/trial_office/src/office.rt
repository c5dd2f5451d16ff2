//! The worked office, whose rows are in the file `trials/rows.txt`.

use crate::changes::{Change, commit};
use office_core::{Accession, Day, Description, DescriptionOf, Name};
use office_tables::{HoldTarget, NewDeposit, TableFault, create};
use sqlite::{Alter, Connection};
use std::alloc::{AllocError, Global};

/// A hold, as it is placed.
#[derive(Clone, Copy)]
pub(crate) struct Hold<'a> {
    pub(crate) number: u32,
    pub(crate) target: HoldTarget<'a>,
    pub(crate) matter: &'a str,
    pub(crate) placed: i64,
}

/// A rule of the policy.
#[derive(Clone, Copy)]
pub(crate) struct Rule<'a> {
    pub(crate) place: i64,
    pub(crate) effect: i64,
    pub(crate) role: &'a str,
    pub(crate) action: &'a str,
    pub(crate) collection: &'a str,
    pub(crate) class: &'a str,
    /// The numbers of its first day and its last.
    pub(crate) first: i64,
    pub(crate) last: i64,
}

/// The number of the first day of the office, and of its last.
pub(crate) const FIRST_DAY: i64 = -25_567;

pub(crate) const LAST_DAY: i64 = 2_859_848;

/// A policy that is put in the place of one, a class that is revised, and a collection put twice.
static DEFINITIONS: [Change<'static>; 10] = [
    Change::Policy(&[("anna", "reader"), ("zoe", "keeper")], &[]),
    Change::Policy(
        &[("anna", "keeper"), ("ben", "reader"), ("jörg", "keeper")],
        &[
            Rule {
                place: 1,
                effect: 0,
                role: "reader",
                action: "dispose",
                collection: "*",
                class: "*",
                first: FIRST_DAY,
                last: 20_453,
            },
            Rule {
                place: 2,
                effect: 1,
                role: "keeper",
                action: "*",
                collection: "*",
                class: "*",
                first: FIRST_DAY,
                last: LAST_DAY,
            },
            Rule {
                place: 3,
                effect: 1,
                role: "*",
                action: "list",
                collection: "maps",
                class: "y2",
                first: 20_454,
                last: 20_818,
            },
        ],
    ),
    Change::Class("y2", 7),
    Change::Class("kept", -1),
    Change::Class("y10", 10),
    Change::Class("y2", 2),
    Change::Collection("letters"),
    Change::Collection("maps"),
    Change::Collection("tax"),
    Change::Collection("maps"),
];

/// The first deposit. What another one doesn't say is as here.
pub(crate) const FIRST_DEPOSIT: NewDeposit<'static> = NewDeposit {
    number: 1,
    accession: "2026-0001",
    collection: "maps",
    class: "y2",
    closed: 20_454,
    deposited: 20_500,
    files: 1,
    bytes: 0,
};

/// Deposits, of which the second is destroyed with its files. The third has files with odd paths,
/// and the last has long ones.
static DEPOSITS: [Change<'static>; 8] = [
    Change::Deposit(FIRST_DEPOSIT),
    Change::Deposit(NewDeposit {
        number: 2,
        accession: "2026-0002",
        collection: "tax",
        class: "y10",
        closed: -10,
        deposited: 20_501,
        files: 2,
        bytes: 6,
        ..FIRST_DEPOSIT
    }),
    Change::Deposit(NewDeposit {
        number: 3,
        accession: "A/3 'quoted'",
        class: "kept",
        closed: 0,
        deposited: 20_502,
        files: 7,
        bytes: 94,
        ..FIRST_DEPOSIT
    }),
    Change::Deposit(NewDeposit {
        number: 1_000_000,
        accession: "2026-9999",
        collection: "letters",
        closed: 2_932_896,
        deposited: 20_503,
        files: 2,
        bytes: 100_256,
        ..FIRST_DEPOSIT
    }),
    Change::File(2, "data/one", b"one"),
    Change::File(2, "data/two", b"two"),
    Change::File(1, "data/empty", b""),
    Change::Gone(2, 24_200),
];

/// The paths of the third deposit; the content of each is its path.
static ODD_PATHS: [&str; 7] = [
    "data/\u{feff}",
    "data/a",
    "data/%0A",
    "data/\u{e9}\u{20ac}\u{1f4dc}",
    "data/A",
    "data/\u{10ffff}",
    "data/\u{1}\t\n\r\u{1f} !\"#$%&'()*+,-.:;<=>?@[\\]^_`{|}~\u{7f}",
];

static HOLDS: [Change<'static>; 6] = [
    Change::Hold(Hold {
        number: 1,
        target: HoldTarget::Deposit(1),
        matter: "suit 12",
        placed: 20_600,
    }),
    Change::Hold(Hold {
        number: 2,
        target: HoldTarget::Collection("maps"),
        matter: "audit",
        placed: 20_601,
    }),
    Change::Hold(Hold {
        number: 3,
        target: HoldTarget::Collection("tax"),
        matter: "o'neil",
        placed: 20_601,
    }),
    Change::Hold(Hold {
        number: 4,
        target: HoldTarget::Class("y2"),
        matter: "suit 13",
        placed: 20_602,
    }),
    Change::Hold(Hold {
        number: 500_000,
        target: HoldTarget::Deposit(77),
        matter: "no such deposit",
        placed: -1,
    }),
    Change::Released(2, 20_700),
];

/// What a deposit is about, where each text has the form of its part. Every description here is made by this.
pub(crate) fn described<'a>(
    collection: &'a str,
    class: &'a str,
    accession: &'a str,
    closed: &str,
) -> Option<Description<'a>> {
    Some(DescriptionOf {
        collection: Name::read(collection)?,
        class: Name::read(class)?,
        accession: Accession::read(accession)?,
        closed: Day::read(closed)?,
    })
}

/// Every byte, from 0 to 255.
fn every_byte(alloc: Global) -> Result<Vec<u8>, AllocError> {
    let mut bytes = Vec::new(alloc);
    for byte in 0..=255u8 {
        bytes.push(byte)?;
    }
    Ok(bytes)
}

/// Longer than a page: `abcde`, 20,000 times.
fn long_content(alloc: Global) -> Result<Vec<u8>, AllocError> {
    let mut bytes = Vec::new(alloc);
    for _ in 0..20_000 {
        bytes.extend_from_slice(b"abcde")?;
    }
    Ok(bytes)
}

/// Makes an office in the empty database.
pub(crate) fn make<S: Alter>(conn: &mut Connection<S>) -> Result<(), TableFault> {
    if !conn.is_autocommit() {
        return Err(TableFault::Store);
    }
    create(conn, 1_000_000, 500_000)
}

/// Makes the worked office in the empty database.
pub(crate) fn write<S: Alter>(alloc: Global, conn: &mut Connection<S>) -> Result<(), TableFault> {
    make(conn)?;
    commit(alloc, conn, &DEFINITIONS)?;
    commit(alloc, conn, &DEPOSITS)?;
    for path in &ODD_PATHS {
        commit(alloc, conn, &[Change::File(3, path, path.as_bytes())])?;
    }
    let (long, every) = (long_content(alloc)?, every_byte(alloc)?);
    let files = [
        Change::File(1_000_000, "data/long", &long),
        Change::File(1_000_000, "data/every byte", &every),
    ];
    commit(alloc, conn, &files)?;
    commit(alloc, conn, &HOLDS)
}
