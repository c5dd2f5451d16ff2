//! What the office answers.

use crate::day::Day;
use crate::description::OwnedDescription;
use crate::names::{OwnedMatter, OwnedName};
use crate::refusal::Refusal;
use crate::retention::{Due, Years};
use crate::sequence::Sequence;
use crate::text::FaultText;
use bag_text::BagReport;

/// What is recorded of a deposit.
#[derive(Debug, Drop)]
pub struct DepositRecord {
    pub number: u32,
    pub description: OwnedDescription,
    /// The day of the deposit.
    pub deposited: Day,
    /// How many files the payload has.
    pub files: usize,
    /// How many bytes the payload has.
    pub bytes: usize,
    /// The day from which the deposit may be destroyed.
    pub due: Due,
}

/// What a hold names.
#[derive(Clone, Copy, Debug, PartialEq, Eq)]
pub enum Scope {
    Deposit,
    Collection,
    Class,
}

/// A live hold that covers a deposit.
#[derive(Debug, Drop)]
pub struct LiveHold {
    pub number: u32,
    pub matter: OwnedMatter,
    /// Whether the hold names the deposit, its collection or its class.
    pub on: Scope,
    /// The day on which the hold was placed.
    pub placed: Day,
}

/// What an audit says of a deposit's bag.
#[derive(Debug, Drop)]
pub enum AuditReport {
    Valid(BagReport),
    /// The text names the first fault.
    Invalid(FaultText),
}

/// What the office answers.
#[derive(Debug, Drop)]
pub enum Answer {
    /// The class has those years now.
    Class { name: OwnedName, years: Years },
    /// The collection is there.
    Collection { name: OwnedName },
    /// The bag was accepted as the deposit of that number.
    Deposited { deposit: u32 },
    List { deposits: Sequence<DepositRecord> },
    Record(DepositRecord),
    Holds { holds: Sequence<LiveHold> },
    /// The transfer form that was deposited.
    Bag { bytes: Sequence<u8> },
    /// The content of a file.
    File { bytes: Sequence<u8> },
    Audit { deposit: u32, report: AuditReport },
    /// The hold of that number was placed.
    HoldPlaced { hold: u32 },
    /// The hold was released on that day.
    HoldReleased { hold: u32, day: Day },
    /// The deposit was destroyed on that day.
    Destroyed { deposit: u32, day: Day },
    /// The numbers of the deposits that the caller may destroy on that day, ascending.
    DueList { day: Day, deposits: Sequence<u32> },
    Refused(Refusal),
}
