//! Why the office refuses a request.

use crate::day::Day;
use crate::retention::Due;
use crate::text::FaultText;

/// What a request speaks of.
#[derive(Clone, Copy, Debug, PartialEq, Eq)]
pub enum Subject {
    Class,
    Collection,
    Deposit,
    Hold,
}

/// Why the office refuses a request. A refused request has changed nothing.
#[derive(Debug, Drop)]
pub enum Refusal {
    /// E1: there is no such class, collection, deposit or hold.
    NoSuch(Subject),
    /// E2: that rule denies it. Rules are numbered from 1.
    DeniedByRule(usize),
    /// E2: no rule matches.
    DeniedByDefault,
    /// E3: the deposit was destroyed on that day.
    Gone(Day),
    /// E4: that deposit has the accession.
    Taken(u32),
    /// E5: the closing day comes after the day of the request.
    ClosedAhead,
    /// E6: the bytes are no transfer form, or that of a bag that isn't valid. The text names the first
    /// fault.
    BadBag(FaultText),
    /// E7: that hold covers the deposit, the first of those that are live.
    Held(u32),
    /// E8: the deposit may not be destroyed before that day, and never where it is kept permanently.
    NotDue(Due),
    /// E9: the hold was released on that day.
    Released(Day),
    /// E10: as many deposits, or holds, were accepted as the office takes.
    Full,
    /// E11: a growth was refused.
    Memory,
    /// E12: the store refused a statement, or gave what no accepted change writes.
    Store,
    /// E13: the bag has no file at the path.
    NoFile,
}
