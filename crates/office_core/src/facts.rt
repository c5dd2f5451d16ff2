//! What is known of a request, and what is decided of it.

use crate::action::Action;
use crate::date::Date;
use crate::day::Day;
use crate::retention::Due;
use crate::rule::Decision;

/// What is known of a request where it is decided.
#[derive(Clone, Copy, Debug)]
pub struct Facts {
    pub action: Action,
    /// The rule that decides, if one matches.
    pub decision: Option<Decision>,
    /// The day on which the deposit was destroyed, if it was.
    pub gone: Option<Day>,
    /// The least number of a live hold that covers the deposit, if one does.
    pub hold: Option<u32>,
    /// The day from which the deposit may be destroyed.
    pub due: Due,
}

/// What the office decides.
#[derive(Clone, Copy, Debug, PartialEq, Eq)]
pub enum Verdict {
    /// That rule denies it. Rules are numbered from 1.
    DeniedByRule(usize),
    /// No rule matches.
    DeniedByDefault,
    /// The deposit was destroyed on that day.
    Gone(Day),
    /// That hold covers the deposit.
    Held(u32),
    /// The deposit isn't due before that day.
    NotDue(Date),
    /// The deposit is kept permanently.
    Permanent,
    Allow,
}
