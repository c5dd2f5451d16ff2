//! What is counted of the requests that are drawn.

use office_core::{Answer, Day, LiveHold, Policy, Refusal, Request, Rule, Scope};
use std::alloc::{AllocError, Global};

/// What came of a request, as far as it is counted.
#[derive(Clone, Copy, PartialEq, Eq)]
pub(crate) enum Came {
    Refused,
    /// A rule that has days denied it.
    DeniedOnDay,
    Accepted,
    /// A hold on a class was placed.
    HeldClass,
    /// One was released.
    ReleasedClass,
    /// Holds were listed, one of them on a class.
    ListedClass,
}

/// How many requests came to what.
#[derive(Clone, Copy)]
pub(crate) struct Tally {
    pub(crate) accepted: u64,
    pub(crate) refused: u64,
    /// Of those that were accepted, the holds on a class, their releases, and the lists that have one.
    pub(crate) class_holds: u64,
    pub(crate) class_releases: u64,
    pub(crate) class_lists: u64,
    /// Those that came while a rule had days, and of them those that such a rule denied.
    pub(crate) under_days: u64,
    pub(crate) denied_on_day: u64,
}

/// What is known of an office beside its answers.
#[derive(Drop)]
pub(crate) struct Known {
    /// The holds that were placed on a class.
    class_holds: Vec<u32>,
    /// The numbers, from 1, of the rules that have days.
    dated_rules: Vec<usize>,
}

/// One more.
fn increase(count: &mut u64) {
    *count = count.saturating_add(1);
}

impl Came {
    pub(crate) fn is_accepted(self) -> bool {
        !matches!(self, Came::Refused | Came::DeniedOnDay)
    }
}

impl Tally {
    pub(crate) fn new() -> Tally {
        Tally {
            accepted: 0,
            refused: 0,
            class_holds: 0,
            class_releases: 0,
            class_lists: 0,
            under_days: 0,
            denied_on_day: 0,
        }
    }

    /// Counts what came of a request, and whether a rule had days.
    pub(crate) fn count(&mut self, came: Came, is_under_days: bool) {
        if came.is_accepted() {
            increase(&mut self.accepted);
        } else {
            increase(&mut self.refused);
        }
        if is_under_days {
            increase(&mut self.under_days);
        }
        match came {
            Came::HeldClass => increase(&mut self.class_holds),
            Came::ReleasedClass => increase(&mut self.class_releases),
            Came::ListedClass => increase(&mut self.class_lists),
            Came::DeniedOnDay => increase(&mut self.denied_on_day),
            Came::Accepted | Came::Refused => {}
        }
    }
}

/// Whether the rule counts on some days alone.
fn has_days(rule: &Rule) -> bool {
    rule.first != Day::first() || rule.last != Day::last()
}

fn has_class(holds: &[LiveHold]) -> bool {
    holds.iter().any(|hold| hold.on == Scope::Class)
}

impl Known {
    pub(crate) fn new(alloc: Global) -> Known {
        Known {
            class_holds: Vec::new(alloc),
            dated_rules: Vec::new(alloc),
        }
    }

    /// Whether a rule has days.
    pub(crate) fn is_under_days(&self) -> bool {
        !self.dated_rules.is_empty()
    }

    /// Notes which rules of the policy have days.
    pub(crate) fn note_policy(&mut self, alloc: Global, policy: &Policy) -> Result<(), AllocError> {
        let mut dated = Vec::new(alloc);
        let mut number = 0_usize;
        for rule in policy.rules() {
            number = number.saturating_add(1);
            if has_days(rule) {
                dated.push(number)?;
            }
        }
        self.dated_rules = dated;
        Ok(())
    }

    fn is_dated(&self, rule: usize) -> bool {
        self.dated_rules.iter().any(|dated| *dated == rule)
    }

    fn is_on_class(&self, hold: u32) -> bool {
        self.class_holds.iter().any(|on_class| *on_class == hold)
    }

    /// What comes of a request by this answer.
    pub(crate) fn note(
        &mut self,
        request: &Request<'_>,
        answer: &Answer,
    ) -> Result<Came, AllocError> {
        match (request, answer) {
            (_, Answer::Refused(Refusal::DeniedByRule(rule))) if self.is_dated(*rule) => {
                Ok(Came::DeniedOnDay)
            }
            (_, Answer::Refused(_)) => Ok(Came::Refused),
            (Request::HoldClass { .. }, Answer::HoldPlaced { hold }) => {
                self.class_holds.push(*hold)?;
                Ok(Came::HeldClass)
            }
            (_, Answer::HoldReleased { hold, .. }) if self.is_on_class(*hold) => {
                Ok(Came::ReleasedClass)
            }
            (_, Answer::Holds { holds }) if has_class(holds.as_slice()) => Ok(Came::ListedClass),
            _ => Ok(Came::Accepted),
        }
    }
}
