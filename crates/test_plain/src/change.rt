//! The changes that the plain office keeps.

ghost use Rattle.std.specs.Prelude.{◌≡◌, option_copied};
ghost use Rattle.office_history.specs.Histories.{installed_in, years_in, collection_in, deposit_in, hold_in, released_in, destroyed_in};
ghost use Rattle.test_plain.specs.Changes.{borrowed};

use crate::stored::StoredBag;
use office_core::{Day, OwnedDescription, OwnedMatter, OwnedName, Policy, Years};
use std::marker::Model;

/// What a hold names.
#[derive(Debug, Drop)]
pub enum Target {
    Deposit(u32),
    Collection(OwnedName),
    Class(OwnedName),
}

/// A deposit, with its bag.
#[derive(Debug, Drop)]
pub struct Deposit {
    pub description: OwnedDescription,
    pub bag: StoredBag,
}

impl Model for Deposit {
    ghost use Rattle.office_history.specs.Histories as histories;

    ghost Value = { histories.Deposit };

    ghost view = { λ deposit. record { description = deposit.description; bag = deposit.bag } };
}

/// A hold.
#[derive(Debug, Drop)]
pub struct Hold {
    pub target: Target,
    pub matter: OwnedMatter,
}

impl Model for Hold {
    ghost use Rattle.office_history.specs.Histories as histories;

    ghost Value = { histories.Hold };

    ghost use Rattle.test_plain.specs.Targets.{target_seen};

    ghost view = { λ hold. record { target = target_seen hold.target; matter = hold.matter } };
}

/// What was accepted.
#[derive(Debug, Drop)]
pub enum Kind {
    Installed(Policy),
    DefinedClass(Day, OwnedName, Years),
    DefinedCollection(Day, OwnedName),
    Deposited(Day, Deposit),
    PlacedHold(Day, Hold),
    ReleasedHold(Day, u32),
    Destroyed(Day, u32),
}

/// An accepted change, with its day, which an install of a policy has none of.
#[derive(Debug, Drop)]
pub struct Change {
    pub kind: Kind,
}

impl Model for Change {
    ghost use Rattle.office_history.specs.Histories as histories;

    ghost Value = { histories.Change };

    ghost use Rattle.test_plain.specs.Changes.{change_seen};

    ghost view = { λ change. change_seen change.kind };
}

impl Change {
    /// The policy that was installed.
    pub fn installed_policy(&self) -> Option<&Policy>
        ensures { option_copied result ≡ installed_in self.now }
    {
        match &self.kind {
            Kind::Installed(policy) => Some(policy),
            _ => None,
        }
    }

    /// The years that it gives the class of that name.
    pub fn years(&self, class: &str) -> Option<Years>
        ensures { result ≡ years_in class.now self.now }
    {
        match &self.kind {
            Kind::DefinedClass(_, name, years) if name.as_str() == class => Some(*years),
            _ => None,
        }
    }

    /// The collection that was defined.
    pub fn collection(&self) -> Option<&str>
        ensures { option_copied result ≡ collection_in self.now }
    {
        match &self.kind {
            Kind::DefinedCollection(_, name) => Some(name.as_str()),
            _ => None,
        }
    }

    /// The deposit, with its day.
    pub fn deposit(&self) -> Option<(Day, &Deposit)>
        ensures { borrowed result ≡ deposit_in self.now }
    {
        match &self.kind {
            Kind::Deposited(day, deposit) => Some((*day, deposit)),
            _ => None,
        }
    }

    /// The hold that was placed, with its day.
    pub fn hold(&self) -> Option<(Day, &Hold)>
        ensures { borrowed result ≡ hold_in self.now }
    {
        match &self.kind {
            Kind::PlacedHold(day, hold) => Some((*day, hold)),
            _ => None,
        }
    }

    /// The day, where the hold of that number was released.
    pub fn release_day(&self, hold: u32) -> Option<Day>
        ensures { result ≡ released_in hold self.now }
    {
        match &self.kind {
            Kind::ReleasedHold(day, number) if *number == hold => Some(*day),
            _ => None,
        }
    }

    /// The day, where the deposit of that number was destroyed.
    pub fn destruction_day(&self, deposit: u32) -> Option<Day>
        ensures { result ≡ destroyed_in deposit self.now }
    {
        match &self.kind {
            Kind::Destroyed(day, number) if *number == deposit => Some(*day),
            _ => None,
        }
    }
}
