//! The plain office: its limits and the changes that it accepted.

ghost use Rattle.std.specs.Prelude.{◌≡◌, ◌≤◌, length, [], ◌∷◌, IfErr, IfOk, OnOk, OnErr};
ghost use Rattle.office_rows.specs.Rows.{max_limit};
ghost use Rattle.office_history.specs.Histories.{with_changes, Installed, deposits, holds};
ghost use Rattle.office_history.specs.Runs.{new_history, IsLegal};
ghost use Rattle.test_plain.specs.Offices.{HasRoom};
ghost use Rattle.test_plain.specs.Changes.{change_seen};

use crate::change::{Change, Kind};
use office_core::{Limits, Policy};
use std::alloc::{AllocError, Global};
use std::marker::Model;

/// An office in memory. Contracts see it as its history.
#[derive(Debug, Drop)]
pub struct Office {
    limits: Limits,
    changes: Vec<Change>,
}

impl Model for Office {
    ghost use Rattle.office_history.specs.Histories.{History};
    ghost use Rattle.office_history.specs.Runs.{IsWithin};
    ghost use Rattle.test_plain.specs.Changes.{change_seen};

    ghost Value = { History };

    ghost view = { λ office. record { max_deposits = office.limits.deposits; max_holds = office.limits.holds; changes = office.changes.items } };

    ghost invariant = { λ office. IsWithin (record { max_deposits = office.limits.deposits; max_holds = office.limits.holds; changes = office.changes.items }) };
}

impl Office {
    /// A new office.
    pub fn create(alloc: Global, limits: Limits) -> Office
        ensures created { result ≡ new_history limits.deposits limits.holds }
        ensures legal { IsLegal result }
    {
        Office {
            limits,
            changes: Vec::new(alloc),
        }
    }

    /// Installs a policy in the place of the one before. An `Err` leaves the office as it was. A
    /// legal history stays legal.
    pub fn install(&mut self, policy: Policy) -> Result<(), AllocError>
        ensures installed { OnOk result (self.new ≡ with_changes self.old (Installed policy ∷ [])) }
        ensures failed { OnErr result (self.new ≡ self.old) }
        ensures legal { IsLegal self.old → IsLegal self.new }
    {
        // Each policy's rules ask for names: what `rules` says of it.
        let _rules = policy.rules();
        accept(self, Kind::Installed(policy))
    }
}

/// The accepted changes, the oldest first.
#[tactic(auto, using(crate::proofs::WalkLemmas::few))]
pub fn changes_of(office: &Office) -> &[Change]
    ensures changes { result.now ≡ office.now.changes }
    ensures few { (length (deposits office.now) ≤ max_limit)
        × (length (holds office.now) ≤ max_limit) }
{
    office.changes.as_slice()
}

/// The most deposits, and the most holds.
pub fn limits_of(office: &Office) -> Limits
    ensures deposits { result.deposits ≡ office.now.max_deposits }
    ensures holds { result.holds ≡ office.now.max_holds }
{
    office.limits
}

/// Accepts a change.
pub fn accept(office: &mut Office, kind: Kind) -> Result<(), AllocError>
    requires { HasRoom office.old (change_seen kind) }
    ensures accepted { OnOk result (office.new ≡ with_changes office.old (change_seen kind ∷ [])) }
    ensures failed { OnErr result (office.new ≡ office.old) }
{
    office.changes.push(Change { kind })?;
    Ok(())
}
