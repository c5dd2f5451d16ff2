//! Kinds of pairs of a collection and a class: those that the rules don't tell apart.

ghost use Rattle.std.specs.Prelude.{◌≡◌, IfErr, IfOk, option_copied};
ghost use Rattle.std.specs.HashSet.{contains_text};
ghost use Rattle.office_contents.specs.Calls.{GoesOnInside, Shows};
ghost use Rattle.office_contents.specs.Faults.{IsFailure};
ghost use Rattle.office_by_rows.specs.Kinds.{if_spelled};
ghost use Rattle.office_queries.specs.Kinds.{AreAmong, kind_by, kind_lent};

use office_tables::{RuleRow, TableFault, rules};
use sqlite::{Alter, Transaction};
use std::alloc::Global;
use std::collections::HashSet;

/// The names of collections and of classes that rules spell.
#[derive(Drop)]
pub struct Spelled {
    collections: HashSet<String>,
    classes: HashSet<String>,
}

/// A collection and a class, each `None` where no rule spells it.
pub type Kind<'a> = (Option<&'a str>, Option<&'a str>);

/// The name where it is spelled.
fn if_spelled<'a>(names: &HashSet<String>, name: &'a str) -> Option<&'a str>
    ensures { option_copied result ≡ if_spelled (contains_text names.now) name.now }
{
    names.contains(name).then_some(name)
}

/// The names that these rules spell.
fn spelled_by(alloc: Global, rules: &[RuleRow]) -> Result<Spelled, TableFault>
    ensures among { IfOk result (λ spelled. AreAmong spelled rules.now) }
    ensures failure { IfErr result IsFailure }
{
    let mut collections = HashSet::new(alloc);
    let mut classes = HashSet::new(alloc);
    for rule in rules {
        collections.insert(rule.collection.clone()?)?;
        classes.insert(rule.class.clone()?)?;
    }
    Ok(Spelled {
        collections,
        classes,
    })
}

impl Spelled {
    /// Reads the names that the rules spell.
    ///
    /// Fails with `Memory` or `Store`.
    pub fn read<S: Alter>(alloc: Global, tx: &mut Transaction<'_, S>) -> Result<Spelled, TableFault>
        ensures inside { GoesOnInside S.Store tx.old.conn tx.new.conn result }
        ensures reads { Shows S.Store tx.old.conn.now tx.new.conn.now result (λ tables spelled.
            AreAmong spelled tables.rules) }
    {
        let rules = rules(alloc, tx)?;
        spelled_by(alloc, &rules)
    }

    /// The kind of a pair: a name that no rule spells is as any other such name.
    pub fn kind_of<'a>(&self, collection: &'a str, class: &'a str) -> Kind<'a>
        ensures { kind_lent result ≡ kind_by self.now collection.now class.now }
    {
        (
            if_spelled(&self.collections, collection),
            if_spelled(&self.classes, class),
        )
    }
}
