//! What the rules let a caller do on a day with the deposits of a collection and a class, asked once for each
//! kind of pair that comes up.

ghost use Rattle.std.specs.Prelude.{◌≡◌, ℕ, List, Some};
ghost use Rattle.jiff.specs.Types.{Date};
ghost use Rattle.office_core.specs.declared.action.Action.{Action};
ghost use Rattle.office_contents.specs.Calls.{GoesOnInTurn, GoesOnInside, Shows};
ghost use Rattle.office_by_rows.specs.Answers.{is_allowed_for};
ghost use Rattle.office_access.specs.Asking.{role_name};
ghost use Rattle.office_queries.specs.Allowances.{AreFor};
ghost use Rattle.office_queries.specs.Kinds.{kind_by, kind_lent};

use crate::kinds::{Kind, Spelled};
use office_access::Asker;
use office_core::Action;
use office_tables::TableFault;
use sqlite::{Alter, Transaction};
use std::alloc::Global;
use std::collections::HashMap;

/// What a caller may do with deposits on a day, by the kinds of pairs of collection and class of which the rules
/// were asked. The names of a kind are lent by the rows.
#[derive(Drop)]
pub struct Allowances<'a> {
    asker: &'a Asker,
    action: Action,
    spelled: Spelled,
    known: HashMap<Kind<'a>, bool>,
}

/// Whether the rules let the asker do that with the deposits of this collection and this class.
///
/// Fails with `Memory` or `Store`.
#[tactic(auto, using(crate::proofs::ListedByRow::allowed_is))]
fn is_allowed<S: Alter>(
    tx: &mut Transaction<'_, S>,
    asker: &Asker,
    action: Action,
    collection: &str,
    class: &str,
) -> Result<bool, TableFault>
    ensures inside { GoesOnInside S.Store tx.old.conn tx.new.conn result }
    ensures reads { Shows S.Store tx.old.conn.now tx.new.conn.now result (λ tables is.
        is_allowed_for tables (role_name asker.now) asker.now.day action collection.now class.now
        ≡ Some is) }
{
    let denied = asker.denial(tx, action, Some(collection), Some(class))?;
    Ok(denied.is_none())
}

impl<'a> Allowances<'a> {
    /// Those of the asker and an action, of no pair yet.
    ///
    /// Fails with `Memory` or `Store`.
    pub fn read<S: Alter>(
        alloc: Global,
        tx: &mut Transaction<'_, S>,
        asker: &'a Asker,
        action: Action,
    ) -> Result<Allowances<'a>, TableFault>
        ensures inside { GoesOnInside S.Store tx.old.conn tx.new.conn result }
        ensures reads { Shows S.Store tx.old.conn.now tx.new.conn.now result (λ tables allowances.
            AreFor tables (role_name asker.now) asker.now.day action allowances) }
    {
        Ok(Allowances {
            asker,
            action,
            spelled: Spelled::read(alloc, tx)?,
            known: HashMap::new(alloc),
        })
    }

    /// Whether the rules let the caller do that with the deposits of this collection and this class, which are a
    /// pair of that kind: the rules are asked, and what they say is known from then on.
    ///
    /// Fails with `Memory` or `Store`.
    fn learn<S: Alter>(
        &mut self,
        tx: &mut Transaction<'_, S>,
        kind: Kind<'a>,
        collection: &str,
        class: &str,
    ) -> Result<bool, TableFault>
        ensures inside { GoesOnInside S.Store tx.old.conn tx.new.conn result }
        ensures reads { Shows S.Store tx.old.conn.now tx.new.conn.now result (λ tables is.
            (role : List ℕ) (day : Date) (action : Action)
            → kind_by self.old.spelled collection.now class.now ≡ kind_lent kind.entry
            → AreFor tables role day action self.old
            → AreFor tables role day action self.new
            × (is_allowed_for tables role day action collection.now class.now ≡ Some is)) }
    {
        let is = is_allowed(tx, self.asker, self.action, collection, class)?;
        self.known.insert(kind, is)?;
        Ok(is)
    }

    /// Whether the rules let the caller do that with the deposits of this collection and this class.
    ///
    /// Fails with `Memory` or `Store`.
    pub fn allows<S: Alter>(
        &mut self,
        tx: &mut Transaction<'_, S>,
        collection: &'a str,
        class: &'a str,
    ) -> Result<bool, TableFault>
        ensures inside { GoesOnInTurn S.Store tx.old.conn tx.new.conn result }
        ensures reads { Shows S.Store tx.old.conn.now tx.new.conn.now result (λ tables is.
            (role : List ℕ) (day : Date) (action : Action)
            → AreFor tables role day action self.old
            → AreFor tables role day action self.new
            × (is_allowed_for tables role day action collection.now class.now ≡ Some is)) }
    {
        let kind = self.spelled.kind_of(collection, class);
        if let Some(is) = self.known.get(&kind).copied() {
            return Ok(is);
        }
        self.learn(tx, kind, collection, class)
    }
}
