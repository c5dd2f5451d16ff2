//! Who asks, and what the rules say of it.

ghost use Rattle.std.specs.Prelude.{◌≡◌, ◌↔◌, ◌&&◌, IfErr, IfOk, IfSome, IsTrue, None, Some, option_copied, option_map, string_bytes};
ghost use Rattle.std.specs.Option.{ok_or};
ghost use Rattle.office_core.specs.Names.{is_name, IsName};
ghost use Rattle.office_core.specs.Policies.{or_stranger};
ghost use Rattle.office_contents.specs.Calls.{GoesOnInside, Shows};
ghost use Rattle.office_by_rows.specs.Asking.{decision_by, decision_for, denial_for, denial_in, role_by};
ghost use Rattle.office_by_rows.specs.Values.{effect_of, is_action_pattern, is_pattern};
ghost use Rattle.office_access.specs.Asking.{IsAskerBy, are_bounds, asks_as_rules_do, or_empty, role_name, visit_on};

use office_core::{
    Action, Day, Decision, Effect, FIRST_DAY_NUMBER, LAST_DAY_NUMBER, MAX_RULES, Name, Refusal,
    denial_verdict, or_stranger,
};
use office_history::judging::refusal_of;
use office_tables::{RuleRow, TableFault, match_rule, role_of};
use sqlite::{Alter, Transaction};

fn is_name(text: &str) -> bool
    ensures { result ≡ is_name text.now }
{
    Name::read(text).is_some()
}

/// Whether a rule may ask that of a role, a collection or a class: `*` or a name.
fn is_pattern(text: &str) -> bool
    ensures { result ≡ is_pattern text.now }
{
    text == "*" || is_name(text)
}

/// Whether a rule may ask that of an action: `*` or one that the office has.
fn is_action_pattern(text: &str) -> bool
    ensures { result ≡ is_action_pattern text.now }
{
    text == "*" || Action::read(text).is_some()
}

/// Whether a rule may ask what the row asks.
fn asks_as_rules_do(rule: &RuleRow) -> bool
    ensures { result ≡ asks_as_rules_do rule.now }
{
    is_pattern(&rule.role)
        && is_action_pattern(&rule.action)
        && is_pattern(&rule.collection)
        && is_pattern(&rule.class)
}

/// Whether a rule may count from the one day to the other: both are days of the office, and the first is not
/// after the last.
fn are_bounds(first: i64, last: i64) -> bool
    ensures { result ≡ are_bounds first last }
{
    FIRST_DAY_NUMBER as i64 <= first && first <= last && last <= LAST_DAY_NUMBER as i64
}

/// What a rule says of what it matches.
fn effect_of(rule: &RuleRow) -> Result<Effect, TableFault>
    ensures { result ≡ ok_or (effect_of rule.now.effect) TableFault.Store }
{
    match rule.effect {
        1 => Ok(Effect::Allow),
        0 => Ok(Effect::Deny),
        _ => Err(TableFault::Store),
    }
}

/// Whether a rule may ask what the row asks, and count on the days of the row.
fn is_rule(row: &RuleRow) -> bool
    ensures { result ≡ (asks_as_rules_do row.now && are_bounds row.now.first row.now.last) }
{
    asks_as_rules_do(row) && are_bounds(row.first, row.last)
}

/// The decision that a rule's row tells.
fn decision_in(row: &RuleRow) -> Result<Decision, TableFault>
    ensures { result ≡ ok_or (decision_by row.now) TableFault.Store }
{
    match usize::try_from(row.place) {
        Ok(rule) if 1 <= rule && rule <= MAX_RULES && is_rule(row) => Ok(Decision {
            rule,
            effect: effect_of(row)?,
        }),
        _ => Err(TableFault::Store),
    }
}

/// A name as the rules are asked for it.
fn or_empty<'a>(name: Option<&'a str>) -> &'a str
    ensures { result.now ≡ or_empty (option_copied name.entry) }
{
    name.unwrap_or("")
}

/// Whether a caller and its role, where it has one, are names.
fn are_names(caller: &str, role: Option<&str>) -> bool
    ensures { IsTrue result
        ↔ IfSome (option_copied role.entry) (λ role. IsName caller.now × IsName role) }
{
    match role {
        Some(role) => is_name(caller) && is_name(role),
        None => true,
    }
}

/// Who asks: the role that the policy gives a caller, on the day on which it asks.
#[derive(Drop)]
pub struct Asker {
    role: Option<String>,
    day: Day,
}

/// The caller as it asks, by its role where it has one. A text that is no name is a fault of the store.
fn asker_of(caller: &str, role: Option<String>, day: Day) -> Result<Asker, TableFault>
    ensures role { IfOk result (λ asker.
        role_by caller.now (option_map string_bytes role) ≡ Some (role_name asker)) }
    ensures day { IfOk result (λ asker. asker.day ≡ day) }
    ensures store { IfErr result (λ fault.
        (role_by caller.now (option_map string_bytes role) ≡ None) × (fault ≡ TableFault.Store)) }
{
    if are_names(caller, role.as_ref().map(|role| role.as_str())) {
        Ok(Asker { role, day })
    } else {
        Err(TableFault::Store)
    }
}

impl Asker {
    /// Reads the caller's role. The rules are asked by that day.
    ///
    /// Fails with `Memory` or `Store`.
    pub fn read<S: Alter>(
        tx: &mut Transaction<'_, S>,
        day: Day,
        caller: &str,
    ) -> Result<Asker, TableFault>
        ensures inside { GoesOnInside S.Store tx.old.conn tx.new.conn result }
        ensures reads { Shows S.Store tx.old.conn.now tx.new.conn.now result (λ tables asker.
            IsAskerBy tables (visit_on day caller.now) asker) }
    {
        let role = role_of(tx, caller)?;
        asker_of(caller, role, day)
    }

    /// The caller's role, which is `stranger` where the policy gives none.
    fn role(&self) -> &str
        ensures { result.now ≡ or_stranger (option_map string_bytes self.now.role) }
    {
        or_stranger(self.role.as_ref().map(|role| role.as_str()))
    }

    /// The rule that decides what is asked, if one matches on the day.
    ///
    /// Fails with `Memory` or `Store`.
    pub fn decision<S: Alter>(
        &self,
        tx: &mut Transaction<'_, S>,
        action: Action,
        collection: Option<&str>,
        class: Option<&str>,
    ) -> Result<Option<Decision>, TableFault>
        ensures inside { GoesOnInside S.Store tx.old.conn tx.new.conn result }
        ensures reads { Shows S.Store tx.old.conn.now tx.new.conn.now result (λ tables decision.
            decision_for tables (role_name self.now) self.now.day action
            (option_copied collection.entry) (option_copied class.entry)
            ≡ Some decision) }
    {
        let found = match_rule(
            tx,
            self.role(),
            action.as_str(),
            or_empty(collection),
            or_empty(class),
            self.day.number() as i64,
        )?;
        match found {
            Some(row) => Ok(Some(decision_in(&row)?)),
            None => Ok(None),
        }
    }

    /// The refusal where the first rule that matches on the day denies, or none matches.
    ///
    /// Fails with `Memory` or `Store`.
    pub fn denial<S: Alter>(
        &self,
        tx: &mut Transaction<'_, S>,
        action: Action,
        collection: Option<&str>,
        class: Option<&str>,
    ) -> Result<Option<Refusal>, TableFault>
        ensures inside { GoesOnInside S.Store tx.old.conn tx.new.conn result }
        ensures reads { Shows S.Store tx.old.conn.now tx.new.conn.now result (λ tables why.
            denial_for tables (role_name self.now) self.now.day action
            (option_copied collection.entry) (option_copied class.entry)
            ≡ Some why) }
    {
        match denial_verdict(self.decision(tx, action, collection, class)?) {
            Some(verdict) => Ok(refusal_of(verdict)),
            None => Ok(None),
        }
    }
}

/// The refusal where the first rule that matches on that day denies, or none matches, of a request that
/// asks once.
///
/// Fails with `Memory` or `Store`.
#[tactic(auto, using(office_contents::proofs::InTurn::inside_then))]
pub fn denial<S: Alter>(
    tx: &mut Transaction<'_, S>,
    day: Day,
    caller: &str,
    action: Action,
    collection: Option<&str>,
    class: Option<&str>,
) -> Result<Option<Refusal>, TableFault>
    ensures inside { GoesOnInside S.Store tx.old.conn tx.new.conn result }
    ensures reads { Shows S.Store tx.old.conn.now tx.new.conn.now result (λ tables why.
        denial_in tables (visit_on day caller.now) action (option_copied collection.entry)
        (option_copied class.entry)
        ≡ Some why) }
{
    let asker = Asker::read(tx, day, caller)?;
    asker.denial(tx, action, collection, class)
}
