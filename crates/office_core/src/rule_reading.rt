//! Reading one rule of a policy file.

ghost use Rattle.std.specs.Prelude.{◌≡◌};
ghost use Rattle.std.specs.List.{list_all};
ghost use Rattle.toml.specs.View.{view, table_view};
ghost use Rattle.office_core.specs.Policies.{effect_at, action_at, pattern_at, days_at, effect_in, pattern_in, action_pattern_in, keys_of_rule, is_one_of, entries, rule_of, rule_of_value};
ghost use Rattle.office_core.specs.PolicyReading.{Reads};

use crate::action::Action;
use crate::day::Day;
use crate::names::Name;
use crate::rule::{ActionPattern, Effect, Pattern, Rule};
use crate::rule_flaw::RuleFlaw;
use crate::tree::{day_at, may_have_key, text_at};
use std::alloc::Global;
use toml::{Table, Value};

fn read_effect(text: &str) -> Option<Effect>
    ensures { result ≡ effect_in text.now }
{
    if text == "allow" {
        Some(Effect::Allow)
    } else if text == "deny" {
        Some(Effect::Deny)
    } else {
        None
    }
}

fn read_action(text: &str) -> Option<ActionPattern>
    ensures { result ≡ action_pattern_in text.now }
{
    if text == "*" {
        return Some(ActionPattern::Any);
    }
    match Action::read(text) {
        Some(action) => Some(ActionPattern::Only(action)),
        None => None,
    }
}

fn read_pattern(alloc: Global, text: &str) -> Result<Pattern, RuleFlaw>
    ensures { Reads result (pattern_in text.now) }
{
    if text == "*" {
        return Ok(Pattern::Any);
    }
    let Some(name) = Name::read(text) else {
        return Err(RuleFlaw::Bad);
    };
    match name.to_owned(alloc) {
        Ok(name) => Ok(Pattern::Named(name)),
        Err(_) => Err(RuleFlaw::Memory),
    }
}

fn effect_at(table: &Table) -> Option<Effect>
    ensures { result ≡ effect_at (table_view table.now) }
{
    read_effect(text_at(table, "effect")?)
}

fn action_at(table: &Table) -> Option<ActionPattern>
    ensures { result ≡ action_at (table_view table.now) }
{
    read_action(text_at(table, "action")?)
}

fn pattern_at(alloc: Global, table: &Table, key: &str) -> Result<Pattern, RuleFlaw>
    ensures { Reads result (pattern_at key.now (table_view table.now)) }
{
    match text_at(table, key) {
        Some(text) => read_pattern(alloc, text),
        None => Err(RuleFlaw::Bad),
    }
}

fn has_rule_keys(with_days: bool, table: &Table) -> bool
    ensures { result
        ≡ list_all (λ entry.
        is_one_of (keys_of_rule with_days) entry.0) (entries (table_view table.now)) }
{
    for (key, _value) in table.iter() {
        if !may_have_key(with_days, key.as_str()) {
            return false;
        }
    }
    true
}

/// The first day on which a rule counts, and the last, which isn't before it.
fn days_at(table: &Table) -> Option<(Day, Day)>
    ensures { result ≡ days_at (table_view table.now) }
{
    let first = day_at(table, "first", Day::first())?;
    let last = day_at(table, "last", Day::last())?;
    if first.number() <= last.number() {
        Some((first, last))
    } else {
        None
    }
}

#[tactic(auto, unfolding(crate::specs::Policies::rule_of))]
fn read_rule_table(alloc: Global, with_days: bool, table: &Table) -> Result<Rule, RuleFlaw>
    ensures { Reads result (rule_of with_days (table_view table.now)) }
{
    if !has_rule_keys(with_days, table) {
        return Err(RuleFlaw::Bad);
    }
    let effect = effect_at(table).ok_or(RuleFlaw::Bad)?;
    let role = pattern_at(alloc, table, "role")?;
    let action = action_at(table).ok_or(RuleFlaw::Bad)?;
    let collection = pattern_at(alloc, table, "collection")?;
    let class = pattern_at(alloc, table, "class")?;
    let (first, last) = days_at(table).ok_or(RuleFlaw::Bad)?;
    Ok(Rule {
        effect,
        role,
        action,
        collection,
        class,
        first,
        last,
    })
}

/// The rule that a value of a policy file spells, where rules have days or don't.
pub fn read_rule(alloc: Global, with_days: bool, value: &Value) -> Result<Rule, RuleFlaw>
    ensures { Reads result (rule_of_value with_days (view value.now)) }
{
    match value.as_table() {
        Some(table) => read_rule_table(alloc, with_days, table),
        None => Err(RuleFlaw::Bad),
    }
}
