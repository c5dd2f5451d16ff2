//! The key of a rule that is at fault.

ghost use Rattle.std.specs.Prelude.{◌≡◌, [], Some, is_some, option_copied};
ghost use Rattle.std.specs.Option.{option_map_or};
ghost use Rattle.toml.specs.View.{array_view, table_view, view};
ghost use Rattle.office_core.specs.Policies.{action_at, action_pattern_in, effect_at, effect_in, elements, pattern_at, pattern_in};
ghost use Rattle.office_core.specs.declared.policy_fault.PolicyFault.TheVariants.{BadRule};
ghost use Rattle.fault_words.specs.Locations.{location_words};
ghost use Rattle.fault_words.specs.PolicyReasons.{bad_day_key, bad_rule_key, key_words, numbered_key, location_in, rule_key, unknown_rule_key, value_key};

use crate::location::Location;
use office_core::tree::{day_at, may_have_key, text_at, value_at};
use office_core::{Action, Day, Name, has_days};
use toml::value::Array;
use toml::{Table, Value};

fn is_effect(text: &str) -> bool
    ensures { result ≡ is_some (effect_in text.now) }
{
    text == "allow" || text == "deny"
}

fn is_pattern(text: &str) -> bool
    ensures { result ≡ is_some (pattern_in text.now) }
{
    text == "*" || Name::read(text).is_some()
}

fn is_action(text: &str) -> bool
    ensures { result ≡ is_some (action_pattern_in text.now) }
{
    text == "*" || Action::read(text).is_some()
}

fn has_effect(rule: &Table) -> bool
    ensures { result ≡ is_some (effect_at (table_view rule.now)) }
{
    match text_at(rule, "effect") {
        Some(text) => is_effect(text),
        None => false,
    }
}

fn has_action(rule: &Table) -> bool
    ensures { result ≡ is_some (action_at (table_view rule.now)) }
{
    match text_at(rule, "action") {
        Some(text) => is_action(text),
        None => false,
    }
}

fn has_pattern(rule: &Table, key: &str) -> bool
    ensures { result ≡ is_some (pattern_at key.now (table_view rule.now)) }
{
    match text_at(rule, key) {
        Some(text) => is_pattern(text),
        None => false,
    }
}

fn unknown_rule_key(with_days: bool, rule: &Table) -> Option<&str>
    ensures { option_copied result ≡ unknown_rule_key with_days (table_view rule.now) }
{
    for (key, _value) in rule.iter() {
        if !may_have_key(with_days, key.as_str()) {
            return Some(key.as_str());
        }
    }
    None
}

/// The key of a value that isn't a day, or of a first day after the last.
fn bad_day_key(rule: &Table) -> Option<&'static str>
    ensures { option_copied result ≡ bad_day_key (table_view rule.now) }
{
    let Some(first) = day_at(rule, "first", Day::first()) else {
        return Some("first");
    };
    let Some(last) = day_at(rule, "last", Day::last()) else {
        return Some("last");
    };
    if first.number() <= last.number() {
        None
    } else {
        Some("first")
    }
}

/// The first of the five keys that is missing or has a value that it may not have, or the key of such
/// a day.
fn bad_rule_key(rule: &Table) -> Option<&'static str>
    ensures { option_copied result ≡ bad_rule_key (table_view rule.now) }
{
    if !has_effect(rule) {
        Some("effect")
    } else if !has_pattern(rule, "role") {
        Some("role")
    } else if !has_action(rule) {
        Some("action")
    } else if !has_pattern(rule, "collection") {
        Some("collection")
    } else if !has_pattern(rule, "class") {
        Some("class")
    } else {
        bad_day_key(rule)
    }
}

fn rule_key(with_days: bool, rule: &Table) -> Option<&str>
    ensures { option_copied result ≡ rule_key with_days (table_view rule.now) }
{
    match unknown_rule_key(with_days, rule) {
        Some(key) => Some(key),
        None => bad_rule_key(rule),
    }
}

fn value_key(with_days: bool, value: &Value) -> Option<&str>
    ensures { option_copied result ≡ value_key with_days (view value.now) }
{
    match value.as_table() {
        Some(rule) => rule_key(with_days, rule),
        None => None,
    }
}

/// The key at fault of the rule with this number, from 1.
fn numbered_key(with_days: bool, values: &Array, number: usize) -> Option<&str>
    ensures { option_copied result
        ≡ numbered_key with_days number (Some (elements (array_view values.now))) }
{
    if number == 0 {
        return None;
    }
    match values.get(number - 1) {
        Some(value) => value_key(with_days, value),
        None => None,
    }
}

fn key_location(key: Option<&str>) -> Location<'_>
    ensures { location_words result ≡ option_map_or key_words (option_copied key.entry) [] }
{
    match key {
        Some(key) => Location::Key(key),
        None => Location::Nowhere,
    }
}

/// Where in the rule with this number, from 1, the fault is.
pub fn rule_location(tree: &Table, number: usize) -> Location<'_>
    ensures { location_words result ≡ location_in (BadRule number) (table_view tree.now) }
{
    match value_at(tree, "rule") {
        Some(value) => match value.as_array() {
            Some(values) => key_location(numbered_key(has_days(tree), values, number)),
            None => Location::Nowhere,
        },
        None => Location::Nowhere,
    }
}
