//! Reading a policy file.

ghost use Rattle.std.specs.Prelude.{◌≡◌, Some, Ok, Err, ok_or, not, if◌then◌else◌};
ghost use Rattle.std.specs.List.{list_all};
ghost use Rattle.toml.specs.View.{view, table_view, array_view};
ghost use Rattle.bag_text.specs.Answers.{Gives};
ghost use Rattle.office_core.specs.Policies.{caller_in, caller_entries, rule_values, entries, elements, is_one_of, top_keys, has_version_number, has_days, has_bad_version, named_policy_fault};
ghost use Rattle.office_core.specs.Names.{is_name};
ghost use Rattle.office_core.specs.PolicyReading.{read_callers, read_rules};
ghost use Rattle.office_core.specs.declared.policy_fault.PolicyFault.TheVariants.{BadCaller};

use crate::caller::Caller;
use crate::names::{Name, OwnedName};
use crate::policy_fault::PolicyFault;
use crate::rule::Rule;
use crate::rule_flaw::RuleFlaw;
use crate::rule_reading::read_rule;
use crate::tree::value_at;
use std::alloc::Global;
use toml::value::Array;
use toml::{Table, Value};

fn has_version_number(tree: &Table, number: i64) -> bool
    ensures { result ≡ has_version_number number (table_view tree.now) }
{
    match value_at(tree, "version") {
        Some(value) => value.as_integer() == Some(number),
        None => false,
    }
}

/// Whether the version of the policy is neither 1 nor 2, or missing.
pub fn has_bad_version(tree: &Table) -> bool
    ensures { result ≡ has_bad_version (table_view tree.now) }
{
    !(has_version_number(tree, 1) || has_version_number(tree, 2))
}

/// Whether the rules of the policy may have days: its version is 2.
pub fn has_days(tree: &Table) -> bool
    ensures { result ≡ has_days (table_view tree.now) }
{
    has_version_number(tree, 2)
}

fn is_top_key(key: &str) -> bool
    ensures { result ≡ is_one_of top_keys key.now }
{
    key == "version" || key == "callers" || key == "rule"
}

/// Whether each key at the top is one that a policy may have.
pub fn has_top_keys(tree: &Table) -> bool
    ensures { result
        ≡ list_all (λ entry. is_one_of top_keys entry.0) (entries (table_view tree.now)) }
{
    for (key, _value) in tree.iter() {
        if !is_top_key(key.as_str()) {
            return false;
        }
    }
    true
}

fn read_name(alloc: Global, text: &str) -> Result<OwnedName, PolicyFault>
    ensures { Gives named_policy_fault (λ name. name) result
        (if is_name text.now then Ok text.now else Err BadCaller) }
{
    let Some(name) = Name::read(text) else {
        return Err(PolicyFault::BadCaller);
    };
    match name.to_owned(alloc) {
        Ok(name) => Ok(name),
        Err(_) => Err(PolicyFault::Memory),
    }
}

fn read_caller(alloc: Global, name: &str, value: &Value) -> Result<Caller, PolicyFault>
    ensures { Gives named_policy_fault (λ caller. caller) result
        (ok_or (caller_in (name.now, view value.now)) BadCaller) }
{
    let role = value.as_str().ok_or(PolicyFault::BadCaller)?;
    Ok(Caller {
        name: read_name(alloc, name)?,
        role: read_name(alloc, role)?,
    })
}

fn callers_in(alloc: Global, table: &Table) -> Result<Vec<Caller>, PolicyFault>
    ensures { Gives named_policy_fault (λ v.
        v.items) result (read_callers (Some (entries (table_view table.now)))) }
{
    let mut callers = Vec::new(alloc);
    for (key, value) in table.iter() {
        callers.push(read_caller(alloc, key.as_str(), value)?)?;
    }
    Ok(callers)
}

/// The callers that the policy lists: none where it has no `callers`.
pub fn callers_of(alloc: Global, tree: &Table) -> Result<Vec<Caller>, PolicyFault>
    ensures { Gives named_policy_fault (λ v.
        v.items) result (read_callers (caller_entries (table_view tree.now))) }
{
    match value_at(tree, "callers") {
        Some(value) => match value.as_table() {
            Some(table) => callers_in(alloc, table),
            None => Err(PolicyFault::BadCaller),
        },
        None => Ok(Vec::new(alloc)),
    }
}

fn rules_in(alloc: Global, with_days: bool, values: &Array) -> Result<Vec<Rule>, PolicyFault>
    ensures { Gives named_policy_fault (λ v.
        v.items) result (read_rules with_days (Some (elements (array_view values.now)))) }
{
    let mut rules = Vec::new(alloc);
    for value in values {
        match read_rule(alloc, with_days, value) {
            Ok(rule) => rules.push(rule)?,
            Err(RuleFlaw::Bad) => return Err(PolicyFault::BadRule(rules.len() + 1)),
            Err(RuleFlaw::Memory) => return Err(PolicyFault::Memory),
        }
    }
    Ok(rules)
}

/// The rules of the policy in their order: none where it has no `rule`.
pub fn rules_of(alloc: Global, tree: &Table) -> Result<Vec<Rule>, PolicyFault>
    ensures { Gives named_policy_fault (λ v.
        v.items) result
        (read_rules (has_days (table_view tree.now)) (rule_values (table_view tree.now))) }
{
    match value_at(tree, "rule") {
        Some(value) => match value.as_array() {
            Some(values) => rules_in(alloc, has_days(tree), values),
            None => Err(PolicyFault::BadRule(0)),
        },
        None => Ok(Vec::new(alloc)),
    }
}
