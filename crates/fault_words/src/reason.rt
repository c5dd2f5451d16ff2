//! What is printed to standard error of a policy file that is refused.

ghost use Rattle.std.specs.Prelude.{◌≡◌, ◌++◌, ◌∷◌, [], IfOk, Some, is_some, option_copied, string_bytes};
ghost use Rattle.std.specs.Option.{option_map_or};
ghost use Rattle.toml.specs.View.{table_view, view};
ghost use Rattle.office_core.specs.Policies.{caller_in, entries, is_one_of, top_keys};
ghost use Rattle.office_core.specs.declared.policy_fault.PolicyFault.TheVariants.{UnknownKey, BadCaller};
ghost use Rattle.fault_words.specs.FaultWords.{policy_words};
ghost use Rattle.fault_words.specs.Locations.{location_words};
ghost use Rattle.fault_words.specs.PolicyReasons.{IsPolicyReason, bad_caller, caller_location, location_in, tree_in, unknown_key};

use crate::in_words::InWords;
use crate::location::Location;
use crate::rule_location::rule_location;
use crate::toml_line::{line_location, tree_in};
use office_core::tree::value_at;
use office_core::{Name, PolicyFault};
use std::alloc::{AllocError, Global};
use std::fmt::Write;
use toml::{Table, Value};

fn is_top_key(key: &str) -> bool
    ensures { result ≡ is_one_of top_keys key.now }
{
    key == "version" || key == "callers" || key == "rule"
}

fn unknown_key(tree: &Table) -> Option<&str>
    ensures { option_copied result ≡ unknown_key (table_view tree.now) }
{
    for (key, _value) in tree.iter() {
        if !is_top_key(key.as_str()) {
            return Some(key.as_str());
        }
    }
    None
}

/// Whether a caller and its role are names.
fn is_caller(name: &str, value: &Value) -> bool
    ensures { result ≡ is_some (caller_in (name.now, view value.now)) }
{
    match value.as_str() {
        Some(role) => Name::read(name).is_some() && Name::read(role).is_some(),
        None => false,
    }
}

fn bad_caller(callers: &Table) -> Option<&str>
    ensures { option_copied result ≡ bad_caller (entries (table_view callers.now)) }
{
    for (name, value) in callers.iter() {
        if !is_caller(name.as_str(), value) {
            return Some(name.as_str());
        }
    }
    None
}

fn unknown_key_location(tree: &Table) -> Location<'_>
    ensures { location_words result ≡ location_in UnknownKey (table_view tree.now) }
{
    match unknown_key(tree) {
        Some(key) => Location::Key(key),
        None => Location::Nowhere,
    }
}

fn bad_caller_location(callers: &Table) -> Location<'_>
    ensures { location_words result ≡ caller_location (Some (entries (table_view callers.now))) }
{
    match bad_caller(callers) {
        Some(name) => Location::Caller(name),
        None => Location::Nowhere,
    }
}

fn caller_location(tree: &Table) -> Location<'_>
    ensures { location_words result ≡ location_in BadCaller (table_view tree.now) }
{
    match value_at(tree, "callers") {
        Some(value) => match value.as_table() {
            Some(callers) => bad_caller_location(callers),
            None => Location::Key("callers"),
        },
        None => Location::Nowhere,
    }
}

/// Where in the tree the fault is.
fn location_in(tree: &Table, fault: PolicyFault) -> Location<'_>
    ensures { location_words result ≡ location_in fault (table_view tree.now) }
{
    match fault {
        PolicyFault::UnknownKey => unknown_key_location(tree),
        PolicyFault::BadCaller => caller_location(tree),
        PolicyFault::BadRule(number) => rule_location(tree, number),
        _ => Location::Nowhere,
    }
}

/// The fault's sentence and its location.
fn sentence_at(
    alloc: Global,
    fault: PolicyFault,
    location: Location<'_>,
) -> Result<String, AllocError>
    ensures { IfOk result (λ text.
        string_bytes text ≡ policy_words fault ++ location_words location.entry ++ 10 ∷ []) }
{
    let words = InWords(&fault);
    let mut text = format!(in alloc; "{words}")?;
    write!(text, "{location}\n")?;
    Ok(text)
}

/// What is said of a fault of the tree that the bytes spell.
fn tree_reason(alloc: Global, bytes: &[u8], fault: PolicyFault) -> Result<String, AllocError>
    ensures { IfOk result (λ text. string_bytes text ≡
        policy_words fault ++ option_map_or (location_in fault) (tree_in bytes.now) [] ++ 10 ∷ []) }
{
    match tree_in(alloc, bytes)? {
        Some(tree) => sentence_at(alloc, fault, location_in(&tree, fault)),
        None => sentence_at(alloc, fault, Location::Nowhere),
    }
}

/// The lines that are printed to standard error of a policy file whose first fault this is: its sentence,
/// and the line, the key or the caller, where one is known.
pub fn policy_reason(alloc: Global, bytes: &[u8], fault: PolicyFault) -> Result<String, AllocError>
    ensures { IfOk result (λ text. IsPolicyReason bytes.now fault (string_bytes text)) }
{
    match fault {
        PolicyFault::NotToml => sentence_at(alloc, fault, line_location(alloc, bytes)?),
        _ => tree_reason(alloc, bytes, fault),
    }
}
