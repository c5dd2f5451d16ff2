//! What is at a key of a TOML table, and which keys a rule may have.

ghost use Rattle.std.specs.Prelude.{◌≡◌, option_copied, option_map};
ghost use Rattle.toml.specs.Data.{get_member};
ghost use Rattle.toml.specs.View.{view, table_view};
ghost use Rattle.office_core.specs.Policies.{text_at, day_at, rule_keys, keys_of_rule, is_one_of};

use crate::day::Day;
use toml::{Table, Value};

/// The value of a key, where the table has it.
pub fn value_at<'a>(table: &'a Table, key: &str) -> Option<&'a Value>
    ensures { option_map (λ value. view value.now) result
        ≡ get_member key.now (table_view table.now) }
{
    table.get(key)
}

/// The text of a key, where a text is there.
pub fn text_at<'a>(table: &'a Table, key: &str) -> Option<&'a str>
    ensures { option_copied result ≡ text_at key.now (table_view table.now) }
{
    match value_at(table, key) {
        Some(value) => value.as_str(),
        None => None,
    }
}

/// The day of a key, or the one that is given where the key isn't there.
pub fn day_at(table: &Table, key: &str, otherwise: Day) -> Option<Day>
    ensures { result ≡ day_at key.now otherwise (table_view table.now) }
{
    match value_at(table, key) {
        Some(value) => Day::read(value.as_str()?),
        None => Some(otherwise),
    }
}

fn is_rule_key(key: &str) -> bool
    ensures { result ≡ is_one_of rule_keys key.now }
{
    key == "effect" || key == "role" || key == "action" || key == "collection" || key == "class"
}

/// Whether a rule may have the key, where rules have days or don't.
pub fn may_have_key(with_days: bool, key: &str) -> bool
    ensures { result ≡ is_one_of (keys_of_rule with_days) key.now }
{
    is_rule_key(key) || (with_days && (key == "first" || key == "last"))
}
