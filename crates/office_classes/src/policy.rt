//! The policy.

ghost use Rattle.std.specs.Prelude.{◌≡◌, IfErr, IfOk, map, Some};
ghost use Rattle.office_contents.specs.Faults.{IsFailure};
ghost use Rattle.office_contents.specs.Calls.{GoesOnInside};
ghost use Rattle.office_history.specs.Pictures.{action_pattern_text, caller_row, effect_number, pattern_text, rule_row, rule_rows};
ghost use Rattle.office_by_rows.specs.Changes.{installed};
ghost use Rattle.office_access.specs.Serving.{Changes};

use office_core::{ActionPattern, Caller, Effect, Pattern, Policy, Rule};
use office_tables::{CallerRow, RuleRow, TableFault, put_policy};
use sqlite::{Alter, Transaction};
use std::alloc::Global;

/// The row of a caller.
fn caller_row(alloc: Global, caller: &Caller) -> Result<CallerRow, TableFault>
    ensures row { IfOk result (λ row. row ≡ caller_row caller.now) }
    ensures failure { IfErr result IsFailure }
{
    Ok(CallerRow {
        name: String::from_str(alloc, caller.name.as_str())?,
        role: String::from_str(alloc, caller.role.as_str())?,
    })
}

/// The rows of the callers.
fn caller_rows(alloc: Global, callers: &[Caller]) -> Result<Vec<CallerRow>, TableFault>
    ensures rows { IfOk result (λ rows. rows.items ≡ map caller_row callers.now) }
    ensures failure { IfErr result IsFailure }
{
    let mut rows = Vec::new(alloc);
    for caller in callers {
        rows.push(caller_row(alloc, caller)?)?;
    }
    Ok(rows)
}

/// The number that means an effect.
fn effect_number(effect: Effect) -> i64
    ensures { result ≡ effect_number effect }
{
    match effect {
        Effect::Allow => 1,
        Effect::Deny => 0,
    }
}

/// The text of a pattern: `*`, or a name.
fn pattern_text(pattern: &Pattern) -> &str
    ensures { result.now ≡ pattern_text pattern.now }
{
    match pattern {
        Pattern::Any => "*",
        Pattern::Named(only) => only.as_str(),
    }
}

/// The text of a pattern of actions: `*`, or the word of an action.
fn action_pattern_text(pattern: ActionPattern) -> &'static str
    ensures { result.now ≡ action_pattern_text pattern }
{
    match pattern {
        ActionPattern::Any => "*",
        ActionPattern::Only(action) => action.as_str(),
    }
}

/// The row of a rule at that place.
fn rule_row(alloc: Global, place: u32, rule: &Rule) -> Result<RuleRow, TableFault>
    ensures row { IfOk result (λ row. row ≡ rule_row place rule.now) }
    ensures failure { IfErr result IsFailure }
{
    Ok(RuleRow {
        place: place as i64,
        effect: effect_number(rule.effect),
        role: String::from_str(alloc, pattern_text(&rule.role))?,
        action: String::from_str(alloc, action_pattern_text(rule.action))?,
        collection: String::from_str(alloc, pattern_text(&rule.collection))?,
        class: String::from_str(alloc, pattern_text(&rule.class))?,
        first: rule.first.number() as i64,
        last: rule.last.number() as i64,
    })
}

/// The rows of the rules of a policy, from place 1 on.
fn rule_rows(alloc: Global, policy: &Policy) -> Result<Vec<RuleRow>, TableFault>
    ensures rows { IfOk result (λ rows. rows.items ≡ rule_rows 1 policy.now.rules) }
    ensures failure { IfErr result IsFailure }
{
    let rules = policy.rules();
    let mut rows = Vec::new(alloc);
    let mut place = 1;
    for rule in rules {
        rows.push(rule_row(alloc, place, rule)?)?;
        place += 1;
    }
    Ok(rows)
}

/// Installs a policy: its callers and rules replace all that were there.
///
/// Fails with `Memory` or `Store`.
pub fn install<S: Alter>(
    alloc: Global,
    tx: &mut Transaction<'_, S>,
    policy: &Policy,
) -> Result<(), TableFault>
    ensures inside { GoesOnInside S.Store tx.old.conn tx.new.conn result }
    ensures changes { Changes S.Store tx.old.conn.now tx.new.conn.now result (λ tables.
        Some (installed policy.now tables)) }
{
    let callers = caller_rows(alloc, policy.callers())?;
    let rules = rule_rows(alloc, policy)?;
    put_policy(tx, &callers, &rules)
}
