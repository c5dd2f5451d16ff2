//! Refusals that several requests share, and what decides them.

ghost use Rattle.std.specs.Prelude.{◌≡◌, IfOk, option_copied};
ghost use Rattle.office_core.specs.Policies.{role_of};
ghost use Rattle.office_history.specs.Histories.{policy};
ghost use Rattle.office_history.specs.Refusals.{deciding_rule, facts_of, denial, denial_at, no_such_class, no_such_collection, full_of_holds};

use crate::change::Deposit;
use crate::history::{Office, limits_of};
use crate::reading::{
    destruction_day, due, has_class, has_collection, hold_count, installed_policy, live_holds,
};
use office_core::{Action, Ask, Day, Decision, Facts, Refusal, Rule, Subject, decide, or_stranger};
use office_history::judging::refusal_of;
use std::alloc::{AllocError, Global};

/// The role of a caller by the policy that was installed last.
fn role_of<'a>(office: &'a Office, caller: &str) -> &'a str
    ensures { result.now ≡ role_of (policy office.now) caller.now }
{
    match installed_policy(office) {
        Some(policy) => policy.role_of(caller),
        None => or_stranger(None),
    }
}

/// The rules of the policy that was installed last.
fn rules_of(office: &Office) -> &[Rule]
    ensures { result.now ≡ (policy office.now).rules }
{
    match installed_policy(office) {
        Some(policy) => policy.rules(),
        None => &[],
    }
}

/// The rule that decides what a caller asks.
fn deciding_rule(
    office: &Office,
    day: Day,
    caller: &str,
    action: Action,
    collection: Option<&str>,
    class: Option<&str>,
) -> Option<Decision>
    ensures { result ≡ deciding_rule office.now day caller.now action
        (option_copied collection.entry) (option_copied class.entry) }
{
    let ask = Ask {
        role: role_of(office, caller),
        action,
        collection,
        class,
        day,
    };
    decide(rules_of(office), &ask)
}

/// What is known of an action on a deposit.
pub fn facts_of(
    alloc: Global,
    office: &Office,
    day: Day,
    caller: &str,
    action: Action,
    number: u32,
    deposit: &Deposit,
) -> Result<Facts, AllocError>
    ensures { IfOk result (λ facts.
        facts ≡ facts_of office.now day caller.now action number deposit.now) }
{
    let holds = live_holds(alloc, office, number, deposit)?;
    let collection = deposit.description.collection.as_str();
    let class = deposit.description.class.as_str();
    Ok(Facts {
        action,
        decision: deciding_rule(office, day, caller, action, Some(collection), Some(class)),
        gone: destruction_day(office, number),
        hold: holds.first().copied(),
        due: due(office, deposit),
    })
}

/// E2
pub fn denial(
    office: &Office,
    day: Day,
    caller: &str,
    action: Action,
    collection: Option<&str>,
    class: Option<&str>,
) -> Option<Refusal>
    ensures { result ≡ denial office.now day caller.now action
        (option_copied collection.entry) (option_copied class.entry) }
{
    match office_core::denial_verdict(deciding_rule(
        office, day, caller, action, collection, class,
    )) {
        Some(verdict) => refusal_of(verdict),
        None => None,
    }
}

/// E2, asked of a deposit: of its collection and its class.
pub fn denial_at(
    office: &Office,
    day: Day,
    caller: &str,
    action: Action,
    deposit: &Deposit,
) -> Option<Refusal>
    ensures { result ≡ denial_at office.now day caller.now action deposit.now }
{
    denial(
        office,
        day,
        caller,
        action,
        Some(deposit.description.collection.as_str()),
        Some(deposit.description.class.as_str()),
    )
}

/// E1
pub fn no_such_class(office: &Office, name: &str) -> Option<Refusal>
    ensures { result ≡ no_such_class office.now name.now }
{
    if has_class(office, name) {
        None
    } else {
        Some(Refusal::NoSuch(Subject::Class))
    }
}

/// E1
pub fn no_such_collection(office: &Office, name: &str) -> Option<Refusal>
    ensures { result ≡ no_such_collection office.now name.now }
{
    if has_collection(office, name) {
        None
    } else {
        Some(Refusal::NoSuch(Subject::Collection))
    }
}

/// E10
pub fn full_of_holds(office: &Office) -> Option<Refusal>
    ensures { result ≡ full_of_holds office.now }
{
    if limits_of(office).holds <= hold_count(office) {
        Some(Refusal::Full)
    } else {
        None
    }
}
