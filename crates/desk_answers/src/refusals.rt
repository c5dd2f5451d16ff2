//! What is said of a refusal of the office.

ghost use Rattle.std.specs.Prelude.{◌≡◌, IfOk, codes};
ghost use Rattle.serde_json.specs.Data.{string};
ghost use Rattle.serde_json.specs.View.{view};
ghost use Rattle.desk_answers.specs.Objects.{whole};
ghost use Rattle.desk_answers.specs.Refusals.{refusal_status, subject_text, name_data, no_such_data, denied_data, day_data, taken_data, bad_bag_data, held_data, not_due_data, refusal_data};

use crate::object::{MemberValue, object};
use crate::status::Status;
use office_core::{Day, Due, Refusal, Subject};
use serde_json::Value;
use std::alloc::{AllocError, Global};

/// The status of a refusal of the office.
pub(crate) fn refusal_status(refusal: &Refusal) -> Status
    ensures { result ≡ refusal_status refusal.now }
{
    match refusal {
        Refusal::NoSuch(_) | Refusal::NoFile => Status::NotFound,
        Refusal::DeniedByRule(_) | Refusal::DeniedByDefault => Status::Forbidden,
        Refusal::Gone(_) => Status::Gone,
        Refusal::BadBag(_) => Status::UnprocessableContent,
        Refusal::Memory | Refusal::Store => Status::ServiceUnavailable,
        Refusal::Taken(_)
        | Refusal::ClosedAhead
        | Refusal::Held(_)
        | Refusal::NotDue(_)
        | Refusal::Released(_)
        | Refusal::Full => Status::Conflict,
    }
}

fn subject_text(subject: Subject) -> &'static str
    ensures { result.now ≡ subject_text subject }
{
    match subject {
        Subject::Class => "class",
        Subject::Collection => "collection",
        Subject::Deposit => "deposit",
        Subject::Hold => "hold",
    }
}

/// The refusal's name alone.
pub(crate) fn name_value(alloc: Global, name: &str) -> Result<Value, AllocError>
    ensures { IfOk result (λ value. view value ≡ name_data name.now) }
{
    object(alloc, &[("error", MemberValue::Text(name))])
}

fn no_such_value(alloc: Global, subject: Subject) -> Result<Value, AllocError>
    ensures { IfOk result (λ value. view value ≡ no_such_data subject) }
{
    let members = [
        ("error", MemberValue::Text("NoSuch")),
        ("what", MemberValue::Text(subject_text(subject))),
    ];
    object(alloc, &members)
}

fn denied_by_rule_value(alloc: Global, rule: usize) -> Result<Value, AllocError>
    ensures { IfOk result (λ value. view value ≡ denied_data (whole rule)) }
{
    let members = [
        ("error", MemberValue::Text("Denied")),
        ("rule", MemberValue::Number(rule as u64)),
    ];
    object(alloc, &members)
}

fn denied_by_default_value(alloc: Global) -> Result<Value, AllocError>
    ensures { IfOk result (λ value. view value ≡ denied_data (string (codes "default"))) }
{
    let members = [
        ("error", MemberValue::Text("Denied")),
        ("rule", MemberValue::Text("default")),
    ];
    object(alloc, &members)
}

/// The name of a refusal with the day of what is in the way.
fn day_value(alloc: Global, name: &str, day: Day) -> Result<Value, AllocError>
    ensures { IfOk result (λ value. view value ≡ day_data name.now day) }
{
    let members = [
        ("day", MemberValue::Day(day)),
        ("error", MemberValue::Text(name)),
    ];
    object(alloc, &members)
}

fn taken_value(alloc: Global, deposit: u32) -> Result<Value, AllocError>
    ensures { IfOk result (λ value. view value ≡ taken_data deposit) }
{
    let members = [
        ("deposit", MemberValue::Number(deposit as u64)),
        ("error", MemberValue::Text("Taken")),
    ];
    object(alloc, &members)
}

fn bad_bag_value(alloc: Global, fault: &str) -> Result<Value, AllocError>
    ensures { IfOk result (λ value. view value ≡ bad_bag_data fault.now) }
{
    let members = [
        ("error", MemberValue::Text("BadBag")),
        ("fault", MemberValue::Text(fault)),
    ];
    object(alloc, &members)
}

fn held_value(alloc: Global, hold: u32) -> Result<Value, AllocError>
    ensures { IfOk result (λ value. view value ≡ held_data hold) }
{
    let members = [
        ("error", MemberValue::Text("Held")),
        ("hold", MemberValue::Number(hold as u64)),
    ];
    object(alloc, &members)
}

fn not_due_value(alloc: Global, due: Due) -> Result<Value, AllocError>
    ensures { IfOk result (λ value. view value ≡ not_due_data due) }
{
    let members = [
        ("due", MemberValue::Due(due)),
        ("error", MemberValue::Text("NotDue")),
    ];
    object(alloc, &members)
}

/// What is said of a refusal of the office.
pub(crate) fn refusal_value(alloc: Global, refusal: &Refusal) -> Result<Value, AllocError>
    ensures { IfOk result (λ value. view value ≡ refusal_data refusal.now) }
{
    match refusal {
        Refusal::NoSuch(subject) => no_such_value(alloc, *subject),
        Refusal::DeniedByRule(rule) => denied_by_rule_value(alloc, *rule),
        Refusal::DeniedByDefault => denied_by_default_value(alloc),
        Refusal::Gone(day) => day_value(alloc, "Gone", *day),
        Refusal::Taken(deposit) => taken_value(alloc, *deposit),
        Refusal::ClosedAhead => name_value(alloc, "ClosedAhead"),
        Refusal::BadBag(fault) => bad_bag_value(alloc, fault.as_str()),
        Refusal::Held(hold) => held_value(alloc, *hold),
        Refusal::NotDue(due) => not_due_value(alloc, *due),
        Refusal::Released(day) => day_value(alloc, "Released", *day),
        Refusal::Full => name_value(alloc, "Full"),
        Refusal::Memory => name_value(alloc, "Memory"),
        Refusal::Store => name_value(alloc, "Store"),
        Refusal::NoFile => name_value(alloc, "NoFile"),
    }
}
