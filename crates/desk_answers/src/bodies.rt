//! What accepted answers carry.

ghost use Rattle.std.specs.Prelude.{◌≡◌, IfOk};
ghost use Rattle.serde_json.specs.View.{view};
ghost use Rattle.desk_answers.specs.Bodies.{class_data, collection_data, deposit_data, valid_data, invalid_data, audit_data, hold_data, release_data, destroyed_data, due_list_data};

use crate::object::{MemberValue, object};
use bag_check::BagReport;
use office_core::{AuditReport, Day, Years};
use serde_json::Value;
use std::alloc::{AllocError, Global};

pub(crate) fn class(alloc: Global, name: &str, years: Years) -> Result<Value, AllocError>
    ensures { IfOk result (λ value. view value ≡ class_data name.now years) }
{
    let members = [
        ("class", MemberValue::Text(name)),
        ("years", MemberValue::Years(years)),
    ];
    object(alloc, &members)
}

pub(crate) fn collection(alloc: Global, name: &str) -> Result<Value, AllocError>
    ensures { IfOk result (λ value. view value ≡ collection_data name.now) }
{
    object(alloc, &[("collection", MemberValue::Text(name))])
}

pub(crate) fn deposit(alloc: Global, number: u32) -> Result<Value, AllocError>
    ensures { IfOk result (λ value. view value ≡ deposit_data number) }
{
    object(alloc, &[("deposit", MemberValue::Number(number as u64))])
}

fn valid_report(alloc: Global, deposit: u32, report: &BagReport) -> Result<Value, AllocError>
    ensures { IfOk result (λ value. view value ≡ valid_data deposit report.now) }
{
    let members = [
        ("bytes", MemberValue::Number(report.bytes as u64)),
        ("deposit", MemberValue::Number(deposit as u64)),
        ("files", MemberValue::Number(report.files as u64)),
        ("manifests", MemberValue::Number(report.manifests as u64)),
        ("valid", MemberValue::Flag(true)),
        ("version", MemberValue::Version(report.version)),
    ];
    object(alloc, &members)
}

fn fault_report(alloc: Global, deposit: u32, fault: &str) -> Result<Value, AllocError>
    ensures { IfOk result (λ value. view value ≡ invalid_data deposit fault.now) }
{
    let members = [
        ("deposit", MemberValue::Number(deposit as u64)),
        ("fault", MemberValue::Text(fault)),
        ("valid", MemberValue::Flag(false)),
    ];
    object(alloc, &members)
}

pub(crate) fn audit(alloc: Global, deposit: u32, report: &AuditReport) -> Result<Value, AllocError>
    ensures { IfOk result (λ value. view value ≡ audit_data deposit report.now) }
{
    match report {
        AuditReport::Valid(report) => valid_report(alloc, deposit, report),
        AuditReport::Invalid(fault) => fault_report(alloc, deposit, fault.as_str()),
    }
}

pub(crate) fn hold(alloc: Global, number: u32) -> Result<Value, AllocError>
    ensures { IfOk result (λ value. view value ≡ hold_data number) }
{
    object(alloc, &[("hold", MemberValue::Number(number as u64))])
}

pub(crate) fn release(alloc: Global, hold: u32, day: Day) -> Result<Value, AllocError>
    ensures { IfOk result (λ value. view value ≡ release_data hold day) }
{
    let members = [
        ("hold", MemberValue::Number(hold as u64)),
        ("released", MemberValue::Day(day)),
    ];
    object(alloc, &members)
}

pub(crate) fn disposal(alloc: Global, deposit: u32, day: Day) -> Result<Value, AllocError>
    ensures { IfOk result (λ value. view value ≡ destroyed_data deposit day) }
{
    let members = [
        ("day", MemberValue::Day(day)),
        ("destroyed", MemberValue::Number(deposit as u64)),
    ];
    object(alloc, &members)
}

pub(crate) fn due_list(alloc: Global, day: Day, deposits: &[u32]) -> Result<Value, AllocError>
    ensures { IfOk result (λ value. view value ≡ due_list_data day deposits.now) }
{
    let members = [
        ("day", MemberValue::Day(day)),
        ("deposits", MemberValue::Numbers(deposits)),
    ];
    object(alloc, &members)
}
