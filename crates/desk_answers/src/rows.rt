//! What answers say of one deposit, and of one hold.

ghost use Rattle.std.specs.Prelude.{◌≡◌, IfOk};
ghost use Rattle.serde_json.specs.View.{view};
ghost use Rattle.desk_answers.specs.Rows.{scope_text, record_data, live_hold_data};

use crate::object::{MemberValue, object, text_of};
use crate::told::Told;
use office_core::{DepositRecord, LiveHold, Scope};
use serde_json::Value;
use std::alloc::{AllocError, Global};

/// What a hold names.
fn scope_text(scope: Scope) -> &'static str
    ensures { result.now ≡ scope_text scope }
{
    match scope {
        Scope::Deposit => "deposit",
        Scope::Collection => "collection",
        Scope::Class => "class",
    }
}

/// What an answer says of a deposit.
pub(crate) fn record_data(alloc: Global, row: &DepositRecord) -> Result<Value, AllocError>
    ensures { IfOk result (λ value. view value ≡ record_data row.now) }
{
    let about = &row.description;
    let members = [
        ("accession", MemberValue::Text(about.accession.as_str())),
        ("bytes", MemberValue::Number(row.bytes as u64)),
        ("class", MemberValue::Text(about.class.as_str())),
        ("closed", MemberValue::Day(about.closed)),
        ("collection", MemberValue::Text(about.collection.as_str())),
        ("deposit", MemberValue::Number(row.number as u64)),
        ("deposited", MemberValue::Day(row.deposited)),
        ("due", MemberValue::Due(row.due)),
        ("files", MemberValue::Number(row.files as u64)),
    ];
    object(alloc, &members)
}

/// What an answer says of a live hold.
fn live_hold_data(alloc: Global, hold: &LiveHold) -> Result<Value, AllocError>
    ensures { IfOk result (λ value. view value ≡ live_hold_data hold.now) }
{
    let members = [
        ("hold", MemberValue::Number(hold.number as u64)),
        ("matter", MemberValue::Text(hold.matter.as_str())),
        ("on", MemberValue::Text(scope_text(hold.on))),
        ("placed", MemberValue::Day(hold.placed)),
    ];
    object(alloc, &members)
}

impl Told for DepositRecord {
    ghost told = { record_data };

    fn text(&self, alloc: Global) -> Result<Vec<u8>, AllocError> {
        text_of(alloc, record_data(alloc, self)?)
    }
}

impl Told for LiveHold {
    ghost told = { live_hold_data };

    fn text(&self, alloc: Global) -> Result<Vec<u8>, AllocError> {
        text_of(alloc, live_hold_data(alloc, self)?)
    }
}
