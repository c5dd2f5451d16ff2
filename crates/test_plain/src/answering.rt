//! The answers of requests that are allowed.

ghost use Rattle.std.specs.Prelude.{◌≡◌, IfOk, option_copied};
ghost use Rattle.bag_text.specs.TransferForm.{set_text, content_at};
ghost use Rattle.office_core.specs.declared.answer.Answer.TheVariants as answers;
ghost use Rattle.office_core.specs.declared.refusal.Subject.TheVariants as subjects;
ghost use Rattle.office_core.specs.declared.refusal.Refusal.TheVariants.{NoSuch};
ghost use Rattle.office_history.specs.Histories.{deposit_numbered};
ghost use Rattle.office_history.specs.Bags.{report_on};
ghost use Rattle.office_history.specs.Answers.{record_of, is_selected, is_listed, listed_record, listed_records, due_list, scope_of, live_hold, told_hold, told_holds, audit_report, told_of, file_answer, allowed_answer};

use crate::change::{Deposit, Hold, Target};
use crate::history::Office;
use crate::judging::audit;
use crate::reading::{
    deposit_count, deposit_numbered, due, hold_count, hold_numbered, kept_numbers, live_holds,
};
use crate::refusals::dispose_refusal;
use crate::refusing::denial_at;
use office_core::{
    Action, Answer, Day, DepositRecord, LiveHold, Name, OwnedName, Refusal, Request, Scope,
    Sequence, Subject,
};
use std::alloc::{AllocError, Global};

/// What is told of a deposit.
fn record_of(
    alloc: Global,
    office: &Office,
    number: u32,
    day: Day,
    deposit: &Deposit,
) -> Result<DepositRecord, AllocError>
    ensures { IfOk result (λ told. told ≡ record_of office.now number (day, deposit.now)) }
{
    let payload = deposit.bag.payload(alloc)?;
    Ok(DepositRecord {
        number,
        description: deposit.description.lend().to_owned(alloc)?,
        deposited: day,
        files: payload.files,
        bytes: payload.bytes,
        due: due(office, deposit),
    })
}

/// What is asked for by name, or everything.
fn is_selected(only: &Option<Name<'_>>, name: &OwnedName) -> bool
    ensures { result ≡ is_selected only.now name.now }
{
    match only {
        Some(only) => only.as_str() == name.as_str(),
        None => true,
    }
}

/// A deposit that the caller may list on that day.
fn is_listed(
    office: &Office,
    day: Day,
    caller: &str,
    collection: &Option<Name<'_>>,
    class: &Option<Name<'_>>,
    deposit: &Deposit,
) -> bool
    ensures { result
        ≡ is_listed office.now day caller.now
        (record { collection = collection.now; class = class.now }) deposit.now }
{
    is_selected(collection, &deposit.description.collection)
        && is_selected(class, &deposit.description.class)
        && denial_at(office, day, caller, Action::List, deposit).is_none()
}

fn listed_record(
    alloc: Global,
    office: &Office,
    day: Day,
    caller: &str,
    collection: &Option<Name<'_>>,
    class: &Option<Name<'_>>,
    number: u32,
) -> Result<Option<DepositRecord>, AllocError>
    ensures { IfOk result (λ told.
        told
        ≡ listed_record office.now day caller.now
        (record { collection = collection.now; class = class.now }) number) }
{
    match deposit_numbered(office, number) {
        Some((deposited, deposit)) => {
            if is_listed(office, day, caller, collection, class, deposit) {
                Ok(Some(record_of(alloc, office, number, deposited, deposit)?))
            } else {
                Ok(None)
            }
        }
        None => Ok(None),
    }
}

/// The kept deposits, of the collection and class asked for, that the caller may list on that day,
/// ascending.
fn listed_records(
    alloc: Global,
    office: &Office,
    day: Day,
    caller: &str,
    collection: &Option<Name<'_>>,
    class: &Option<Name<'_>>,
) -> Result<Vec<DepositRecord>, AllocError>
    ensures { IfOk result (λ told.
        told.items
        ≡ listed_records office.now day caller.now
        (record { collection = collection.now; class = class.now })) }
{
    let numbers = kept_numbers(alloc, office)?;
    let mut records = Vec::new(alloc);
    for number in &numbers {
        if let Some(record) = listed_record(
            alloc, office, day, caller, collection, class, *number,
        )? {
            records.push(record)?;
        }
    }
    Ok(records)
}

/// The deposits that the caller may destroy on that day, ascending: those whose disposal would be accepted.
fn due_list(alloc: Global, office: &Office, day: Day, caller: &str) -> Result<Vec<u32>, AllocError>
    ensures { IfOk result (λ numbers. numbers.items ≡ due_list office.now day caller.now) }
{
    let numbers = kept_numbers(alloc, office)?;
    let mut due = Vec::new(alloc);
    for number in &numbers {
        if dispose_refusal(alloc, office, day, caller, *number)?.is_none() {
            due.push(*number)?;
        }
    }
    Ok(due)
}

fn scope_of(hold: &Hold) -> Scope
    ensures { result ≡ scope_of hold.now.target }
{
    match &hold.target {
        Target::Deposit(_) => Scope::Deposit,
        Target::Collection(_) => Scope::Collection,
        Target::Class(_) => Scope::Class,
    }
}

fn live_hold(alloc: Global, number: u32, day: Day, hold: &Hold) -> Result<LiveHold, AllocError>
    ensures { IfOk result (λ told. told ≡ live_hold number (day, hold.now)) }
{
    Ok(LiveHold {
        number,
        matter: hold.matter.lend().to_owned(alloc)?,
        on: scope_of(hold),
        placed: day,
    })
}

fn told_hold(alloc: Global, office: &Office, number: u32) -> Result<Option<LiveHold>, AllocError>
    ensures { IfOk result (λ told. told ≡ told_hold office.now number) }
{
    match hold_numbered(office, number) {
        Some((day, hold)) => Ok(Some(live_hold(alloc, number, day, hold)?)),
        None => Ok(None),
    }
}

/// The live holds that cover a deposit, ascending.
fn told_holds(
    alloc: Global,
    office: &Office,
    number: u32,
    deposit: &Deposit,
) -> Result<Vec<LiveHold>, AllocError>
    ensures { IfOk result (λ told. told.items ≡ told_holds office.now number deposit.now) }
{
    let numbers = live_holds(alloc, office, number, deposit)?;
    let mut holds = Vec::new(alloc);
    for hold in &numbers {
        if let Some(told) = told_hold(alloc, office, *hold)? {
            holds.push(told)?;
        }
    }
    Ok(holds)
}

fn file_answer(alloc: Global, content: Option<&[u8]>) -> Result<Answer, AllocError>
    ensures { IfOk result (λ answer. answer ≡ file_answer (option_copied content.entry)) }
{
    match content {
        Some(content) => Ok(Answer::File {
            bytes: Sequence::of(Vec::from_slice(alloc, content)?),
        }),
        None => Ok(Answer::Refused(Refusal::NoFile)),
    }
}

/// There is no deposit of that number.
fn no_deposit() -> Answer
    ensures { result ≡ answers.Refused (NoSuch subjects.Deposit) }
{
    Answer::Refused(Refusal::NoSuch(Subject::Deposit))
}

fn record_answer(alloc: Global, office: &Office, number: u32) -> Result<Answer, AllocError>
    ensures { IfOk result (λ answer.
        answer
        ≡ told_of (deposit_numbered office.now number) (λ found.
        answers.Record (record_of office.now number found))) }
{
    match deposit_numbered(office, number) {
        Some((day, deposit)) => Ok(Answer::Record(record_of(alloc, office, number, day, deposit)?)),
        None => Ok(no_deposit()),
    }
}

fn holds_answer(alloc: Global, office: &Office, number: u32) -> Result<Answer, AllocError>
    ensures { IfOk result (λ answer.
        answer
        ≡ told_of (deposit_numbered office.now number) (λ found.
        answers.Holds (told_holds office.now number found.1))) }
{
    match deposit_numbered(office, number) {
        Some((_, deposit)) => Ok(Answer::Holds {
            holds: Sequence::of(told_holds(alloc, office, number, deposit)?),
        }),
        None => Ok(no_deposit()),
    }
}

fn bag_answer(alloc: Global, office: &Office, number: u32) -> Result<Answer, AllocError>
    ensures { IfOk result (λ answer.
        answer
        ≡ told_of (deposit_numbered office.now number) (λ found.
        answers.Bag (set_text found.1.bag))) }
{
    match deposit_numbered(office, number) {
        Some((_, deposit)) => Ok(Answer::Bag {
            bytes: Sequence::of(Vec::from_slice(alloc, deposit.bag.text())?),
        }),
        None => Ok(no_deposit()),
    }
}

fn path_answer(
    alloc: Global,
    office: &Office,
    number: u32,
    path: &[u8],
) -> Result<Answer, AllocError>
    ensures { IfOk result (λ answer.
        answer
        ≡ told_of (deposit_numbered office.now number) (λ found.
        file_answer (content_at found.1.bag path.now))) }
{
    match deposit_numbered(office, number) {
        Some((_, deposit)) => file_answer(alloc, deposit.bag.content(alloc, path)?),
        None => Ok(no_deposit()),
    }
}

fn audit_answer(alloc: Global, office: &Office, number: u32) -> Result<Answer, AllocError>
    ensures { IfOk result (λ answer.
        answer
        ≡ told_of (deposit_numbered office.now number) (λ found.
        answers.Audit number (audit_report (report_on found.1.bag)))) }
{
    match deposit_numbered(office, number) {
        Some((_, deposit)) => Ok(Answer::Audit {
            deposit: number,
            report: audit(alloc, &deposit.bag)?,
        }),
        None => Ok(no_deposit()),
    }
}

/// The answer of the office where the request is allowed.
pub fn allowed_answer(
    alloc: Global,
    office: &Office,
    day: Day,
    caller: &str,
    request: &Request<'_>,
) -> Result<Answer, AllocError>
    ensures { IfOk result (λ answer.
        answer ≡ allowed_answer office.now day caller.now request.now) }
{
    match request {
        Request::DefineClass { name, years } => Ok(Answer::Class {
            name: name.to_owned(alloc)?,
            years: *years,
        }),
        Request::DefineCollection { name } => Ok(Answer::Collection {
            name: name.to_owned(alloc)?,
        }),
        Request::Deposit { .. } => Ok(Answer::Deposited {
            deposit: deposit_count(office) + 1,
        }),
        Request::List { collection, class } => Ok(Answer::List {
            deposits: Sequence::of(listed_records(alloc, office, day, caller, collection, class)?),
        }),
        Request::Record { deposit } => record_answer(alloc, office, *deposit),
        Request::Holds { deposit } => holds_answer(alloc, office, *deposit),
        Request::DownloadBag { deposit } => bag_answer(alloc, office, *deposit),
        Request::DownloadFile { deposit, path } => path_answer(alloc, office, *deposit, *path),
        Request::Audit { deposit } => audit_answer(alloc, office, *deposit),
        Request::HoldDeposit { .. } => Ok(Answer::HoldPlaced {
            hold: hold_count(office) + 1,
        }),
        Request::HoldCollection { .. } => Ok(Answer::HoldPlaced {
            hold: hold_count(office) + 1,
        }),
        Request::HoldClass { .. } => Ok(Answer::HoldPlaced {
            hold: hold_count(office) + 1,
        }),
        Request::Release { hold } => Ok(Answer::HoldReleased { hold: *hold, day }),
        Request::Dispose { deposit } => Ok(Answer::Destroyed {
            deposit: *deposit,
            day,
        }),
        Request::DueList => Ok(Answer::DueList {
            day,
            deposits: Sequence::of(due_list(alloc, office, day, caller)?),
        }),
    }
}
