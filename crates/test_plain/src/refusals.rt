//! The refusals of each request, in their order.

ghost use Rattle.std.specs.Prelude.{◌≡◌, IfOk};
ghost use Rattle.office_core.specs.FirstOf.{first_some};
ghost use Rattle.office_core.specs.declared.request.Request.TheVariants as requests;
ghost use Rattle.office_history.specs.Histories.{deposit_numbered, hold_numbered};
ghost use Rattle.office_history.specs.Refusals.{of_deposit, of_hold, release_denial, taken_refusal, closed_ahead_refusal, bad_bag, full_of_deposits, no_file, released_refusal, asked_refusals, file_refusals, hold_refusals, collection_hold_refusals, class_hold_refusals, release_refusals, filing_refusals, bag_refusals, refusal};

use crate::change::{Deposit, Hold, Target};
use crate::history::{Office, limits_of};
use crate::judging::bag_of;
use crate::reading::{accession_of, deposit_count, deposit_numbered, hold_numbered, release_day};
use crate::refusing::{
    denial, denial_at, facts_of, full_of_holds, no_such_class, no_such_collection,
};
use office_core::{Action, Day, Description, Name, Refusal, Request, Subject, verdict};
use office_history::judging::refusal_of;
use std::alloc::{AllocError, Global};

/// E2 and E3, and of a disposal E7 and E8: the verdict on what is known.
fn first_asked_refusal(
    alloc: Global,
    office: &Office,
    day: Day,
    caller: &str,
    action: Action,
    number: u32,
    deposit: &Deposit,
) -> Result<Option<Refusal>, AllocError>
    ensures { IfOk result (λ found. found
        ≡ first_some (asked_refusals office.now day caller.now action number deposit.now)) }
{
    let facts = facts_of(alloc, office, day, caller, action, number, deposit)?;
    Ok(refusal_of(verdict(&facts, day)))
}

/// E1, and what is asked of the deposit that is there.
fn asked_refusal(
    alloc: Global,
    office: &Office,
    day: Day,
    caller: &str,
    action: Action,
    number: u32,
) -> Result<Option<Refusal>, AllocError>
    ensures { IfOk result (λ found.
        found
        ≡ first_some
        (of_deposit (deposit_numbered office.now number)
        (asked_refusals office.now day caller.now action number))) }
{
    match deposit_numbered(office, number) {
        Some((_, deposit)) => first_asked_refusal(
            alloc, office, day, caller, action, number, deposit,
        ),
        None => Ok(Some(Refusal::NoSuch(Subject::Deposit))),
    }
}

/// E4
fn taken_refusal(office: &Office, accession: &str) -> Option<Refusal>
    ensures { result ≡ taken_refusal office.now accession.now }
{
    match accession_of(office, accession) {
        Some(number) => Some(Refusal::Taken(number)),
        None => None,
    }
}

/// E5
fn closed_ahead_refusal(day: Day, closed: Day) -> Option<Refusal>
    ensures { result ≡ closed_ahead_refusal day closed }
{
    if day.number() < closed.number() {
        Some(Refusal::ClosedAhead)
    } else {
        None
    }
}

/// E6
fn bad_bag(alloc: Global, text: &[u8]) -> Result<Option<Refusal>, AllocError>
    ensures { IfOk result (λ refusal. refusal ≡ bad_bag text.now) }
{
    match bag_of(alloc, text)? {
        Ok(_) => Ok(None),
        Err(fault) => Ok(Some(Refusal::BadBag(fault))),
    }
}

/// E10
fn full_of_deposits(office: &Office) -> Option<Refusal>
    ensures { result ≡ full_of_deposits office.now }
{
    if limits_of(office).deposits <= deposit_count(office) {
        Some(Refusal::Full)
    } else {
        None
    }
}

/// E4, E5, E6 and E10.
fn first_bag_refusal(
    alloc: Global,
    office: &Office,
    day: Day,
    description: &Description<'_>,
    bag: &[u8],
) -> Result<Option<Refusal>, AllocError>
    ensures { IfOk result (λ found. found
        ≡ first_some (bag_refusals office.now day description.now bag.now)) }
{
    if let Some(refusal) = taken_refusal(office, description.accession.as_str()) {
        return Ok(Some(refusal));
    }
    if let Some(refusal) = closed_ahead_refusal(day, description.closed) {
        return Ok(Some(refusal));
    }
    if let Some(refusal) = bad_bag(alloc, bag)? {
        return Ok(Some(refusal));
    }
    Ok(full_of_deposits(office))
}

/// E1 and E2.
fn first_filing_refusal(
    office: &Office,
    day: Day,
    caller: &str,
    description: &Description<'_>,
) -> Option<Refusal>
    ensures { result ≡ first_some (filing_refusals office.now day caller.now description.now) }
{
    let collection = description.collection.as_str();
    let class = description.class.as_str();
    if let Some(refusal) = no_such_collection(office, collection) {
        return Some(refusal);
    }
    if let Some(refusal) = no_such_class(office, class) {
        return Some(refusal);
    }
    denial(
        office,
        day,
        caller,
        Action::Deposit,
        Some(collection),
        Some(class),
    )
}

/// E13
fn no_file(alloc: Global, deposit: &Deposit, path: &[u8]) -> Result<Option<Refusal>, AllocError>
    ensures { IfOk result (λ refusal. refusal ≡ no_file deposit.now path.now) }
{
    match deposit.bag.content(alloc, path)? {
        Some(_) => Ok(None),
        None => Ok(Some(Refusal::NoFile)),
    }
}

/// E2, E3 and E13.
fn first_file_refusal(
    alloc: Global,
    office: &Office,
    day: Day,
    caller: &str,
    number: u32,
    deposit: &Deposit,
    path: &[u8],
) -> Result<Option<Refusal>, AllocError>
    ensures { IfOk result (λ found. found
        ≡ first_some (file_refusals office.now day caller.now number path.now deposit.now)) }
{
    match first_asked_refusal(
        alloc,
        office,
        day,
        caller,
        Action::Download,
        number,
        deposit,
    )? {
        Some(refusal) => Ok(Some(refusal)),
        None => no_file(alloc, deposit, path),
    }
}

/// E1, E2, E3 and E13.
fn file_refusal(
    alloc: Global,
    office: &Office,
    day: Day,
    caller: &str,
    number: u32,
    path: &[u8],
) -> Result<Option<Refusal>, AllocError>
    ensures { IfOk result (λ found. found
        ≡ refusal office.now day caller.now (requests.DownloadFile number path.entry)) }
{
    match deposit_numbered(office, number) {
        Some((_, deposit)) => first_file_refusal(alloc, office, day, caller, number, deposit, path),
        None => Ok(Some(Refusal::NoSuch(Subject::Deposit))),
    }
}

/// E2, E3 and E10.
fn first_hold_refusal(
    alloc: Global,
    office: &Office,
    day: Day,
    caller: &str,
    number: u32,
    deposit: &Deposit,
) -> Result<Option<Refusal>, AllocError>
    ensures { IfOk result (λ found. found
        ≡ first_some (hold_refusals office.now day caller.now number deposit.now)) }
{
    match first_asked_refusal(alloc, office, day, caller, Action::Hold, number, deposit)? {
        Some(refusal) => Ok(Some(refusal)),
        None => Ok(full_of_holds(office)),
    }
}

/// E1, E2, E3 and E10.
fn hold_refusal(
    alloc: Global,
    office: &Office,
    day: Day,
    caller: &str,
    number: u32,
) -> Result<Option<Refusal>, AllocError>
    ensures { IfOk result (λ found. found ≡ first_some (of_deposit
        (deposit_numbered office.now number) (hold_refusals office.now day caller.now number))) }
{
    match deposit_numbered(office, number) {
        Some((_, deposit)) => first_hold_refusal(alloc, office, day, caller, number, deposit),
        None => Ok(Some(Refusal::NoSuch(Subject::Deposit))),
    }
}

/// E1, E2 and E10.
fn collection_hold_refusal(
    office: &Office,
    day: Day,
    caller: &str,
    name: &Name<'_>,
) -> Option<Refusal>
    ensures { result ≡ first_some (collection_hold_refusals office.now day caller.now name.now) }
{
    if let Some(refusal) = no_such_collection(office, name.as_str()) {
        return Some(refusal);
    }
    if let Some(refusal) = denial(office, day, caller, Action::Hold, Some(name.as_str()), None) {
        return Some(refusal);
    }
    full_of_holds(office)
}

/// E1, E2 and E10.
fn class_hold_refusal(office: &Office, day: Day, caller: &str, name: &Name<'_>) -> Option<Refusal>
    ensures { result ≡ first_some (class_hold_refusals office.now day caller.now name.now) }
{
    if let Some(refusal) = no_such_class(office, name.as_str()) {
        return Some(refusal);
    }
    if let Some(refusal) = denial(office, day, caller, Action::Hold, None, Some(name.as_str())) {
        return Some(refusal);
    }
    full_of_holds(office)
}

/// E2: a release is asked of what the hold names.
fn release_denial(office: &Office, day: Day, caller: &str, hold: &Hold) -> Option<Refusal>
    ensures { result ≡ release_denial office.now day caller.now hold.now.target }
{
    match &hold.target {
        Target::Deposit(number) => match deposit_numbered(office, *number) {
            Some((_, deposit)) => denial_at(office, day, caller, Action::Release, deposit),
            None => Some(Refusal::NoSuch(Subject::Deposit)),
        },
        Target::Collection(name) => denial(
            office,
            day,
            caller,
            Action::Release,
            Some(name.as_str()),
            None,
        ),
        Target::Class(name) => denial(
            office,
            day,
            caller,
            Action::Release,
            None,
            Some(name.as_str()),
        ),
    }
}

/// E9
fn released_refusal(office: &Office, hold: u32) -> Option<Refusal>
    ensures { result ≡ released_refusal office.now hold }
{
    match release_day(office, hold) {
        Some(day) => Some(Refusal::Released(day)),
        None => None,
    }
}

/// E1, E2 and E9.
fn release_refusal(office: &Office, day: Day, caller: &str, number: u32) -> Option<Refusal>
    ensures { result ≡ first_some (of_hold (hold_numbered office.now number)
        (release_refusals office.now day caller.now number)) }
{
    let Some((_, hold)) = hold_numbered(office, number) else {
        return Some(Refusal::NoSuch(Subject::Hold));
    };
    if let Some(refusal) = release_denial(office, day, caller, hold) {
        return Some(refusal);
    }
    released_refusal(office, number)
}

/// E1, E2, E3, E7 and E8.
pub fn dispose_refusal(
    alloc: Global,
    office: &Office,
    day: Day,
    caller: &str,
    number: u32,
) -> Result<Option<Refusal>, AllocError>
    ensures { IfOk result (λ found.
        found ≡ refusal office.now day caller.now (requests.Dispose number)) }
{
    asked_refusal(alloc, office, day, caller, Action::Dispose, number)
}

/// The first refusal that applies, or none where the request is allowed.
pub fn refusal(
    alloc: Global,
    office: &Office,
    day: Day,
    caller: &str,
    request: &Request<'_>,
) -> Result<Option<Refusal>, AllocError>
    ensures { IfOk result (λ found. found ≡ refusal office.now day caller.now request.now) }
{
    match request {
        Request::DefineClass { name, .. } => Ok(denial(
            office,
            day,
            caller,
            Action::Class,
            None,
            Some(name.as_str()),
        )),
        Request::DefineCollection { name } => Ok(denial(
            office,
            day,
            caller,
            Action::Collection,
            Some(name.as_str()),
            None,
        )),
        Request::Deposit { description, bag } => {
            match first_filing_refusal(office, day, caller, description) {
                Some(refusal) => Ok(Some(refusal)),
                None => first_bag_refusal(alloc, office, day, description, *bag),
            }
        }
        Request::List { .. } => Ok(None),
        Request::Record { deposit } => asked_refusal(
            alloc,
            office,
            day,
            caller,
            Action::Record,
            *deposit,
        ),
        Request::Holds { deposit } => asked_refusal(
            alloc,
            office,
            day,
            caller,
            Action::Holds,
            *deposit,
        ),
        Request::DownloadBag { deposit } => asked_refusal(
            alloc,
            office,
            day,
            caller,
            Action::Download,
            *deposit,
        ),
        Request::DownloadFile { deposit, path } => file_refusal(
            alloc, office, day, caller, *deposit, *path,
        ),
        Request::Audit { deposit } => asked_refusal(
            alloc,
            office,
            day,
            caller,
            Action::Audit,
            *deposit,
        ),
        Request::HoldDeposit { deposit, .. } => hold_refusal(alloc, office, day, caller, *deposit),
        Request::HoldCollection { collection, .. } => Ok(collection_hold_refusal(
            office, day, caller, collection,
        )),
        Request::HoldClass { class, .. } => Ok(class_hold_refusal(office, day, caller, class)),
        Request::Release { hold } => Ok(release_refusal(office, day, caller, *hold)),
        Request::Dispose { deposit } => dispose_refusal(alloc, office, day, caller, *deposit),
        Request::DueList => Ok(None),
    }
}
