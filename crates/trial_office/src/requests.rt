//! Requests that are timed, over bags of 10 KiB with three files.

use crate::office::described;
use crate::timed::{DECLARATION, RECORD, RECORD_LENGTH, scattered_number};
use anyhow::{Context, Result, bail};
use bag_text::{BagSet, write_bagset};
use office_core::{Answer, Day, Matter, Name, Refusal, Request, Years};
use office_engine::Office;
use sha2::{Digest, Sha256};
use sqlite::Alter;
use std::alloc::Global;

/// Who calls: the policy of `make` allows this caller everything.
const CALLER: &str = "anna";

/// The closing day of the deposits, and the day of each request.
const CLOSED: &str = "2026-01-01";

const DAY: &str = "2026-02-16";

/// A request that is made many times. One about a deposit is made of this one and that, here and
/// there.
#[derive(Clone, Copy)]
pub(crate) enum TrialRequest {
    /// A bag is deposited, the same each time.
    Deposit,
    /// A bag is deposited, each time one with a record of its own.
    OwnDeposit,
    Record,
    /// A disposal, refused for a hold or the due day.
    Disposal,
    /// A bag is downloaded.
    Bag,
    /// All deposits are listed.
    List,
    DueList,
    /// The collection of the deposits is held.
    Hold,
    /// The class of the deposits is revised: to eleven years, and then to ten.
    Class,
}

/// The transfer form of a bag, whose record begins with these bytes.
fn form(alloc: Global, begin: &[u8]) -> Result<Vec<u8>> {
    let mut record = vec![in alloc; b'r'; RECORD_LENGTH]?;
    for (to, from) in record.iter_mut().zip(begin) {
        *to = *from;
    }
    let mark = hex::encode(alloc, Sha256::digest(&record))?;
    let manifest = format!(in alloc; "{mark}  {RECORD}\n")?;
    let files: [(&str, &[u8]); 3] = [
        ("bagit.txt", DECLARATION),
        (RECORD, &record),
        ("manifest-sha256.txt", manifest.as_bytes()),
    ];
    let bag = BagSet::of(alloc, &files)?;
    Ok(write_bagset(alloc, &bag)?)
}

/// The forms of the bags that are deposited in this number of turns, or none.
pub(crate) fn forms(alloc: Global, asked: TrialRequest, count: u32) -> Result<Vec<Vec<u8>>> {
    let mut forms = Vec::new(alloc);
    for turn in 1..=count {
        match asked {
            TrialRequest::Deposit => forms.push(form(alloc, b"")?)?,
            TrialRequest::OwnDeposit => {
                let begin = format!(in alloc; "new {turn:06}")?;
                forms.push(form(alloc, begin.as_bytes())?)?;
            }
            _ => {}
        }
    }
    Ok(forms)
}

/// The years of the class, once it is revised in this turn.
fn years_of(turn: u32) -> Option<Years> {
    Years::new(if turn % 2 == 1 { 11 } else { 10 })
}

/// The request of a turn, of the deposit of that number.
fn request<'a>(
    asked: TrialRequest,
    turn: u32,
    number: u32,
    accession: &'a str,
    bag: &'a [u8],
) -> Option<Request<'a>> {
    match asked {
        TrialRequest::Deposit | TrialRequest::OwnDeposit => Some(Request::Deposit {
            description: described("tax", "y10", accession, CLOSED)?,
            bag,
        }),
        TrialRequest::Record => Some(Request::Record { deposit: number }),
        TrialRequest::Disposal => Some(Request::Dispose { deposit: number }),
        TrialRequest::Bag => Some(Request::DownloadBag { deposit: number }),
        TrialRequest::List => Some(Request::List {
            collection: None,
            class: None,
        }),
        TrialRequest::DueList => Some(Request::DueList),
        TrialRequest::Hold => Some(Request::HoldCollection {
            collection: Name::read("tax")?,
            matter: Matter::read("suit")?,
        }),
        TrialRequest::Class => Some(Request::DefineClass {
            name: Name::read("y10")?,
            years: years_of(turn)?,
        }),
    }
}

/// Whether the request is answered as it is to be.
fn is_answered(asked: TrialRequest, answer: &Answer) -> bool {
    match answer {
        Answer::Deposited { .. } => matches!(
            asked,
            TrialRequest::Deposit | TrialRequest::OwnDeposit
        ),
        Answer::Record(_) => matches!(asked, TrialRequest::Record),
        Answer::Refused(Refusal::Held(_) | Refusal::NotDue(_)) => matches!(
            asked,
            TrialRequest::Disposal
        ),
        Answer::Bag { .. } => matches!(asked, TrialRequest::Bag),
        Answer::List { .. } => matches!(asked, TrialRequest::List),
        Answer::DueList { .. } => matches!(asked, TrialRequest::DueList),
        Answer::HoldPlaced { .. } => matches!(asked, TrialRequest::Hold),
        Answer::Class { .. } => matches!(asked, TrialRequest::Class),
        _ => false,
    }
}

/// Makes the request of a turn. Fails where it isn't answered as it is to be.
fn ask<S: Alter>(
    alloc: Global,
    office: &mut Office<S>,
    asked: TrialRequest,
    turn: u32,
    request: &Request<'_>,
) -> Result<()> {
    let day = Day::read(DAY).context("the day")?;
    let answer = office.step(alloc, day, CALLER, request);
    if !is_answered(asked, &answer) {
        bail!("request {turn} is answered {answer:?}");
    }
    Ok(())
}

/// Makes the request of a turn, in an office of deposits 1 to `last`. `bag` is what is deposited.
fn ask_in_turn<S: Alter>(
    alloc: Global,
    office: &mut Office<S>,
    asked: TrialRequest,
    last: u32,
    turn: u32,
    bag: &[u8],
) -> Result<()> {
    let next = last.wrapping_add(turn);
    let accession = format!(in alloc; "2026-{next:07}")?;
    let number = scattered_number(turn, last);
    let request = request(asked, turn, number, &accession, bag).context("a request")?;
    ask(alloc, office, asked, turn, &request)
}

/// Makes the request this many times, in an office of deposits 1 to `last`. `forms` are those of the
/// bags that are deposited.
pub(crate) fn repeat<S: Alter>(
    alloc: Global,
    office: &mut Office<S>,
    asked: TrialRequest,
    last: u32,
    count: u32,
    forms: &[Vec<u8>],
) -> Result<()> {
    let mut bags = forms.iter();
    for turn in 1..=count {
        let bag = match bags.next() {
            Some(form) => form.as_slice(),
            None => &[],
        };
        ask_in_turn(alloc, office, asked, last, turn, bag)?;
    }
    Ok(())
}
