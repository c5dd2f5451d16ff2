//! Sessions: rows put to an office in turn, each with its answer.

use crate::asking::TestRequest;
use crate::offices::AnyOffice;
use crate::session_fault::SessionFault;
use crate::wording::words;
use office_core::{Answer, Day, Request, read_policy};
use std::alloc::{AllocError, Global};

/// Two callers and three rules. `anna` may do all but destroy what is of the collection `tax`;
/// `carl` may list what is of the class `y10`.
pub const POLICY: &str =
    "version = 1\n\n[callers]\nanna = \"archivist\"\ncarl = \"clerk\"\n\n[[rule]]\neffect = \"deny\"\nrole = \"archivist\"\naction = \"dispose\"\ncollection = \"tax\"\nclass = \"*\"\n\n[[rule]]\neffect = \"allow\"\nrole = \"archivist\"\naction = \"*\"\ncollection = \"*\"\nclass = \"*\"\n\n[[rule]]\neffect = \"allow\"\nrole = \"clerk\"\naction = \"list\"\ncollection = \"*\"\nclass = \"y10\"\n";

/// The same in version 2, where the first rule counts until the end of 2024.
pub const POLICY_WITH_DAYS: &str =
    "version = 2\n\n[callers]\nanna = \"archivist\"\ncarl = \"clerk\"\n\n[[rule]]\neffect = \"deny\"\nrole = \"archivist\"\naction = \"dispose\"\ncollection = \"tax\"\nclass = \"*\"\nlast = \"2024-12-31\"\n\n[[rule]]\neffect = \"allow\"\nrole = \"archivist\"\naction = \"*\"\ncollection = \"*\"\nclass = \"*\"\n\n[[rule]]\neffect = \"allow\"\nrole = \"clerk\"\naction = \"list\"\ncollection = \"*\"\nclass = \"y10\"\n";

/// A row: the day, who asks, what is asked, and the answer in words.
pub type Row = (&'static str, &'static str, TestRequest, &'static str);

/// Two classes and two collections are defined.
pub static OPENING: [Row; 4] = [
    (
        "2024-03-01",
        "anna",
        TestRequest::Class("y1", 1),
        "class y1 1",
    ),
    (
        "2024-03-01",
        "anna",
        TestRequest::Class("y10", 10),
        "class y10 10",
    ),
    (
        "2024-03-01",
        "anna",
        TestRequest::Collection("tax"),
        "collection tax",
    ),
    (
        "2024-03-01",
        "anna",
        TestRequest::Collection("maps"),
        "collection maps",
    ),
];

/// The day and the request that a row asks.
fn read_row(day: &str, asked: TestRequest) -> Result<(Day, Request<'static>), SessionFault> {
    match (Day::read(day), asked.request()) {
        (Some(day), Some(request)) => Ok((day, request)),
        _ => Err(SessionFault::AsksNothing),
    }
}

/// What the office answers to a request, in words.
fn step_in_words<O: AnyOffice>(
    alloc: Global,
    office: &mut O,
    day: Day,
    caller: &str,
    request: &Request<'_>,
) -> Result<String, AllocError> {
    words(alloc, &office.step(alloc, day, caller, request))
}

/// What the office answers that caller on that day, in words.
pub fn answer_in_words<O: AnyOffice>(
    alloc: Global,
    office: &mut O,
    day: &str,
    caller: &str,
    asked: TestRequest,
) -> Result<String, SessionFault> {
    let (day, request) = read_row(day, asked)?;
    Ok(step_in_words(alloc, office, day, caller, &request)?)
}

/// A row that is answered otherwise than it tells, or none.
fn told_otherwise(
    alloc: Global,
    at: usize,
    answer: &str,
    told: &str,
) -> Result<Option<String>, AllocError> {
    if answer == told {
        return Ok(None);
    }
    Ok(Some(format!(in alloc; "row {at} answers {answer}")?))
}

/// The first of the rows that is answered otherwise, with its answer, or none: they are put to the
/// office one after the other.
pub fn differs<O: AnyOffice>(
    alloc: Global,
    office: &mut O,
    rows: &[Row],
) -> Result<Option<String>, SessionFault> {
    for (at, (day, caller, asked, told)) in rows.iter().enumerate() {
        let answer = answer_in_words(alloc, office, day, caller, *asked)?;
        if let Some(other) = told_otherwise(alloc, at, answer.as_str(), told)? {
            return Ok(Some(other));
        }
    }
    Ok(None)
}

/// What the rows ask, as a run takes it.
fn items_of(
    alloc: Global,
    rows: &[Row],
) -> Result<Vec<(Day, &'static str, Request<'static>)>, SessionFault> {
    let mut items = Vec::new(alloc);
    for (day, caller, asked, _) in rows {
        let (day, request) = read_row(day, *asked)?;
        items.push((day, *caller, request))?;
    }
    Ok(items)
}

/// An answer that the row doesn't tell, or none.
fn other_answer(
    alloc: Global,
    at: usize,
    answer: &Answer,
    row: &Row,
) -> Result<Option<String>, AllocError> {
    let answer = words(alloc, answer)?;
    told_otherwise(alloc, at, answer.as_str(), row.3)
}

/// The first of the rows that these answers don't tell, or none.
fn first_other(
    alloc: Global,
    answers: &[Answer],
    rows: &[Row],
) -> Result<Option<String>, AllocError> {
    for (at, (answer, row)) in answers.iter().zip(rows.iter()).enumerate() {
        if let Some(other) = other_answer(alloc, at, answer, row)? {
            return Ok(Some(other));
        }
    }
    Ok(None)
}

/// The same, where the rows are put to the office in one run.
pub fn differs_in_run<O: AnyOffice>(
    alloc: Global,
    office: &mut O,
    rows: &[Row],
) -> Result<Option<String>, SessionFault> {
    let items = items_of(alloc, rows)?;
    let answers = office.run(alloc, items.as_slice())?;
    if answers.len() != rows.len() {
        return Ok(Some(format!(in alloc; "another number of answers")?));
    }
    Ok(first_other(alloc, answers.as_slice(), rows)?)
}

/// Installs the policy of a text, in the place of the one before.
pub fn install<O: AnyOffice>(
    alloc: Global,
    office: &mut O,
    policy: &str,
) -> Result<(), SessionFault> {
    let policy = read_policy(alloc, policy).map_err(|_| SessionFault::NoPolicy)?;
    office
        .install(alloc, policy)
        .map_err(SessionFault::NotInstalled)
}

/// Gives the office the policy, the classes `y1` and `y10` and the collections `tax` and `maps`. As
/// `differs` on the rows of `OPENING`.
pub fn open<O: AnyOffice>(alloc: Global, office: &mut O) -> Result<Option<String>, SessionFault> {
    install(alloc, office, POLICY)?;
    differs(alloc, office, &OPENING)
}
