//! The bytes of answers.

ghost use Rattle.std.specs.Prelude.{◌≡◌, IfOk};
ghost use Rattle.desk_answers.specs.Answers.{answer_text, refusal_text};
ghost use Rattle.desk_answers.specs.Bodies.{status_of, content_of};
ghost use Rattle.desk_answers.specs.DeskRefusals.{desk_status, desk_name};
ghost use Rattle.desk_answers.specs.Responses.{media_type_of, body_of, carried_type, carried_bytes};

use crate::bodies;
use crate::content::{Content, content_bytes};
use crate::methods::allow_line;
use crate::object::text_of;
use crate::refusals::{name_value, refusal_status, refusal_value};
use crate::rows::record_data;
use crate::status::Status;
use crate::told::list_text;
use desk_routes::DeskRefusal;
use office_core::Answer;
use std::alloc::{AllocError, Global};

fn status_of(answer: &Answer) -> Status
    ensures { result ≡ status_of answer.now }
{
    match answer {
        Answer::Deposited { .. } | Answer::HoldPlaced { .. } => Status::Created,
        Answer::Class { .. }
        | Answer::Collection { .. }
        | Answer::List { .. }
        | Answer::Record(_)
        | Answer::Holds { .. }
        | Answer::Bag { .. }
        | Answer::File { .. }
        | Answer::Audit { .. }
        | Answer::HoldReleased { .. }
        | Answer::Destroyed { .. }
        | Answer::DueList { .. } => Status::Success,
        Answer::Refused(refusal) => refusal_status(refusal),
    }
}

/// What the answer carries. Bags and files are lent.
fn content_of<'a>(alloc: Global, answer: &'a Answer) -> Result<Content<'a>, AllocError>
    ensures media_type { IfOk result (λ content.
        carried_type content ≡ media_type_of (content_of answer.now)) }
    ensures body { IfOk result (λ content.
        carried_bytes content ≡ body_of (content_of answer.now)) }
{
    let value = match answer {
        Answer::Bag { bytes } | Answer::File { bytes } => {
            return Ok(Content::Octets(bytes.as_slice()));
        }
        Answer::List { deposits } => {
            return Ok(Content::Json(list_text(alloc, "deposits", deposits.as_slice())?));
        }
        Answer::Holds { holds } => {
            return Ok(Content::Json(list_text(alloc, "holds", holds.as_slice())?));
        }
        Answer::Class { name, years } => bodies::class(alloc, name.as_str(), *years),
        Answer::Collection { name } => bodies::collection(alloc, name.as_str()),
        Answer::Deposited { deposit } => bodies::deposit(alloc, *deposit),
        Answer::Record(record) => record_data(alloc, record),
        Answer::Audit { deposit, report } => bodies::audit(alloc, *deposit, report),
        Answer::HoldPlaced { hold } => bodies::hold(alloc, *hold),
        Answer::HoldReleased { hold, day } => bodies::release(alloc, *hold, *day),
        Answer::Destroyed { deposit, day } => bodies::disposal(alloc, *deposit, *day),
        Answer::DueList { day, deposits } => bodies::due_list(alloc, *day, deposits.as_slice()),
        Answer::Refused(refusal) => refusal_value(alloc, refusal),
    }?;
    Ok(Content::Json(text_of(alloc, value)?))
}

/// The bytes of the response that gives the office's answer: status line, fields, an empty line and
/// the body. The bytes of a bag or a file are copied once.
pub fn answer_bytes(alloc: Global, answer: &Answer) -> Result<Vec<u8>, AllocError>
    ensures { IfOk result (λ bytes. bytes.items ≡ answer_text answer.now) }
{
    let content = content_of(alloc, answer)?;
    content_bytes(alloc, status_of(answer), "", content)
}

/// The status of a refusal of the desk, and its name.
fn status_and_name(refusal: DeskRefusal) -> (Status, &'static str)
    ensures status { result.0 ≡ desk_status refusal }
    ensures name { result.1.now ≡ desk_name refusal }
{
    match refusal {
        DeskRefusal::TooLarge => (Status::ContentTooLarge, "TooLarge"),
        DeskRefusal::Truncated => (Status::BadRequest, "Truncated"),
        DeskRefusal::BadHead => (Status::BadRequest, "BadHead"),
        DeskRefusal::Chunked => (Status::BadRequest, "Chunked"),
        DeskRefusal::BadLength => (Status::BadRequest, "BadLength"),
        DeskRefusal::TwoCallers => (Status::BadRequest, "TwoCallers"),
        DeskRefusal::NoRoute => (Status::NotFound, "NoRoute"),
        DeskRefusal::Method(_) => (Status::MethodNotAllowed, "Method"),
        DeskRefusal::BadQuery => (Status::BadRequest, "BadQuery"),
        DeskRefusal::BadBody => (Status::BadRequest, "BadBody"),
    }
}

/// The bytes of the response that refuses a request before the office is asked. Where the method was
/// wrong, the field `Allow` names those that the target takes.
pub fn refusal_bytes(alloc: Global, refusal: &DeskRefusal) -> Result<Vec<u8>, AllocError>
    ensures { IfOk result (λ bytes. bytes.items ≡ refusal_text refusal.now) }
{
    let refusal = *refusal;
    let allow = allow_line(alloc, refusal)?;
    let (status, name) = status_and_name(refusal);
    let content = Content::Json(text_of(alloc, name_value(alloc, name)?)?);
    content_bytes(alloc, status, allow.as_str(), content)
}
