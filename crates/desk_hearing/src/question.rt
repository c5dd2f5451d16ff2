//! What a route asks with its query and its body.

ghost use Rattle.std.specs.Prelude.{◌≡◌, ◌↔◌, Err, IfErr, IsOk};
ghost use Rattle.desk_hearing.specs.Steps.{AllowsQuery, AnswersQuery, AnswersBody, IsRefusedQuery, IsRefusedBody};

use crate::fault::JudgingFault;
use crate::owned_request::OwnedRequest;
use desk_forms::{
    HoldBody, QueryFault, check_no_body, check_no_query, decode_path, read_deposit_query,
    read_hold, read_listing, read_years,
};
use desk_routes::{DeskRefusal, Route};
use office_core::{OwnedDescription, OwnedName};
use std::alloc::Global;

/// What is asked, as far as the route and its query say it.
#[derive(Drop)]
pub(crate) enum Question {
    /// A class, whose years are in the body.
    Class(OwnedName),
    /// A deposit, whose bag is the body.
    Deposit(OwnedDescription),
    /// A hold, which the body says.
    Hold,
    /// All that is asked: there is no body.
    Whole(OwnedRequest),
}

/// Refuses a pair on a route without keys.
fn check_keys(route: &Route<'_>, query: &[u8]) -> Result<(), QueryFault>
    ensures taken { IsOk result ↔ AllowsQuery route.now query.now }
    ensures fault { IfErr result (λ fault. fault ≡ QueryFault.BadQuery) }
{
    match route {
        Route::Deposit | Route::List => Ok(()),
        _ => check_no_query(query),
    }
}

/// What the route asks with this query. A pair on a route without keys is refused before anything is
/// allocated.
pub(crate) fn question_of(
    alloc: Global,
    route: Route<'_>,
    query: &[u8],
) -> Result<Question, JudgingFault>
    ensures asked { AnswersQuery route.entry query.now result }
    ensures unread { IsRefusedQuery route.entry query.now
        → result ≡ Err (JudgingFault.Refused DeskRefusal.BadQuery) }
{
    check_keys(&route, query)?;
    match route {
        Route::DefineClass(name) => Ok(Question::Class(name.to_owned(alloc)?)),
        Route::DefineCollection(name) => {
            let name = name.to_owned(alloc)?;
            Ok(Question::Whole(OwnedRequest::DefineCollection { name }))
        }
        Route::Deposit => Ok(Question::Deposit(read_deposit_query(alloc, query)?)),
        Route::List => {
            let listing = read_listing(alloc, query)?;
            Ok(Question::Whole(OwnedRequest::List {
                collection: listing.collection,
                class: listing.class,
            }))
        }
        Route::Record(deposit) => Ok(Question::Whole(OwnedRequest::Record { deposit })),
        Route::Dispose(deposit) => Ok(Question::Whole(OwnedRequest::Dispose { deposit })),
        Route::Holds(deposit) => Ok(Question::Whole(OwnedRequest::Holds { deposit })),
        Route::DownloadBag(deposit) => Ok(Question::Whole(OwnedRequest::DownloadBag { deposit })),
        Route::DownloadFile { deposit, path } => {
            let path = decode_path(alloc, path.as_str())?;
            Ok(Question::Whole(OwnedRequest::DownloadFile { deposit, path }))
        }
        Route::Audit(deposit) => Ok(Question::Whole(OwnedRequest::Audit { deposit })),
        Route::PlaceHold => Ok(Question::Hold),
        Route::Release(hold) => Ok(Question::Whole(OwnedRequest::Release { hold })),
        Route::DueList => Ok(Question::Whole(OwnedRequest::DueList)),
    }
}

/// What the body says of a hold.
fn hold_of(alloc: Global, body: &[u8]) -> Result<OwnedRequest, JudgingFault>
    ensures asked { AnswersBody Question.Hold body.now result }
    ensures unread { IsRefusedBody Question.Hold body.now
        → result ≡ Err (JudgingFault.Refused DeskRefusal.BadBody) }
{
    match read_hold(alloc, body)? {
        HoldBody::Deposit { deposit, matter } => Ok(OwnedRequest::HoldDeposit { deposit, matter }),
        HoldBody::Collection { collection, matter } => Ok(OwnedRequest::HoldCollection {
            collection,
            matter,
        }),
        HoldBody::Class { class, matter } => Ok(OwnedRequest::HoldClass { class, matter }),
    }
}

/// What the question asks with this body. A body that is no text where JSON is asked for, or is there
/// where none is, is refused before anything is allocated.
pub(crate) fn ask_of(
    alloc: Global,
    question: Question,
    body: &[u8],
) -> Result<OwnedRequest, JudgingFault>
    ensures asked { AnswersBody question body.now result }
    ensures unread { IsRefusedBody question body.now
        → result ≡ Err (JudgingFault.Refused DeskRefusal.BadBody) }
{
    match question {
        Question::Class(name) => Ok(OwnedRequest::DefineClass {
            name,
            years: read_years(alloc, body)?,
        }),
        Question::Deposit(description) => Ok(OwnedRequest::Deposit { description }),
        Question::Hold => hold_of(alloc, body),
        Question::Whole(ask) => {
            check_no_body(body)?;
            Ok(ask)
        }
    }
}
