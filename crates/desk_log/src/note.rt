//! What is noted of a request that the office served.

ghost use Rattle.std.specs.Prelude.{◌≡◌};
ghost use Rattle.desk_log.specs.Notes.{kind_of, note_of, outcome_of};

use office_core::{Answer, Refusal, Request};

/// Whether a request asks for a change, or only reads.
#[derive(Clone, Copy)]
pub enum RequestKind {
    Change,
    Reading,
}

/// A failure that is answered.
#[derive(Clone, Copy)]
pub enum OfficeFailure {
    /// Memory ran out.
    Memory,
    /// The store failed.
    Store,
}

/// What came of a request.
#[derive(Clone, Copy)]
pub enum OfficeOutcome {
    /// Memory or the store failed.
    Failed(OfficeFailure),
    /// It was refused for another reason, which says nothing of memory or the store.
    Refused,
    /// It wasn't refused.
    Succeeded,
}

/// What is noted of a request that the office served.
#[derive(Clone, Copy)]
pub struct OfficeNote {
    pub kind: RequestKind,
    pub outcome: OfficeOutcome,
}

/// Whether the request asks for a change or only reads. One that isn't a reading listed here asks for a change.
fn kind_of(request: &Request<'_>) -> RequestKind
    ensures { result ≡ kind_of request.now }
{
    match request {
        Request::List { .. }
        | Request::Record { .. }
        | Request::Holds { .. }
        | Request::DownloadBag { .. }
        | Request::DownloadFile { .. }
        | Request::Audit { .. }
        | Request::DueList => RequestKind::Reading,
        _ => RequestKind::Change,
    }
}

/// What came of a request that was answered so.
fn outcome_of(answer: &Answer) -> OfficeOutcome
    ensures { result ≡ outcome_of answer.now }
{
    match answer {
        Answer::Refused(Refusal::Memory) => OfficeOutcome::Failed(OfficeFailure::Memory),
        Answer::Refused(Refusal::Store) => OfficeOutcome::Failed(OfficeFailure::Store),
        Answer::Refused(_) => OfficeOutcome::Refused,
        _ => OfficeOutcome::Succeeded,
    }
}

/// What is noted of a request that the office answered so.
pub fn note_of(request: &Request<'_>, answer: &Answer) -> OfficeNote
    ensures { result ≡ note_of request.now answer.now }
{
    OfficeNote {
        kind: kind_of(request),
        outcome: outcome_of(answer),
    }
}
