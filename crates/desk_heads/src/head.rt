//! What a head says.

ghost use Rattle.std.specs.Prelude.{◌≡◌, ◌≤◌, length, None, Some, IfOk, IfSome, IsUtf8, MatchOption, MatchResult};
ghost use Rattle.httparse.specs.Grammar.{RequestHead};
ghost use Rattle.httparse.specs.Spans.{IsRequestAt, IsRequestWithin};
ghost use Rattle.desk_heads.specs.Bounds.{max_body};
ghost use Rattle.desk_heads.specs.Heads.{SpellsHead, IsHead, Judges, caller_refusal, caller_of, encoding_refusal};
ghost use Rattle.desk_heads.specs.View.{judgement_seen, occurrence_seen};

use crate::field::{Field, find_field};
use crate::length::body_length;
use crate::refusal::HeadRefusal;
use httparse::Status;
use httparse::spans::{EMPTY_HEADER_SPAN, HeaderSpan, RequestSpans, parse_request};
use office_core::Name;

/// How many fields a head has at most.
const MAX_FIELDS: usize = 64;

/// What a head says of its request.
#[derive(Debug, Drop)]
pub struct Head<'a> {
    /// The word of the request line, undecoded.
    pub method: &'a str,
    /// The target of the request line, undecoded.
    pub target: &'a str,
    /// The name in `Depot-Caller`, if the head has one and it is a name.
    pub caller: Option<Name<'a>>,
    /// How many bytes follow the head.
    pub body_length: usize,
}

/// Where the parts of a front are that is a head, whole.
fn parse_front(front: &[u8], headers: &mut [HeaderSpan; MAX_FIELDS]) -> Option<RequestSpans>
    ensures head { MatchOption result (IsHead front.now → ⊥) (λ spans.
        (head : RequestHead) × SpellsHead front.now head
        × IsRequestAt front.now headers.new spans head) }
    ensures within { IfSome result (λ spans.
        IsRequestWithin front.now headers.new spans × (spans.len ≡ length front.now)) }
{
    match parse_request(front, headers) {
        Ok(Status::Complete(spans)) if spans.len == front.len() => Some(spans),
        _ => None,
    }
}

/// The text that the bytes are.
fn text_of(bytes: &[u8]) -> &str
    requires { IsUtf8 bytes.now }
    ensures { result.now ≡ bytes.now }
{
    str::from_utf8(bytes).unwrap()
}

/// The desk takes no body in chunks.
fn refuse_chunks(encoding: Field<'_>) -> Result<(), HeadRefusal>
    ensures { MatchResult result (λ _. encoding_refusal (occurrence_seen encoding.entry) ≡ None)
        (λ refusal. encoding_refusal (occurrence_seen encoding.entry) ≡ Some refusal) }
{
    match encoding {
        Field::Absent => Ok(()),
        Field::Once(_) | Field::Repeated => Err(HeadRefusal::Chunked),
    }
}

/// The name that the bytes are, where they are one.
fn name_of(bytes: &[u8]) -> Option<Name<'_>>
    ensures { result ≡ caller_of (occurrence_seen (Field.Once bytes.entry)) }
{
    match str::from_utf8(bytes) {
        Ok(text) => Name::read(text),
        Err(_) => None,
    }
}

/// Who asks.
fn caller_of(field: Field<'_>) -> Result<Option<Name<'_>>, HeadRefusal>
    ensures { MatchResult result
        (λ caller.
        (caller_refusal (occurrence_seen field.entry) ≡ None)
        × (caller ≡ caller_of (occurrence_seen field.entry)))
        (λ refusal. caller_refusal (occurrence_seen field.entry) ≡ Some refusal) }
{
    match field {
        Field::Absent => Ok(None),
        Field::Once(text) => Ok(name_of(text)),
        Field::Repeated => Err(HeadRefusal::TwoCallers),
    }
}

/// What the front says, which ends with the empty line after the fields, or the first reason to
/// refuse it.
pub fn judge_head(front: &[u8]) -> Result<Head<'_>, HeadRefusal>
    ensures small { IfOk result (λ head. head.body_length ≤ max_body) }
    ensures judged { Judges front.now (judgement_seen result) }
{
    let mut headers = [EMPTY_HEADER_SPAN; MAX_FIELDS];
    let Some(spans) = parse_front(front, &mut headers) else {
        return Err(HeadRefusal::BadHead);
    };
    let headers = &headers[..spans.headers];
    refuse_chunks(find_field(front, headers, b"transfer-encoding"))?;
    let body_length = body_length(find_field(front, headers, b"content-length"))?;
    let caller = caller_of(find_field(front, headers, b"depot-caller"))?;
    Ok(Head {
        method: text_of(spans.method.of(front)),
        target: text_of(spans.path.of(front)),
        caller,
        body_length,
    })
}
