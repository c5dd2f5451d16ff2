//! What a response carries.

ghost use Rattle.std.specs.Prelude.{◌≡◌, IfOk};
ghost use Rattle.desk_answers.specs.Responses.{carrying_text};

use crate::head::{MediaType, response, response_around};
use crate::status::Status;
use std::alloc::{AllocError, Global};

/// What a response carries: a text in JSON, or bytes as they are.
#[derive(Drop)]
pub enum Content<'a> {
    Json(Vec<u8>),
    Octets(&'a [u8]),
}

/// The bytes of a response. `allow` is the line of that field, or nothing.
pub(crate) fn content_bytes(
    alloc: Global,
    status: Status,
    allow: &str,
    content: Content<'_>,
) -> Result<Vec<u8>, AllocError>
    ensures { IfOk result (λ bytes.
        bytes.items ≡ carrying_text status allow.now content.entry) }
{
    match content {
        Content::Json(text) => response_around(alloc, status, MediaType::Json, allow, text),
        Content::Octets(bytes) => response(alloc, status, MediaType::OctetStream, allow, bytes),
    }
}
