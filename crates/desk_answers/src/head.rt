//! The head of a response, and the response whole.

ghost use Rattle.std.specs.Prelude.{◌≡◌, ◌++◌, IfOk, string_bytes, length};
ghost use Rattle.desk_answers.specs.Responses.{media_text, head_text};

use crate::status::Status;
use std::alloc::{AllocError, Global};

/// What a body is.
#[derive(Clone, Copy)]
pub enum MediaType {
    Json,
    OctetStream,
}

impl MediaType {
    fn as_str(self) -> &'static str
        ensures { result.now ≡ media_text self }
    {
        match self {
            MediaType::Json => "application/json",
            MediaType::OctetStream => "application/octet-stream",
        }
    }
}

/// What comes before a body of `len` bytes. `allow` is a whole line, or nothing.
fn head(
    alloc: Global,
    status: Status,
    kind: MediaType,
    len: usize,
    allow: &str,
) -> Result<String, AllocError>
    ensures { IfOk result (λ head. string_bytes head ≡ head_text status kind len allow.now) }
{
    let kind = kind.as_str();
    format!(in alloc;
        "HTTP/1.1 {status}\r\nContent-Type: {kind}\r\nContent-Length: {len}\r\n{allow}Connection: close\r\n\r\n"
    )
}

/// The bytes of a response whose body is lent. The body is copied once.
pub(crate) fn response(
    alloc: Global,
    status: Status,
    kind: MediaType,
    allow: &str,
    body: &[u8],
) -> Result<Vec<u8>, AllocError>
    ensures { IfOk result (λ bytes. bytes.items
        ≡ head_text status kind (length body.now) allow.now ++ body.now) }
{
    let mut bytes = head(alloc, status, kind, body.len(), allow)?.into_bytes();
    bytes.extend_from_slice(body)?;
    Ok(bytes)
}

/// The bytes of a response. The body is moved up where it is, and the head put before it.
pub(crate) fn response_around(
    alloc: Global,
    status: Status,
    kind: MediaType,
    allow: &str,
    body: Vec<u8>,
) -> Result<Vec<u8>, AllocError>
    ensures { IfOk result (λ bytes. bytes.items
        ≡ head_text status kind (length body.items) allow.now ++ body.items) }
{
    let len = body.len();
    let head = head(alloc, status, kind, len, allow)?;
    let mut bytes = body;
    bytes.extend_from_slice(head.as_bytes())?;
    bytes.rotate_left(len);
    Ok(bytes)
}
