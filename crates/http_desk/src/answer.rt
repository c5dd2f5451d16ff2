//! Records of answers.

ghost use Rattle.std.specs.Prelude.{◌≡◌, IfOk};
ghost use Rattle.http_desk.specs.Records.{answer_record};

use std::alloc::{AllocError, Global};

/// The record of an answer: `ANS `, the number of the answer's bytes, a line feed, the bytes and a
/// line feed.
pub fn answer_record(alloc: Global, bytes: &[u8]) -> Result<Vec<u8>, AllocError>
    ensures { IfOk result (λ text. text.items ≡ answer_record bytes.now) }
{
    let count = bytes.len();
    let mut text = format!(in alloc; "ANS {count}\n")?.into_bytes();
    text.extend_from_slice(bytes)?;
    text.push(b'\n')?;
    Ok(text)
}
