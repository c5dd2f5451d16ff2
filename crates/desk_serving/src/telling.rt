//! What becomes of an answer of the office: bytes for who asked, and a note for the log.

ghost use Rattle.std.specs.Prelude.{◌≡◌, IfOk};
ghost use Rattle.desk_answers.specs.Answers.{answer_text};
ghost use Rattle.desk_log.specs.Notes.{note_of};

use desk_answers::answer_bytes;
use desk_log::{OfficeNote, note_of};
use office_core::{Answer, Request};
use std::alloc::{AllocError, Global};

/// The bytes of the answer to a request, and what is noted of it. It lets go of the answer.
pub(crate) fn bytes_and_note(
    alloc: Global,
    request: &Request<'_>,
    answer: Answer,
) -> (Result<Vec<u8>, AllocError>, OfficeNote)
    ensures bytes { IfOk result.0 (λ bytes. bytes.items ≡ answer_text answer) }
    ensures note { result.1 ≡ note_of request.now answer }
{
    let note = note_of(request, &answer);
    (answer_bytes(alloc, &answer), note)
}
