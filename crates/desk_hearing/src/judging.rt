//! What a head announces.

ghost use Rattle.std.specs.Prelude.{◌≡◌, ◌≢◌, ◌≤◌, IfOk};
ghost use Rattle.desk_heads.specs.Bounds.{max_body};
ghost use Rattle.desk_hearing.specs.Steps.{AnswersFront};

use crate::fault::JudgingFault;
use crate::question::{Question, question_of};
use desk_heads::judge_head;
use desk_routes::{DeskRefusal, Routes, split_target};
use office_core::{Name, OwnedName};
use std::alloc::{AllocError, Global};

/// What a head announces: who asks what, but for the body, and how long the body is.
#[derive(Drop)]
pub(crate) struct Announced {
    pub(crate) caller: Option<OwnedName>,
    pub(crate) question: Question,
    pub(crate) body_length: usize,
}

fn own_optional(alloc: Global, name: &Option<Name<'_>>) -> Result<Option<OwnedName>, AllocError>
    ensures { IfOk result (λ owned. owned ≡ name.now) }
{
    match name {
        Some(name) => Ok(Some(name.to_owned(alloc)?)),
        None => Ok(None),
    }
}

/// What the front announces, which ends with the empty line after the fields of the head.
pub(crate) fn judge_front(
    alloc: Global,
    routes: &Routes,
    front: &[u8],
) -> Result<Announced, JudgingFault>
    ensures small { IfOk result (λ announced. announced.body_length ≤ max_body) }
    ensures uncut { result ≢ Err (JudgingFault.Refused DeskRefusal.Truncated) }
    ensures answered { AnswersFront front.now result }
{
    let head = judge_head(front)?;
    let (path, query) = split_target(head.target);
    let route = routes.route(head.method, path)?;
    let question = question_of(alloc, route, query.as_bytes())?;
    let caller = own_optional(alloc, &head.caller)?;
    Ok(Announced {
        caller,
        question,
        body_length: head.body_length,
    })
}
