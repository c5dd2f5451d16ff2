//! `check` and `explain`: what is said of a bag, and of a policy.

ghost use Rattle.std.specs.Prelude.{◌≡◌, IfErr, IfOk, codes, take};
ghost use Rattle.bag_folders.specs.Unpacking.{SomeFile};
ghost use Rattle.commands.specs.Checking.{SaysOfBytes, bytes_to_read};
ghost use Rattle.commands.specs.Explaining.{Explains};
ghost use Rattle.program.specs.Answering.{IsExplained, IsJudged, IsUnanswered};
ghost use Rattle.program.specs.Streams.{reader_seen};

use crate::stopped::Stopped;
use commands::{Asked, Outcome, Trouble, explain_policy, judge};
use desk_devices::Counted;
use std::fs;
use std::io::Read;
use std::rt::Files;

/// Opens a file, to be read.
fn open<F: Files>(rt: &F, file: &str) -> Result<F::File, Trouble> {
    Ok(fs::open(rt, file)?)
}

/// `check FILE`: judges the bag whose transfer form the file is, or the input where the file is `-`.
pub fn answer_check<F: Files + AllocGlobal, R: Read>(
    rt: &F,
    file: &str,
    input: &mut Counted<R>,
) -> Result<Outcome, Stopped>
    ensures judged { IfOk result (IsJudged file.now
        (reader_seen R.Read input.old) (reader_seen R.Read input.new)) }
    // Of a file that is named it is all that the file gives, up to the most that is judged.
    ensures file { (file.now ≡ codes "-" → ⊥) → IfOk result (λ outcome.
        SomeFile ⟦<F::File as Read>⟧ (λ given. SaysOfBytes (take bytes_to_read given) outcome)) }
    ensures stopped { IfErr result IsUnanswered }
    ensures left { (file.now ≡ codes "-" → ⊥) → input.new ≡ input.old }
{
    if file == "-" {
        return Ok(judge(rt.alloc(), input)?);
    }
    let mut form = open(rt, file)?;
    Ok(judge(rt.alloc(), &mut form)?)
}

/// `explain`: says which rule of the policy in the file decides.
pub fn answer_explain<F: Files + AllocGlobal>(rt: &F, asked: &Asked<'_>) -> Result<Outcome, Stopped>
    ensures explained { IfOk result (IsExplained asked.now) }
    // It is all that the file gives.
    ensures file { IfOk result (λ outcome.
        SomeFile ⟦<F::File as Read>⟧ (λ given. Explains given asked.now outcome)) }
    ensures stopped { IfErr result IsUnanswered }
{
    let mut policy = open(rt, asked.policy)?;
    Ok(explain_policy(rt.alloc(), asked, &mut policy)?)
}
