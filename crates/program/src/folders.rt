//! `pack` and `unpack`: what is said of them.

ghost use Rattle.std.specs.Prelude.{◌≡◌, IfErr, IfOk, if◌then◌else◌};
ghost use Rattle.commands.specs.declared.ending.Ending.TheVariants.{Accepted, Refused};
ghost use Rattle.program.specs.Answering.{IsOutcomeOf, IsPackSaid, IsUnanswered, IsUnpackSaid};

use crate::stopped::Stopped;
use bag_folders::{Said, pack, pack_said, unpack, unpack_said};
use commands::{Ending, Outcome};
use std::rt::Files;

/// How the program is to end, by whether the work was done.
fn ending_by(is_done: bool) -> Ending
    ensures { result ≡ (if is_done then Accepted else Refused) }
{
    if is_done {
        Ending::Accepted
    } else {
        Ending::Refused
    }
}

/// What is to be printed to standard output and to standard error of what was said.
fn outcome_of(said: Said) -> Outcome
    ensures { IsOutcomeOf said result }
{
    let Said {
        text,
        reason,
        is_done,
    } = said;
    Outcome {
        text,
        reason,
        ending: ending_by(is_done),
    }
}

/// `pack DIR FILE`: the folder's files become a transfer form in the file.
pub fn pack_folder<F: Files + AllocGlobal>(
    rt: &F,
    folder: &str,
    file: &str,
) -> Result<Outcome, Stopped>
    ensures said { IfOk result IsPackSaid }
    ensures stopped { IfErr result IsUnanswered }
{
    match pack_said(rt.alloc(), pack(rt, folder, file)) {
        Ok(said) => Ok(outcome_of(said)),
        Err(failed) => Err(Stopped::Folder(failed)),
    }
}

/// `unpack FILE DIR`: the files of the transfer form become a folder.
pub fn unpack_form<F: Files + AllocGlobal>(
    rt: &F,
    file: &str,
    folder: &str,
) -> Result<Outcome, Stopped>
    ensures said { IfOk result IsUnpackSaid }
    ensures stopped { IfErr result IsUnanswered }
{
    match unpack_said(rt.alloc(), unpack(rt, file, folder)) {
        Ok(said) => Ok(outcome_of(said)),
        Err(failed) => Err(Stopped::Folder(failed)),
    }
}
