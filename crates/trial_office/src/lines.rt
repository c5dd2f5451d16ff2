//! Cases of the program: what it prints and how it ends.

use crate::outcome::Outcome;
use commands::Ending;
use desk_devices::Counted;
use program::{Streams, run};
use sqlite::Unknown;
use std::alloc::AllocError;
use std::fs;
use test_bags::{WorkedBag, WorkedQuestion};

/// The file of the policy that is asked.
const ASKED: &str = "asked.toml";

/// What a run on these words and this standard input prints, what it says on standard error, and how it
/// ends, with room for the lines taken first.
pub(crate) fn run_words(
    rt: &HostRuntime,
    words: &[&str],
    input: &[u8],
) -> Result<(Vec<u8>, Vec<u8>, Ending), AllocError> {
    let mut streams = Streams {
        input: Counted::new(input),
        output: Counted::new(Vec::with_capacity(rt.alloc(), 4096)?),
        error: Counted::new(Vec::with_capacity(rt.alloc(), 4096)?),
    };
    let ending = run(rt, &mut Some(Unknown), words, &mut streams);
    let Streams { output, error, .. } = streams;
    Ok((output.into_device(), error.into_device(), ending))
}

/// The expected line with its reason and its ending; or memory ran out, with nothing on standard output:
/// the line `memory`, after which a second one may say what was tried.
fn outcome(
    found: Result<(Vec<u8>, Vec<u8>, Ending), AllocError>,
    line: &str,
    reason: &str,
    ending: Ending,
) -> Outcome {
    match found {
        Err(_) => Outcome::Memory,
        Ok((out, err, Ending::Failed)) => {
            Outcome::memory_if(out.is_empty() && err.starts_with(b"memory\n"))
        }
        Ok((out, err, found)) => Outcome::expected_if(
            out.as_slice() == line.as_bytes()
                && err.as_slice() == reason.as_bytes()
                && found == ending,
        ),
    }
}

/// Judges a bag from standard input.
pub(crate) fn judge(rt: &HostRuntime, worked: WorkedBag) -> Outcome {
    let (_, form, line, reason, ending) = worked;
    let found = run_words(rt, ["check", "-"].as_slice(), form);
    outcome(found, line, reason, ending)
}

/// Asks a policy file, written for this, which rule decides.
pub(crate) fn explain(rt: &HostRuntime, worked: WorkedQuestion) -> Outcome {
    if fs::write(rt, ASKED, worked.policy).is_err() {
        return Outcome::Memory;
    }
    let words = [
        "explain",
        ASKED,
        worked.caller,
        worked.action,
        worked.collection,
        worked.class,
    ];
    let found = run_words(rt, words.as_slice(), b"");
    let _ = fs::remove_file(rt, ASKED);
    outcome(found, worked.line, worked.reason, worked.ending)
}
