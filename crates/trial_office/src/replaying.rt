//! The records of standard input, replayed by the program in a new office.

use crate::lines::run_words;
use anyhow::{Result, bail};
use commands::Ending;
use std::io::{Read, Write};

/// Has the program replay the records of standard input under the policy in the file, in a new office in
/// memory.
pub(crate) fn replay(rt: &HostRuntime, policy: &str) -> Result<()> {
    let mut records = Vec::new(rt.alloc());
    rt.stdin().read_to_end(&mut records)?;
    let words = ["replay", "--policy", policy, ":memory:"];
    let (answers, told, ending) = run_words(rt, words.as_slice(), records.as_slice())?;
    rt.stdout().write_all(answers.as_slice())?;
    rt.stderr().write_all(told.as_slice())?;
    match ending {
        Ending::Accepted => Ok(()),
        _ => bail!("the replay doesn't come to its end"),
    }
}
