//! Standard input, heard as a request, or only read: a deposit's body beside the same bytes.

use anyhow::{Context, Result, bail};
use desk_devices::Counted;
use desk_hearing::read_request;
use office_core::Request;
use std::fs;
use std::io::Read;
use std::time::Instant;

/// What is done with standard input.
#[derive(Clone, Copy)]
pub(crate) enum Input {
    /// A request is heard.
    Heard,
    /// All of it is read.
    Whole,
}

/// Hears a request: how many bytes its bag has, where it deposits one.
fn hear(rt: &HostRuntime) -> Result<usize> {
    let mut reader = Counted::new(rt.stdin());
    let Ok(heard) = read_request(rt.alloc(), &mut reader) else {
        bail!("no request is heard");
    };
    match heard.request() {
        Request::Deposit { bag, .. } => Ok(bag.len()),
        _ => Ok(0),
    }
}

/// Reads all of standard input: how many bytes it has.
fn read_all(rt: &HostRuntime) -> Result<usize> {
    let mut bytes = Vec::new(rt.alloc());
    rt.stdin()
        .read_to_end(&mut bytes)
        .context("reading standard input")
}

/// The most memory that the program has taken, in KiB, as the system tells it.
fn peak(rt: &HostRuntime) -> Result<u64> {
    let text = fs::read_to_string(rt, "/proc/self/status").context("reading the status")?;
    for line in text.lines() {
        if let Some(rest) = line.strip_prefix("VmHWM:") {
            return rest
                .trim()
                .trim_end_matches(" kB")
                .parse::<u64>()
                .context(format_args!("reading {rest}"));
        }
    }
    bail!("the status has no VmHWM")
}

impl Input {
    /// What a word asks for.
    pub(crate) fn read(word: &str) -> Option<Input> {
        match word {
            "hear" => Some(Input::Heard),
            "read-all" => Some(Input::Whole),
            _ => None,
        }
    }

    /// Takes standard input, and prints how many bytes were heard or read, the microseconds, and the
    /// most memory that the program has taken, in KiB.
    pub(crate) fn measure(self, rt: &HostRuntime) -> Result<()> {
        let start = Instant::now(rt)?;
        let length = match self {
            Input::Heard => hear(rt)?,
            Input::Whole => read_all(rt)?,
        };
        let took = start.elapsed(rt)?.as_micros();
        println!(rt; "{length} {took} {}", peak(rt)?)?;
        Ok(())
    }
}
