//! Judges, packs and unpacks BagIt bags (RFC 8493), says which rule of a policy decides, and keeps an
//! office of such bags in a file: from the command line.
#![tactic(auto)]

use commands::Ending;
use desk_devices::Counted;
use program::{Streams, refuse_words, run};
use sqlite::Unknown;
use std::io;
use std::process::ExitCode;

/// The words after the program's name.
fn given_words(rt: &HostRuntime) -> io::Result<Vec<String>> {
    let words = std::env::args(rt)?.skip(1).collect(rt.alloc())?;
    Ok(words)
}

/// Runs the program on the process's words and standard streams.
fn run_on_process(rt: &HostRuntime) -> io::Result<Ending> {
    let words = given_words(rt)?;
    let mut texts = Vec::new(rt.alloc());
    for word in words.iter() {
        texts.push(word.as_str())?;
    }
    let mut streams = Streams {
        input: Counted::new(rt.stdin()),
        output: Counted::new(rt.stdout()),
        error: Counted::new(rt.stderr()),
    };
    Ok(run(rt, &mut Some(Unknown), texts.as_slice(), &mut streams))
}

fn main(rt: HostRuntime) -> ExitCode {
    let ending = match run_on_process(&rt) {
        Ok(ending) => ending,
        Err(error) => refuse_words(&error, &mut rt.stderr()),
    };
    ExitCode::from(ending.status())
}
