//! A run of the program, and what it is to come to.

use crate::tests::output::{Output, Taking, Told};
use crate::tests::texts::meant;
use commands::Ending;
use desk_devices::{Counted, FailAt, Portion};
use program::{Streams, run};
use sqlite::Unknown;
use std::alloc::Global;
use std::fs;
use std::test::Fail;

/// What a run is given beside its words.
#[derive(Clone, Copy)]
pub(crate) struct Given<'a> {
    pub(crate) input: &'a [u8],
    /// How many bytes the input gives, one a call, before it fails.
    pub(crate) gives: u64,
    /// What the peers send, with `#` between them.
    pub(crate) peers: &'a str,
    pub(crate) output: Taking,
    pub(crate) error: Taking,
}

impl<'a> Given<'a> {
    /// An input of these bytes, and streams of which nothing fails.
    pub(crate) fn new(input: &'a [u8]) -> Given<'a> {
        Given {
            input,
            gives: u64::MAX,
            peers: "",
            output: Taking::All,
            error: Taking::All,
        }
    }

    /// The input. A long one gives all its bytes at a call.
    fn input(&self) -> FailAt<&'a [u8]> {
        let portion = if self.input.len() > 65_536 {
            Portion::All
        } else {
            Portion::OneByte
        };
        FailAt::new(self.input, portion, self.gives)
    }
}

/// What a run comes to.
#[derive(Drop)]
pub(crate) struct Came {
    /// What is printed, and what each peer got, with `#` after it.
    pub(crate) said: Vec<u8>,
    /// What is printed to standard error.
    pub(crate) told: Vec<u8>,
    pub(crate) ending: Ending,
}

impl Came {
    /// How it ends, what is printed and what is printed to standard error, with `|` between these.
    fn text(&self, alloc: Global) -> Result<String, Fail> {
        let ending = self.ending;
        let said = String::from_utf8_lossy(alloc, &self.said)?;
        let told = String::from_utf8_lossy(alloc, &self.told)?;
        Ok(format!(in alloc; "{ending:?}|{said}|{told}")?)
    }
}

/// Runs the program on these words.
pub(crate) fn came_of(rt: &HostRuntime, words: &[&str], given: &Given<'_>) -> Result<Came, Fail> {
    let alloc = rt.alloc();
    let mut streams = Streams {
        input: Counted::new(given.input()),
        output: Counted::new(Output {
            rt,
            said: Vec::new(alloc),
            taking: given.output,
            peers: given.peers,
            streams: Vec::new(alloc),
        }),
        error: Counted::new(Told {
            said: Vec::new(alloc),
            taking: given.error,
        }),
    };
    let ending = run(rt, &mut Some(Unknown), words, &mut streams);
    let mut output = streams.output.into_device();
    output.hear()?;
    Ok(Came {
        said: output.said,
        told: streams.error.into_device().said,
        ending,
    })
}

/// Runs the program once, with this beside the input and the peers, which are the same text, and fails
/// where it comes to something else. The text of a run says its words, each with `,` after it or none
/// after the last, its input, how it ends, what is printed and what is printed to standard error, with `|`
/// between these. Where it ends at `..`, more may follow.
pub(crate) fn run_with(rt: &HostRuntime, text: &str, given: &Given<'_>) -> Result<(), Fail> {
    let text = meant(rt.alloc(), text)?;
    let (words, rest) = text.split_once('|').ok_or("no words")?;
    let (input, expected) = rest.split_once('|').ok_or("no input")?;
    let words: Vec<&str> = words.split_terminator(',').collect(rt.alloc())?;
    let given = Given {
        input: input.as_bytes(),
        peers: input,
        ..*given
    };
    let came = came_of(rt, words.as_slice(), &given)?.text(rt.alloc())?;
    let is_as = match expected.strip_suffix("..") {
        Some(beginning) => came.starts_with(beginning),
        None => came.as_str() == expected,
    };
    if is_as {
        return Ok(());
    }
    Err(Fail::new(came))
}

/// Runs the program once, where nothing fails.
pub(crate) fn run_one(rt: &HostRuntime, text: &str) -> Result<(), Fail> {
    run_with(rt, text, &Given::new(b""))
}

/// Runs these one after the other.
pub(crate) fn run_all(rt: &HostRuntime, texts: &[&str]) -> Result<(), Fail> {
    for text in texts {
        run_one(rt, text)?;
    }
    Ok(())
}

/// Makes the folder of a test, anew where an earlier run left one, with these files: their paths and
/// what they hold.
pub(crate) fn begin(rt: &HostRuntime, folder: &str, files: &[(&str, &str)]) -> Result<(), Fail> {
    let _ = fs::remove_dir_all(rt, folder);
    for (path, text) in files {
        if let Some((above, _)) = path.rsplit_once('/') {
            fs::create_dir_all(rt, above)?;
        }
        fs::write(rt, *path, meant(rt.alloc(), text)?.as_bytes())?;
    }
    Ok(())
}
