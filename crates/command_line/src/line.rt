//! What a command line asks for.

use commands::Asked;
use office_core::Day;

/// What a command line asks for.
#[derive(Drop)]
pub enum Line<'a> {
    /// Judge the bag in this file; `-` is standard input.
    Check {
        file: &'a str,
    },
    /// Write the transfer form of the folder's files to the file.
    Pack {
        folder: &'a str,
        file: &'a str,
    },
    /// Make the folder, with the files of the form in the file.
    Unpack {
        file: &'a str,
        folder: &'a str,
    },
    /// Say which rule of a policy decides.
    Explain(Asked<'a>),
    /// Install the policy in the store.
    Policy {
        store: &'a str,
        policy: &'a str,
    },
    /// Answer one request on that day.
    Ask {
        store: &'a str,
        day: Day,
    },
    /// Answer the records of the input, once the policy is installed, where there is one.
    Replay {
        policy: Option<&'a str>,
        store: &'a str,
    },
    /// Serve the number of connections to the port on that day.
    Serve {
        port: u16,
        count: u32,
        store: &'a str,
        day: Day,
    },
}
