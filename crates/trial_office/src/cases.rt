//! Lack of memory: each case gives the expected answer or runs out of memory, and nothing else.
//!
//! Standard input may name one group of cases, whose allocations `trials/memory.py` has refused, one after the
//! other.

use crate::bags::bags;
use crate::groups::{run_office, run_plain_office, run_tables};
use std::io::{self, Read};

/// A group of cases.
#[derive(Clone, Copy, PartialEq, Eq)]
enum Group {
    Bags,
    Tables,
    Office,
    Stored,
}

/// All groups, in the order in which they are run.
static GROUPS: [Group; 4] = [Group::Bags, Group::Tables, Group::Office, Group::Stored];

impl Group {
    fn read(word: &str) -> Option<Group> {
        match word {
            "bags" => Some(Group::Bags),
            "tables" => Some(Group::Tables),
            "office" => Some(Group::Office),
            "stored" => Some(Group::Stored),
            _ => None,
        }
    }

    /// Prints how each case of the group comes out.
    fn run(self, rt: &HostRuntime) -> io::Result<()> {
        match self {
            Group::Bags => bags(rt),
            Group::Tables => run_tables(rt),
            Group::Office => run_plain_office(rt),
            Group::Stored => run_office(rt),
        }
    }
}

/// The one group that is asked for, if one is.
fn said_group(said: &[u8]) -> Option<Group> {
    Group::read(str::from_utf8(said).unwrap_or("").trim())
}

/// Prints how each case of the one group that standard input names comes out, or of all where it names none.
/// Whether all were wanted.
pub(crate) fn answer(rt: &HostRuntime) -> io::Result<bool> {
    let mut room = [0_u8; 16];
    let length = rt.stdin().read(&mut room)?;
    let only = said_group(room.get(..length).unwrap_or(&[]));
    answer_group(rt, only)?;
    Ok(only.is_none())
}

/// Prints how each case comes out.
pub(crate) fn answer_all(rt: &HostRuntime) -> io::Result<()> {
    answer_group(rt, None)
}

/// Prints how each case of the group comes out, or of all groups where there is none.
fn answer_group(rt: &HostRuntime, only: Option<Group>) -> io::Result<()> {
    for group in &GROUPS {
        if only.is_none() || only == Some(*group) {
            group.run(rt)?;
        }
    }
    Ok(())
}
