//! The cases of bags, and of what the program says of them.

use crate::groups::{run_calls, say};
use crate::lines;
use std::io;
use test_bags::{BAGS, DENIED_EVERYTHING};

/// Bags and a question of `explain` through the program, and the calls below it.
pub(crate) fn bags(rt: &HostRuntime) -> io::Result<()> {
    for worked in &BAGS {
        say(rt, worked.0, lines::judge(rt, *worked))?;
    }
    say(
        rt,
        "a denial explained",
        lines::explain(rt, DENIED_EVERYTHING),
    )?;
    run_calls(rt)
}
