//! The groups of cases: each prints how its cases came out.

use crate::outcome::Outcome;
use crate::{calls, offices, tables};
use sqlite::{Connection, MemStore};
use std::io;
use test_sessions::{AnyOffice, POLICY};

/// Prints how a case came out.
pub(crate) fn say(rt: &HostRuntime, name: &str, outcome: Outcome) -> io::Result<()> {
    println!(rt; "{name}: {}", outcome.words())
}

/// The words of a command line, and the calls below the program.
pub(crate) fn run_calls(rt: &HostRuntime) -> io::Result<()> {
    say(rt, "words of check", calls::read_check(rt.alloc()))?;
    say(rt, "words of explain", calls::read_explain(rt.alloc()))?;
    say(rt, "invalid arguments", calls::refuse_words(rt.alloc()))?;
    say(rt, "a form read", calls::read_form(rt.alloc()))?;
    say(rt, "a form judged", calls::judge_form(rt.alloc()))?;
    say(rt, "a manifest read", calls::read_listing(rt.alloc()))?;
    say(rt, "pairs read", calls::read_pairs(rt.alloc()))?;
    say(rt, "a form written", calls::write_form(rt.alloc()))
}

/// A session over the tables. Where memory ran out before there was a database, the second has to be.
pub(crate) fn run_tables(rt: &HostRuntime) -> io::Result<()> {
    match Connection::open_in_memory(rt.alloc()) {
        Ok(mut conn) => session(rt, &mut conn),
        Err(_) => {
            say(rt, "a database", Outcome::Memory)?;
            match Connection::open_in_memory(rt.alloc()) {
                Ok(mut conn) => session(rt, &mut conn),
                Err(_) => say(rt, "a database", Outcome::Wrong),
            }
        }
    }
}

fn session(rt: &HostRuntime, conn: &mut Connection<MemStore>) -> io::Result<()> {
    for (name, step) in &tables::SESSION {
        say(rt, name, tables::come_out(rt.alloc(), conn, *step))?;
    }
    Ok(())
}

/// A session with the plain office.
pub(crate) fn run_plain_office(rt: &HostRuntime) -> io::Result<()> {
    let Some(mut office) = offices::plain(rt.alloc()) else {
        return say(rt, "an office", Outcome::Wrong);
    };
    ask_session(rt, &mut office)?;
    ask_end(rt, &mut office)
}

/// The same session with the office over tables in memory.
pub(crate) fn run_office(rt: &HostRuntime) -> io::Result<()> {
    let Some((outcome, mut office)) = offices::over_tables(rt.alloc()) else {
        return say(rt, "an office over tables", Outcome::Wrong);
    };
    say(rt, "an office over tables", outcome)?;
    ask_session(rt, &mut office)?;
    let Some((outcome, mut office)) = offices::adopt_again(office) else {
        return say(rt, "the office again", Outcome::Wrong);
    };
    say(rt, "the office again", outcome)?;
    say(
        rt,
        "numbers that are due",
        offices::due(rt.alloc(), &mut office),
    )?;
    ask_end(rt, &mut office)
}

fn ask_session<O: AnyOffice>(rt: &HostRuntime, office: &mut O) -> io::Result<()> {
    say(
        rt,
        "a policy installed",
        offices::install_policy(rt.alloc(), office, POLICY),
    )?;
    for (name, day, part) in &offices::SESSION {
        say(rt, name, offices::come_out(rt.alloc(), office, day, *part))?;
    }
    say(
        rt,
        "three requests in a run",
        offices::together(rt.alloc(), office),
    )
}

/// The end of the session, with the stock before and after it.
fn ask_end<O: AnyOffice>(rt: &HostRuntime, office: &mut O) -> io::Result<()> {
    let outcome = offices::count(rt.alloc(), office, offices::KEPT);
    say(rt, "contents counted", outcome)?;
    say(
        rt,
        "a policy with days installed",
        offices::install_policy(rt.alloc(), office, offices::DATED_POLICY),
    )?;
    for (name, day, part) in &offices::END {
        say(rt, name, offices::come_out(rt.alloc(), office, day, *part))?;
    }
    let outcome = offices::count(rt.alloc(), office, offices::NOTHING);
    say(rt, "no contents counted", outcome)
}
