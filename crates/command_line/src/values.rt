//! The line that the values of a subcommand's words make.

ghost use Rattle.std.specs.Prelude.{◌≡◌, ◌⊎◌, ℕ, IfErr, IfOk, List, MatchOption, Option, codes};
ghost use Rattle.clap.specs.Words.{first_value, found_of};
ghost use Rattle.jiff.specs.Types.{Date};
ghost use Rattle.command_line.specs.CommandBuilding.{HasNeeded, IsLineOf, MakesNoLine};
ghost use Rattle.command_line.specs.Lines.{FindsDay, IsNameOrNone};
ghost use Rattle.command_line.specs.declared.subcommand.Subcommand.TheVariants.{Ask, Check, Explain, Pack, Policy, Replay, Serve, Unpack};
ghost use Rattle.command_line.specs.declared.use_fault.UseFault.TheVariants.{Memory};

use crate::line::Line;
use crate::number::{MAX_COUNT, MAX_PORT, read_count, read_port};
use crate::subcommand::Subcommand;
use crate::use_fault::{UseFault, fault_of_use};
use crate::words::word_at;
use clap::ArgMatches;
use commands::Asked;
use office_core::{Action, Day, MAX_NAME, Name};
use std::alloc::{AllocError, Global};

const ACTION: &str =
    "ACTION is one of class, collection, deposit, list, record, holds, download, audit, hold, release, dispose\n";

/// `check FILE`.
fn check_line<'a>(matches: &ArgMatches<'a>) -> Line<'a>
    requires { HasNeeded Check matches.now }
    ensures { IsLineOf Check matches.now result }
{
    Line::Check {
        file: word_at(matches, "FILE"),
    }
}

/// `pack DIR FILE`.
fn pack_line<'a>(matches: &ArgMatches<'a>) -> Line<'a>
    requires { HasNeeded Pack matches.now }
    ensures { IsLineOf Pack matches.now result }
{
    Line::Pack {
        folder: word_at(matches, "DIR"),
        file: word_at(matches, "FILE"),
    }
}

/// `unpack FILE DIR`.
fn unpack_line<'a>(matches: &ArgMatches<'a>) -> Line<'a>
    requires { HasNeeded Unpack matches.now }
    ensures { IsLineOf Unpack matches.now result }
{
    Line::Unpack {
        file: word_at(matches, "FILE"),
        folder: word_at(matches, "DIR"),
    }
}

/// The name that the text is, or none where the text is `-`; nothing where it is neither.
fn name_or_none<'a>(text: &'a str) -> Option<Option<Name<'a>>>
    ensures { MatchOption result ((name : Option (List ℕ))
        → IsNameOrNone text.entry.now name → ⊥)
        (IsNameOrNone text.entry.now) }
{
    if text == "-" {
        return Some(None);
    }
    match Name::read(text) {
        Some(name) => Some(Some(name)),
        None => None,
    }
}

/// The fault of use that this text explains, unless memory ran out for it.
fn explained(why: Result<String, AllocError>) -> UseFault {
    match why {
        Ok(why) => UseFault::Use(why),
        Err(_) => UseFault::Memory,
    }
}

/// The fault of a word that is neither a name nor `-`, where `-` means no name.
fn no_name_fault(alloc: Global, word: &str) -> UseFault {
    let most = MAX_NAME;
    explained(format!(in alloc;
        "{word} is a name (1 to {most} characters of a to z, 0 to 9, -, _ and .), or - for none\n"
    ))
}

/// The fault of a word that is no day.
fn no_day_fault(alloc: Global) -> UseFault {
    let first = Day::first();
    let last = Day::last();
    explained(format!(in alloc; "DAY is a date such as 2024-03-01, from {first} to {last}\n"))
}

/// The fault of a word that is no port.
fn no_port_fault(alloc: Global) -> UseFault {
    let last = MAX_PORT;
    explained(format!(in alloc; "P is the number of a port, 0 to {last}\n"))
}

/// The fault of a word that is no number of connections.
fn no_count_fault(alloc: Global) -> UseFault {
    let most = MAX_COUNT;
    explained(format!(in alloc; "N is a number of connections, 1 to {most}\n"))
}

/// The day that is given as `DAY`, or none where none is given; nothing where the text given is no day.
fn day_or_none(matches: &ArgMatches<'_>) -> Option<Option<Day>>
    ensures { let finds = FindsDay (first_value (found_of matches.now)) (codes "DAY") in
        MatchOption result ((day : Option Date) → finds day → ⊥) finds }
{
    let Some(text) = matches.get_str("DAY") else {
        return Some(None);
    };
    match Day::read(text) {
        Some(day) => Some(Some(day)),
        None => None,
    }
}

/// `explain [--day DAY] POLICY CALLER ACTION COLLECTION CLASS`.
fn explain_line<'a>(alloc: Global, matches: &ArgMatches<'a>) -> Result<Line<'a>, UseFault>
    requires { HasNeeded Explain matches.now }
    ensures line { IfOk result (IsLineOf Explain matches.now) }
    ensures refused { IfErr result (λ fault.
        (fault ≡ Memory) ⊎ MakesNoLine Explain matches.now) }
{
    let Some(day) = day_or_none(matches) else {
        return Err(no_day_fault(alloc));
    };
    let Some(action) = Action::read(word_at(matches, "ACTION")) else {
        return Err(fault_of_use(alloc, ACTION));
    };
    let Some(collection) = name_or_none(word_at(matches, "COLLECTION")) else {
        return Err(no_name_fault(alloc, "COLLECTION"));
    };
    let Some(class) = name_or_none(word_at(matches, "CLASS")) else {
        return Err(no_name_fault(alloc, "CLASS"));
    };
    Ok(Line::Explain(Asked {
        policy: word_at(matches, "POLICY"),
        caller: word_at(matches, "CALLER"),
        action,
        collection,
        class,
        day,
    }))
}

/// `policy STORE POLICY`.
fn policy_line<'a>(matches: &ArgMatches<'a>) -> Line<'a>
    requires { HasNeeded Policy matches.now }
    ensures { IsLineOf Policy matches.now result }
{
    Line::Policy {
        store: word_at(matches, "STORE"),
        policy: word_at(matches, "POLICY"),
    }
}

/// `ask STORE DAY`.
fn ask_line<'a>(alloc: Global, matches: &ArgMatches<'a>) -> Result<Line<'a>, UseFault>
    requires { HasNeeded Ask matches.now }
    ensures line { IfOk result (IsLineOf Ask matches.now) }
    ensures refused { IfErr result (λ fault. (fault ≡ Memory) ⊎ MakesNoLine Ask matches.now) }
{
    let Some(day) = Day::read(word_at(matches, "DAY")) else {
        return Err(no_day_fault(alloc));
    };
    Ok(Line::Ask {
        store: word_at(matches, "STORE"),
        day,
    })
}

/// `replay [--policy POLICY] STORE`.
fn replay_line<'a>(matches: &ArgMatches<'a>) -> Line<'a>
    requires { HasNeeded Replay matches.now }
    ensures { IsLineOf Replay matches.now result }
{
    Line::Replay {
        policy: matches.get_str("POLICY"),
        store: word_at(matches, "STORE"),
    }
}

/// `serve --port P --count N STORE DAY`.
fn serve_line<'a>(alloc: Global, matches: &ArgMatches<'a>) -> Result<Line<'a>, UseFault>
    requires { HasNeeded Serve matches.now }
    ensures line { IfOk result (IsLineOf Serve matches.now) }
    ensures refused { IfErr result (λ fault. (fault ≡ Memory)
        ⊎ MakesNoLine Serve matches.now) }
{
    let Some(port) = read_port(word_at(matches, "P")) else {
        return Err(no_port_fault(alloc));
    };
    let Some(count) = read_count(word_at(matches, "N")) else {
        return Err(no_count_fault(alloc));
    };
    let Some(day) = Day::read(word_at(matches, "DAY")) else {
        return Err(no_day_fault(alloc));
    };
    Ok(Line::Serve {
        port,
        count,
        store: word_at(matches, "STORE"),
        day,
    })
}

/// The line of the subcommand that the values make which `clap` found for it.
pub fn line_of<'a>(
    alloc: Global,
    subcommand: Subcommand,
    matches: &ArgMatches<'a>,
) -> Result<Line<'a>, UseFault>
    requires { HasNeeded subcommand matches.now }
    ensures line { IfOk result (IsLineOf subcommand matches.now) }
    ensures refused { IfErr result (λ fault.
        (fault ≡ Memory) ⊎ MakesNoLine subcommand matches.now) }
{
    match subcommand {
        Subcommand::Check => Ok(check_line(matches)),
        Subcommand::Pack => Ok(pack_line(matches)),
        Subcommand::Unpack => Ok(unpack_line(matches)),
        Subcommand::Explain => explain_line(alloc, matches),
        Subcommand::Policy => Ok(policy_line(matches)),
        Subcommand::Ask => ask_line(alloc, matches),
        Subcommand::Replay => Ok(replay_line(matches)),
        Subcommand::Serve => serve_line(alloc, matches),
    }
}
