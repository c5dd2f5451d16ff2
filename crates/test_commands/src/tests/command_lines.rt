//! The words of the command line.

use crate::tests::rows::{holds, rows_of};
use command_line::{Line, MAX_COUNT, UseFault, VERSION, read_line};
use commands::Asked;
use office_core::Name;
use std::alloc::{AllocError, Global};
use std::test::*;
use test_bags::text_of;

/// The words between the bars of a text; none of an empty one.
fn words_of(alloc: Global, text: &str) -> Result<Vec<&str>, AllocError> {
    let mut words = Vec::new(alloc);
    if !text.is_empty() {
        for word in text.split('|') {
            words.push(word)?;
        }
    }
    Ok(words)
}

/// A name, or a line for none.
fn name_text(name: Option<Name<'_>>) -> &str {
    match name {
        Some(name) => name.as_str(),
        None => "-",
    }
}

/// What is asked of a policy, between bars.
fn asked_text(alloc: Global, asked: Asked<'_>) -> Result<String, AllocError> {
    let policy = asked.policy;
    let caller = asked.caller;
    let action = asked.action.as_str();
    let collection = name_text(asked.collection);
    let class = name_text(asked.class);
    let words = format!(in alloc; "explain|{policy}|{caller}|{action}|{collection}|{class}")?;
    match asked.day {
        Some(day) => format!(in alloc; "{words}|{day}"),
        None => Ok(words),
    }
}

/// A line on a store, between bars.
fn store_text(alloc: Global, line: Line<'_>) -> Result<String, AllocError> {
    match line {
        Line::Policy { store, policy } => format!(in alloc; "policy|{store}|{policy}"),
        Line::Ask { store, .. } => format!(in alloc; "ask|{store}"),
        Line::Replay { policy, store } => {
            let policy = policy.unwrap_or("no policy");
            format!(in alloc; "replay|{policy}|{store}")
        }
        Line::Serve {
            port,
            count,
            store,
            ..
        } => format!(in alloc; "serve|{port}|{count}|{store}"),
        _ => String::from_str(alloc, "no line"),
    }
}

/// A line, between bars.
fn line_text(alloc: Global, line: Line<'_>) -> Result<String, AllocError> {
    match line {
        Line::Check { file } => format!(in alloc; "check|{file}"),
        Line::Pack { folder, file } => format!(in alloc; "pack|{folder}|{file}"),
        Line::Unpack { file, folder } => format!(in alloc; "unpack|{file}|{folder}"),
        Line::Explain(asked) => asked_text(alloc, asked),
        line => store_text(alloc, line),
    }
}

/// What the words say, between bars: the subcommand and its values, or that they are invalid.
fn said_of(alloc: Global, words: &[&str]) -> Result<String, AllocError> {
    match read_line(alloc, words) {
        Ok(line) => line_text(alloc, line),
        Err(UseFault::Use(text)) => {
            let is_line = text.ends_with('\n');
            String::from_str(alloc, if is_line { "invalid" } else { "no line" })
        }
        Err(UseFault::Memory) => Err(AllocError),
    }
}

/// Words, and what they say. A line that is no row says what the rows below it are about.
static WORDS: &str = r"
check|- => check|-
check|a.bagset => check|a.bagset
check| => check|
check|--|-x => check|-x
check|-x => invalid
check|--help => invalid
check|a|b => invalid
check => invalid
# Two words in their places.
pack|bag|bag.bagset => pack|bag|bag.bagset
pack|--|-bag|-x => pack|-bag|-x
pack|bag => invalid
pack|a|b|c => invalid
unpack|bag.bagset|bag => unpack|bag.bagset|bag
unpack => invalid
policy|office.db|p.toml => policy|office.db|p.toml
policy|office.db => invalid
# A caller is any text, and - is no option.
explain|p.toml|anna|list|tax|- => explain|p.toml|anna|list|tax|-
explain|-||hold|-|y-1_0.a => explain|-||hold|-|y-1_0.a
explain|p|--|-x|class|-a|- => explain|p|-x|class|-a|-
explain|p|anna|list|tax|y1 => explain|p|anna|list|tax|y1
# A day, before the other words or after them.
explain|--day|2024-12-31|p|anna|list|tax|y1 => explain|p|anna|list|tax|y1|2024-12-31
explain|p|anna|list|tax|y1|--day=1900-01-01 => explain|p|anna|list|tax|y1|1900-01-01
explain|--day|2025-02-29|p|anna|list|tax|y1 => invalid
explain|--day|p|anna|list|tax|y1 => invalid
explain|--day|2024-12-31|--day|2025-01-01|p|anna|list|tax|y1 => invalid
# One word less, and one more.
explain => invalid
explain|p|anna|list|tax => invalid
explain|p|anna|list|tax|y1|y2 => invalid
# An action that is none, * too.
explain|p|anna|destroy|tax|y1 => invalid
explain|p|anna|*|tax|y1 => invalid
# A collection and a class that are no names.
explain|p|anna|list|Tax|y1 => invalid
explain|p|anna|list|tax| => invalid
# A word that clap takes for an option, and words of use.
explain|p|-x|list|tax|y1 => invalid
explain|--help => invalid
# A day of the office, and no other text.
ask|office.db|2024-02-29 => ask|office.db
ask|:memory:|1900-01-01 => ask|:memory:
ask|office.db|2025-02-29 => invalid
ask|office.db|1899-12-31 => invalid
ask|office.db|2024-3-1 => invalid
ask|office.db => invalid
# A policy may be left out, and stands before or after the store.
replay|office.db => replay|no policy|office.db
replay|--policy|p.toml|office.db => replay|p.toml|office.db
replay|office.db|--policy=p.toml => replay|p.toml|office.db
replay|--policy|p.toml => invalid
replay|--policy|p|--policy|q|office.db => invalid
# A port and a number of connections.
serve|--port|8080|--count|1|office.db|2024-03-01 => serve|8080|1|office.db
serve|office.db|--count|1000000|2024-03-01|--port|65535 => serve|65535|1000000|office.db
serve|--port|000|--count|007|office.db|2024-03-01 => serve|0|7|office.db
serve|--port|65536|--count|1|office.db|2024-03-01 => invalid
serve|--port|+1|--count|1|office.db|2024-03-01 => invalid
serve|--port||--count|1|office.db|2024-03-01 => invalid
serve|--port|0|--count|0|office.db|2024-03-01 => invalid
serve|--port|0|--count|1000001|office.db|2024-03-01 => invalid
serve|--port|0|--count|4294967297|office.db|2024-03-01 => invalid
serve|--port|0|--count|1|office.db|today => invalid
serve|--count|1|office.db|2024-03-01 => invalid
serve|--port|0|office.db|2024-03-01 => invalid
# Words that name no subcommand.
Check|- => invalid
 => invalid
";

/// Whether the words between the bars say this.
fn say(alloc: Global, text: &str, wanted: &str) -> Result<bool, AllocError> {
    let words = words_of(alloc, text)?;
    Ok(said_of(alloc, words.as_slice())?.as_str() == wanted)
}

#[test]
fn words(rt: HostRuntime) -> Result<(), Fail> {
    let rows = rows_of(rt.alloc(), WORDS, 59)?;
    for (text, wanted) in &rows {
        holds(&rt, say(rt.alloc(), text, wanted)?, text);
    }
    assert!(rt; MAX_COUNT == 1_000_000);
    Ok(())
}

/// Words, and what is said of them, or how that begins where it is no whole line. `{uses}` means
/// the program's usage.
static FAULTS: &str = r"
 => {uses}
help => {uses}
--help => {uses}
-h|check => {uses}
judge|a => depot has no subcommand judge\n{uses}
Check => depot has no subcommand Check\n{uses}
--version => depot has no subcommand --version\n{uses}
a %é => depot has no subcommand a%20%25%C3%A9\n{uses}
check|--help => Says whether a bag is valid, or its first fault.\n\nUsage: depot check <FILE>\n\nArguments:\n  <FILE>  the transfer form of the bag, or - for standard input
check|a|b => error: unexpected argument 'b' found\n\nUsage: depot check <FILE>
explain|--day|2025-02-29|p|anna|list|tax|y1 => DAY is a date such as 2024-03-01, from 1900-01-01 to 9799-12-31\n
explain|p|anna|destroy|tax|y1 => ACTION is one of class, collection,
explain|p|anna|list|TAX|y1 => COLLECTION is a name
explain|p|anna|list|tax|Y1 => CLASS is a name
ask|office.db|today => DAY is a date such as 2024-03-01, from 1900-01-01 to 9799-12-31\n
serve|--port|x|--count|1|office.db|2024-03-01 => P is the number of a port, 0 to 65535\n
serve|--port|0|--count|x|office.db|2024-03-01 => N is a number of connections, 1 to 1000000\n
";

/// What is said of words that ask for nothing.
fn fault_of(alloc: Global, text: &str) -> Result<String, Fail> {
    let line = text_of(alloc, text)?;
    let words = words_of(alloc, line.as_str())?;
    let fault = read_line(alloc, words.as_slice()).err().ok_or("a fault")?;
    Ok(fault.to_string(alloc)?)
}

/// Whether what is said is the text with these marks, or begins with it where it is no whole line.
fn is_text_or_beginning(alloc: Global, said: &str, wanted: &str) -> Result<bool, AllocError> {
    let wanted = text_of(alloc, wanted)?.replace(alloc, "{version}", VERSION)?;
    let is_whole = !wanted.ends_with('\n') || said.len() == wanted.len();
    Ok(is_whole && said.starts_with(wanted.as_str()))
}

/// Whether this is said of words that ask for nothing.
fn is_fault(alloc: Global, text: &str, wanted: &str) -> Result<bool, Fail> {
    let said = fault_of(alloc, text)?;
    Ok(is_text_or_beginning(alloc, said.as_str(), wanted)?)
}

#[test]
fn faults_of_use(rt: HostRuntime) -> Result<(), Fail> {
    let rows = rows_of(rt.alloc(), FAULTS, 17)?;
    for (text, wanted) in &rows {
        holds(&rt, is_fault(rt.alloc(), text, wanted)?, text);
    }
    assert!(rt; UseFault::Memory.to_string(rt.alloc())?.as_str() == "memory");
    Ok(())
}
