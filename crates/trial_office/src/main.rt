//! Writes an office into a file, which the `sqlite3` command can read, times calls of the tables,
//! requests to the office and the hearing of a request, and compares the office's answers with those of
//! the plain office. Without arguments it runs the cases of lack of memory.
#![tactic(auto)]

mod bags;
mod calls;
mod cases;
mod changes;
mod comparing;
mod drawing;
mod groups;
mod input;
mod lines;
mod office;
mod offices;
mod outcome;
mod replaying;
mod requests;
mod tables;
mod tally;
mod tasks;
mod texts;
mod timed;
mod upgrading;

use anyhow::{Context, Result, bail};
use comparing::compare_in_memory;
use input::Input;
use std::env::{Env, FillError};
use tally::Tally;
use tasks::{Report, Task};

const USAGE: &str =
    "words: none, all POLICY, hear, read-all, write FILE, make FILE, draw COUNT SEED, draw COUNT SEED FILE, draw-on COUNT SEED FILE, upgrade FILE, or FILE and COUNT behind one of deposits, read, live, last, ask-deposits, ask-own-deposits, ask-records, ask-disposals, ask-bags, ask-lists, ask-due, ask-holds and ask-classes";

/// The task and the file that the words after the program's name ask for.
fn read_words(words: &[String]) -> Result<(Task, &str)> {
    let (Some(task), Some(file)) = (words.get(1), words.get(2)) else {
        bail!("{USAGE}");
    };
    let task = match words.get(3) {
        None => Task::read(task),
        Some(count) => Task::read_timed(task, count.parse::<u32>().context("COUNT")?),
    };
    Ok((task.context(USAGE)?, file.as_str()))
}

/// Prints what the task comes to.
fn say(rt: &HostRuntime, report: Report) -> Result<()> {
    match report {
        Report::Done => {}
        Report::Took(took) => println!(rt; "{}", took.as_micros())?,
        Report::Upgraded(version, took) => {
            println!(rt; "{}", took.as_micros())?;
            if let Some(version) = version {
                eprintln!(rt; "the tables were of version {version}")?;
            }
        }
        Report::Drew(tally) => say_tally(rt, tally)?,
    }
    Ok(())
}

/// Prints what came of requests.
fn say_tally(rt: &HostRuntime, tally: Tally) -> Result<()> {
    println!(rt; "{} accepted {} refused", tally.accepted, tally.refused)?;
    println!(rt;
        "on a class: {} held {} released {} listed",
        tally.class_holds, tally.class_releases, tally.class_lists
    )?;
    println!(rt;
        "under rules with days: {} asked {} denied",
        tally.under_days, tally.denied_on_day
    )?;
    Ok(())
}

/// Puts this number of requests, drawn by the seed, to an office in memory and to the plain office. Prints what
/// came of them.
fn draw(rt: &HostRuntime, count: u32, seed: u64) -> Result<()> {
    say_tally(rt, compare_in_memory(rt.alloc(), seed, count)?)
}

/// The words after `draw`: how many requests, and the seed.
fn read_draw(count: &str, seed: &str) -> Result<(u32, u64)> {
    let count = count.parse::<u32>().context("COUNT")?;
    Ok((count, seed.parse::<u64>().context("SEED")?))
}

/// Does the task over the file, and says what it comes to.
fn take(rt: &HostRuntime, file: &str, task: Task) -> Result<()> {
    let report = task.take(rt, file)?;
    say(rt, report)
}

/// Does what the words after the program's name ask for.
fn run(rt: &HostRuntime, words: &[String]) -> Result<()> {
    if let [_, word] = words {
        return Input::read(word).context(USAGE)?.measure(rt);
    }
    if let [_, word, policy] = words {
        if word.as_str() == "all" {
            return run_all(rt, policy);
        }
    }
    if let [_, word, count, seed] = words {
        if word.as_str() == "draw" {
            let (count, seed) = read_draw(count, seed)?;
            return draw(rt, count, seed);
        }
    }
    if let [_, word, count, seed, file] = words {
        if word.as_str() == "draw" {
            let (count, seed) = read_draw(count, seed)?;
            return take(rt, file, Task::Draw(count, seed));
        }
        if word.as_str() == "draw-on" {
            let (count, seed) = read_draw(count, seed)?;
            return take(rt, file, Task::DrawOn(count, seed));
        }
    }
    let (task, file) = read_words(words)?;
    take(rt, file, task)
}

/// Runs the cases of lack of memory, and where all are as wanted draws requests.
fn run_cases(rt: &HostRuntime) -> Result<()> {
    if cases::answer(rt)? {
        draw(rt, 100, 7)?;
    }
    Ok(())
}

/// Runs the cases and draws requests, and then has the program replay the records of standard input.
fn run_all(rt: &HostRuntime, policy: &str) -> Result<()> {
    cases::answer_all(rt)?;
    draw(rt, 100, 7)?;
    replaying::replay(rt, policy)
}

/// Whether there is a word after the program's name. Takes no memory.
fn has_words(rt: &HostRuntime) -> bool {
    !matches!(rt.arg(1, &mut []), Err(FillError::NotPresent))
}

fn main(rt: HostRuntime) -> Result<()> {
    if !has_words(&rt) {
        return run_cases(&rt);
    }
    let words: Vec<String> = std::env::args(&rt)?.collect(rt.alloc())?;
    run(&rt, words.as_slice())
}
