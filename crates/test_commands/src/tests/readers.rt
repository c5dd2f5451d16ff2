//! Forms and policies that come from readers: whole, longer than a form, refused, and cut by a reader
//! that fails.

use crate::tests::devices::{Given, told};
use crate::tests::rows::holds;
use commands::{
    Asked, Ending, Outcome, Trouble, explain_outcome, explain_policy, judge, read_policy_from,
};
use office_core::{Action, Day, Name, PolicyFault};
use std::alloc::{AllocError, Global};
use std::fs;
use std::io::ErrorKind;
use std::test::*;
use test_bags::{bytes_of, text_of};

/// Whether work is done with this line, and for no reason.
fn is_done(outcome: &Outcome, line: &str) -> bool {
    outcome.text.as_str() == line && outcome.reason.is_none() && outcome.ending == Ending::Accepted
}

/// Whether work is refused with this line.
fn is_refused(outcome: &Outcome, line: &str) -> bool {
    outcome.text.as_str() == line && outcome.ending == Ending::Refused
}

/// Whether a form is read to its end, and its bag is valid.
fn is_read_whole(alloc: Global) -> Result<bool, Fail> {
    let form = bytes_of(alloc, r"BAGSET 1\n{bag}")?;
    let mut rest = form.as_slice();
    let outcome = judge(alloc, &mut rest)?;
    Ok(is_done(&outcome, "valid 1.0 files 1 bytes 3 manifests 1\n") && rest.is_empty())
}

/// How many bytes are left of a form that is four bytes too long, where that is said of it.
fn left_of_long(alloc: Global) -> Result<Option<usize>, Fail> {
    let long = vec![in alloc; 0; 16_777_220]?;
    let mut rest = long.as_slice();
    let outcome = judge(alloc, &mut rest)?;
    let is_so = is_refused(&outcome, "unreadable SIZE\n");
    Ok(if is_so { Some(rest.len()) } else { None })
}

#[test]
fn forms_from_readers(rt: HostRuntime) -> Result<(), Fail> {
    assert!(rt; is_read_whole(rt.alloc())?);
    // A byte more than a form has is read, and no more.
    assert!(rt; left_of_long(rt.alloc())? == Some(3));
    Ok(())
}

/// What `carl` asks, on some day.
fn question<'a>() -> Asked<'a> {
    Asked {
        policy: "p.toml",
        caller: "carl",
        action: Action::List,
        collection: Name::read("tax"),
        class: Name::read("y10"),
        day: Day::read("2024-03-01"),
    }
}

/// A policy after a comment of this number of bytes.
fn long_policy(alloc: Global, length: usize) -> Result<Vec<u8>, AllocError> {
    let mut long = vec![in alloc; b'#'; length]?;
    let policy = bytes_of(alloc, r"\n{policy}")?;
    long.extend_from_slice(policy.as_slice())?;
    Ok(long)
}

/// Whether a policy after a comment of this number of bytes is read to its end, and decides.
fn decides_after(alloc: Global, length: usize) -> Result<bool, Fail> {
    let long = long_policy(alloc, length)?;
    let mut rest = long.as_slice();
    let outcome = explain_policy(alloc, &question(), &mut rest)?;
    Ok(is_done(&outcome, "allow rule 3\n") && rest.is_empty())
}

#[test]
fn policies_from_readers(rt: HostRuntime) -> Result<(), Fail> {
    // The comment is longer than any form.
    assert!(rt; decides_after(rt.alloc(), 16_777_217)?);
    Ok(())
}

/// A policy that is refused, and why.
static NOTED: &[u8] = b"version = 1\nnote = 1\n";

static UNKNOWN_KEY: &str =
    "the policy has a key at the top other than version, callers and rule (Y3): the key note\n";

/// Whether the policy is refused with its fault and why.
fn is_refused_policy(alloc: Global) -> Result<bool, Fail> {
    let mut rest = NOTED;
    match read_policy_from(alloc, &mut rest)? {
        Ok(_) => Ok(false),
        Err(refused) => {
            let line = refused.line(alloc)?;
            Ok(
                refused.fault == PolicyFault::UnknownKey
                    && line.as_str() == "policy Y3\n"
                    && refused.reason.as_str() == UNKNOWN_KEY,
            )
        }
    }
}

/// Whether a question to that policy is refused, and why.
fn is_refused_question(alloc: Global) -> Result<bool, Fail> {
    let mut rest = NOTED;
    let outcome = explain_policy(alloc, &question(), &mut rest)?;
    Ok(is_refused(&outcome, "policy Y3\n") && told(&outcome) == UNKNOWN_KEY)
}

#[test]
fn refused_policies_from_readers(rt: HostRuntime) -> Result<(), Fail> {
    assert!(rt; is_refused_policy(rt.alloc())?);
    assert!(rt; is_refused_question(rt.alloc())?);
    Ok(())
}

/// How the form in a file is judged.
fn ending_of(rt: &HostRuntime, path: &str) -> Result<Ending, Fail> {
    let mut file = fs::open(rt, path)?;
    Ok(judge(rt.alloc(), &mut file)?.ending)
}

/// How many rules the policy in a file has, or none where it is refused.
fn rules_in(rt: &HostRuntime, path: &str) -> Result<Option<usize>, Fail> {
    let mut file = fs::open(rt, path)?;
    match read_policy_from(rt.alloc(), &mut file)? {
        Ok(policy) => Ok(Some(policy.rules().len())),
        Err(_) => Ok(None),
    }
}

/// Writes bag A's form to a file.
fn write_form(rt: &HostRuntime, path: &str) -> Result<(), Fail> {
    let form = bytes_of(rt.alloc(), r"BAGSET 1\n{bag}")?;
    fs::write(rt, path, form.as_slice())?;
    Ok(())
}

/// Writes a policy after a comment to a file. The comment has more bytes than a reader gives at once.
fn write_policy(rt: &HostRuntime, path: &str) -> Result<(), Fail> {
    let long = long_policy(rt.alloc(), 70_000)?;
    fs::write(rt, path, long.as_slice())?;
    Ok(())
}

#[test]
fn files_are_read_whole(rt: HostRuntime) -> Result<(), Fail> {
    write_form(&rt, "bag-a.bagset")?;
    assert!(rt; ending_of(&rt, "bag-a.bagset")? == Ending::Accepted);
    fs::remove_file(&rt, "bag-a.bagset")?;
    Ok(())
}

#[test]
fn policies_are_read_whole(rt: HostRuntime) -> Result<(), Fail> {
    write_policy(&rt, "long.toml")?;
    assert!(rt; rules_in(&rt, "long.toml")? == Some(3));
    fs::remove_file(&rt, "long.toml")?;
    Ok(())
}

/// What `bert` asks.
fn question_of_a_stranger<'a>() -> Asked<'a> {
    Asked {
        policy: "p.toml",
        caller: "bert",
        action: Action::Download,
        collection: None,
        class: Name::read("y1"),
        day: None,
    }
}

/// What comes of a question to a policy, a text with marks.
fn outcome_of(alloc: Global, policy: &str, asked: &Asked<'_>) -> Result<Outcome, AllocError> {
    let policy = bytes_of(alloc, policy)?;
    explain_outcome(alloc, policy.as_slice(), asked)
}

#[test]
fn a_decision_by_its_call(rt: HostRuntime) -> Result<(), AllocError> {
    let outcome = outcome_of(rt.alloc(), "{strangers}", &question_of_a_stranger())?;
    assert!(rt; is_done(&outcome, "allow rule 2\n"));
    Ok(())
}

/// What `anna` asks on that day, or on none.
fn question_on<'a>(day: &str) -> Asked<'a> {
    Asked {
        policy: "p.toml",
        caller: "anna",
        action: Action::Dispose,
        collection: Name::read("tax"),
        class: Name::read("y1"),
        day: Day::read(day),
    }
}

/// Policies, the day of a question, and the line that is printed. None is where a day is missing.
static DAYS: [(&str, &str, &str); 7] = [
    ("{policy-2}", "2024-12-31", "deny rule 1\n"),
    ("{policy-2}", "2025-01-01", "allow rule 2\n"),
    ("{policy-2}", "", ""),
    ("version = 2\n", "", ""),
    ("{policy}", "2024-12-31", "deny rule 1\n"),
    ("{policy}", "2025-01-01", "deny rule 1\n"),
    ("{policy}", "", "deny rule 1\n"),
];

/// Whether the question is answered so on that day, and why where that is no; without a line, that a day
/// is missing.
fn is_answered_on(alloc: Global, row: &(&str, &str, &str)) -> Result<bool, AllocError> {
    let (policy, day, line) = *row;
    let outcome = outcome_of(alloc, policy, &question_on(day))?;
    if line.is_empty() {
        let is_told = told(&outcome) == text_of(alloc, "{no-day}")?.as_str();
        return Ok(is_told && outcome.text.is_empty() && outcome.ending == Ending::Misused);
    }
    Ok(outcome.text.as_str() == line && outcome.reason.is_some() == line.starts_with("deny "))
}

#[test]
fn decisions_on_days(rt: HostRuntime) -> Result<(), AllocError> {
    for row in &DAYS {
        holds(&rt, is_answered_on(rt.alloc(), row)?, row.1);
    }
    Ok(())
}

/// Whether a reader failed, and with the error that it gave.
fn is_broken<T: Drop>(answer: Result<T, Trouble>) -> bool {
    match answer {
        Err(Trouble::Device(error)) => error.kind() == ErrorKind::BrokenPipe,
        _ => false,
    }
}

/// A reader that fails after some bytes of a form and of a policy.
fn failing<'a>() -> Given<'a> {
    Given {
        rest: b"BAGSET 1\n",
        fails: true,
    }
}

#[test]
fn readers_that_fail(rt: HostRuntime) {
    let alloc: Global = rt.alloc();
    assert!(rt; is_broken(judge(alloc, &mut failing())));
    assert!(rt; is_broken(explain_policy(alloc, &question(), &mut failing())));
    assert!(rt; is_broken(read_policy_from(alloc, &mut failing())));
}
