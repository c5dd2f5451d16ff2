//! Questions to small policies, and texts that are none, with what `explain` says of each.

use crate::tests::rows::{prints, words_of};
use crate::tests::runs::run_all;
use std::alloc::Global;
use std::fs;
use std::test::*;
use test_bags::{bytes_of, text_of};

/// A policy; the caller, the action, the collection and the class, and the option of a day; the line
/// that is printed, or nothing where the words leave out a day; and what is printed to standard error, where
/// it is told a thing. All with marks. A line that is no row says what the rows below it are about.
static QUESTIONS: &str = r#"
version = 1\nrule = [{effect="deny",role="*",action="*",collection="*",class="*"}]\n => eve|list|maps|y10 => deny rule 1\n => the caller eve{stranger}{denied-all}
{policy} => anna|dispose|tax|y1 => deny rule 1\n => {denied-tax}\n
{policy} => anna|dispose|maps|y1 => allow rule 2\n
{policy} => eve|list|maps|y10 => deny default\n => the caller eve{stranger}{undecided}
{policy} => carl|list|maps|y10 => allow rule 3\n
# A name never matches what is absent, and * does.
{policy} => anna|dispose|-|y1 => allow rule 2\n
{policy} => anna|class|-|y1 => allow rule 2\n
{policy} => carl|list|maps|- => deny default\n => {undecided}
# Callers that are no names, and one that is no word of a policy.
{policy} => |list|maps|y10 => deny default\n => the caller {stranger}{undecided}
{policy} => Anna é\n"|list|maps|y10 => deny default\n => the caller Anna%20%C3%A9%0A"{stranger}{undecided}
{strangers} => -|download|maps|y10 => allow rule 2\n => the caller -{stranger}
# The word - is none, and not the collection of that name.
{strangers} => bert|download|-|- => allow rule 2\n
# Days: a rule that counts until 2024-12-31; a day that is missing, and one that is no matter.
{policy-2} => anna|dispose|tax|y1|--day|2024-12-31 => deny rule 1\n => {denied-tax}, from 1900-01-01 to 2024-12-31\n
{policy-2} => anna|dispose|tax|y1|--day|2025-01-01 => allow rule 2\n
{policy-2} => anna|dispose|tax|y1 =>  => {no-day}
{policy-2} => eve|list|maps|y10 =>  => {no-day}
version = 2\n => anna|list|maps|y1 =>  => {no-day}
version = 2\n => anna|list|maps|y1|--day|1900-01-01 => deny default\n => the caller anna{stranger}{undecided}
{policy} => anna|dispose|tax|y1|--day|2025-01-01 => deny rule 1\n => {denied-tax}\n
# Faults of the policy are found before a missing day.
version = 2\n\n{callers}{rule-tax}last = "2024-12-31"\n\n{rule-archivist}first = "2025-02-29"\n\n{rule-clerk} => anna|dispose|tax|y1 => policy Y5 2\n => rule 2{no-rule}: the key first\n
version = 1\n\n{callers}{rule-tax}last = "2024-12-31"\n\n{rule-archivist}\n{rule-clerk} => anna|dispose|tax|y1 => policy Y5 1\n => rule 1{no-rule}: the key last\n
# The least policy, and texts that are none.
version = 1\n => anna|list|maps|y1 => deny default\n => the caller anna{stranger}{undecided}
version = 1 # {ff}\n => anna|list|maps|y1 => policy Y1\n => the policy is no text in TOML (Y1): line 1\n
version = \n => anna|list|maps|y1 => policy Y1\n => the policy is no text in TOML (Y1): line 1\n
version = 1\n[callers]\nanna = "clerk"\n"anna" = "clerk"\n => anna|list|maps|y1 => policy Y1\n => the policy is no text in TOML (Y1): line 4\n
version = 3\n => anna|list|maps|y1 => policy Y2\n => the policy has no version, or one that is neither the whole number 1 nor 2 (Y2)\n
 => anna|list|maps|y1 => policy Y2\n => the policy has no version, or one that is neither the whole number 1 nor 2 (Y2)\n
version = 1\nnote = 1\nrule = 1\n => anna|list|maps|y1 => policy Y3\n => the policy has a key at the top other than version, callers and rule (Y3): the key note\n
version = 1\n[callers]\nanna = "Clerk"\n => anna|list|maps|y1 => policy Y4\n => the callers of the policy are no table, or a caller or a role is no name (Y4): the caller anna\n
version = 1\ncallers = []\n => anna|list|maps|y1 => policy Y4\n => the callers of the policy are no table, or a caller or a role is no name (Y4): the key callers\n
version = 1\nrule = {}\n => anna|list|maps|y1 => policy Y5 0\n => the rules of the policy are no array: each begins with the line [[rule]] (Y5)\n
version = 1\nrule = [1]\n => anna|list|maps|y1 => policy Y5 1\n => rule 1{no-rule}\n
version = 1\n[[rule]]\neffect = "allow"\nrole = "*"\naction = "audit"\ncollection = "*"\nclass = "*"\n[[rule]]\neffect = "permit"\nrole = "*"\naction = "audit"\ncollection = "*"\nclass = "*"\n => anna|list|maps|y1 => policy Y5 2\n => rule 2{no-rule}: the key effect\n
"#;

/// Writes the policy that is asked.
fn write_policy(rt: &HostRuntime, policy: &str) -> Result<(), Fail> {
    let policy = bytes_of(rt.alloc(), policy)?;
    Ok(fs::write(rt, "policy.toml", policy.as_slice())?)
}

/// Whether a question to that policy is answered as a row says.
fn explains(rt: &HostRuntime, asked: &str, row: &str) -> Result<bool, Fail> {
    let asked = text_of(rt.alloc(), asked)?;
    let mut words = words_of(rt.alloc(), "explain|policy.toml")?;
    for word in asked.split('|') {
        words.push(word)?;
    }
    prints(rt, words.as_slice(), b"", row)
}

/// Whether a question to the policy, and what is said of it, are as a line of the table has them.
fn is_so(rt: &HostRuntime, policy: &str, rest: &str) -> Result<bool, Fail> {
    let (asked, row) = rest.split_once(" => ").ok_or(policy)?;
    write_policy(rt, policy)?;
    explains(rt, asked, row)
}

#[test]
fn explains_what_was_worked_out(rt: HostRuntime) -> Result<(), Fail> {
    let mut rows = 0usize;
    for line in QUESTIONS.lines() {
        if let Some((policy, rest)) = line.split_once(" => ") {
            assert!(rt; is_so(&rt, policy, rest)?, "{line}");
            rows = rows.saturating_add(1);
        }
    }
    assert!(rt; rows == 33, "{rows} rows");
    fs::remove_file(&rt, "policy.toml")?;
    Ok(())
}

/// A policy after a comment that is longer than any form.
fn long_policy(alloc: Global) -> Result<Vec<u8>, Fail> {
    let mut long = vec![in alloc; b'#'; 16_777_217]?;
    long.extend_from_slice(b"\n")?;
    long.extend_from_slice(bytes_of(alloc, "{policy}")?.as_slice())?;
    Ok(long)
}

/// The commands that install it.
static INSTALLS: [&str; 2] = [
    "policy,:memory:,-||Accepted|~installed~|",
    "replay,--policy=-,:memory:|~records~|Accepted|~answers~|",
];

#[test]
fn a_policy_is_read_whole(rt: HostRuntime) -> Result<(), Fail> {
    // In a file that is named as standard input is elsewhere.
    fs::write(&rt, "-", long_policy(rt.alloc())?.as_slice())?;
    let words = [
        "explain",
        "--day",
        "2024-03-01",
        "-",
        "carl",
        "list",
        "tax",
        "y10",
    ];
    assert!(rt; prints(&rt, words.as_slice(), b"", r"allow rule 3\n")?);
    run_all(&rt, &INSTALLS)?;
    fs::remove_file(&rt, "-")?;
    Ok(())
}
