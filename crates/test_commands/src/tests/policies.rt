//! The calls of `office_core` and `office_rows`: days, limits, names, policies, decisions and verdicts.

use crate::tests::rows::{holds, rows_of};
use fault_words::InWords;
use office_core::{
    Accession, Action, Ask, Day, Decision, Due, Effect, FIRST_DAY_NUMBER, Facts, LAST_DAY_NUMBER,
    Limits, Matter, Name, Policy, Text, TextKind, Verdict, Years, decide, denial_verdict, due,
    first_match, may_have_days, read_policy, verdict,
};
use office_rows::{MAX_LIMIT, is_limit};
use std::alloc::{AllocError, Global};
use std::test::*;
use test_bags::text_of;

const RULE: &str =
    "[[rule]]\neffect = \"allow\"\nrole = \"*\"\naction = \"audit\"\ncollection = \"*\"\nclass = \"*\"\n";

/// Texts and numbers, and whether the text is the day of that number. Else neither is a day's.
static DAYS: [(&str, i32, bool); 17] = [
    ("1900-01-01", -25_567, true),
    ("1970-01-01", 0, true),
    ("2000-02-29", 11_016, true),
    ("2024-02-29", 19_782, true),
    ("9796-02-29", 2_858_447, true),
    ("9799-12-31", 2_859_848, true),
    ("1899-12-31", -25_568, false),
    ("9800-01-01", 2_859_849, false),
    ("1900-02-29", -25_568, false),
    ("2025-02-29", -25_568, false),
    ("2025-2-28", -25_568, false),
    ("2024-02-29 ", -25_568, false),
    ("2024-13-01", -25_568, false),
    ("+2024-2-29", -25_568, false),
    ("20240229", -25_568, false),
    ("2024-02-30", -25_568, false),
    ("", -25_568, false),
];

/// Whether the text is the day of that number, or neither is a day's.
fn is_numbered(text: &str, number: i32, is_day: bool) -> bool {
    let read = Day::read(text);
    match read {
        Some(day) => is_day && day.number() == number && Day::new(number) == read,
        None => !is_day && Day::new(number).is_none(),
    }
}

/// A day as it is written once it is read, or no text.
fn day_again(alloc: Global, text: &str) -> Result<String, AllocError> {
    match Day::read(text) {
        Some(day) => day.to_string(alloc),
        None => Ok(String::new(alloc)),
    }
}

#[test]
fn days(rt: HostRuntime) -> Result<(), AllocError> {
    assert!(rt;
        Day::first().number() == FIRST_DAY_NUMBER && Day::last().number() == LAST_DAY_NUMBER
    );
    for (text, number, is_day) in &DAYS {
        holds(&rt, is_numbered(text, *number, *is_day), text);
        let again = day_again(rt.alloc(), text)?;
        holds(&rt, !*is_day || again.as_str() == *text, text);
    }
    Ok(())
}

/// From which day a deposit is due that was closed on that day and is kept for this number of years, or
/// permanently. None where that is no day, or no class may have those years.
fn due_of(closing: &str, years: Option<u8>) -> Option<Due> {
    let years = match years {
        Some(count) => Years::new(count)?,
        None => Years::permanent(),
    };
    Some(due(Day::read(closing)?, years))
}

/// A due day in words.
fn words_of(alloc: Global, due: Due) -> Result<String, AllocError> {
    match due {
        Due::On(date) => format!(in alloc; "{date}"),
        Due::Never => format!(in alloc; "never"),
    }
}

/// The due day in words, or that no class may have those years.
fn due_words(alloc: Global, closing: &str, years: Option<u8>) -> Result<String, AllocError> {
    match due_of(closing, years) {
        Some(due) => words_of(alloc, due),
        None => format!(in alloc; "no years"),
    }
}

/// What is told for a day of closing and the years of a class.
static DUES: [(&str, Option<u8>, &str); 6] = [
    ("2024-02-29", Some(1), "2025-02-28"),
    ("2024-02-29", Some(4), "2028-02-29"),
    ("2024-03-01", Some(1), "2025-03-01"),
    ("9799-12-31", Some(200), "9999-12-31"),
    ("2024-02-29", None, "never"),
    ("2024-02-29", Some(201), "no years"),
];

#[test]
fn due_days(rt: HostRuntime) -> Result<(), AllocError> {
    for (closing, years, due) in &DUES {
        let said = due_words(rt.alloc(), closing, *years)?;
        holds(&rt, said.as_str() == *due, closing);
    }
    Ok(())
}

/// The number of the day from which that deposit is due, if ever.
fn due_number(closing: &str, years: u8) -> Option<i32> {
    match due_of(closing, Some(years))? {
        Due::On(date) => Some(date.number()),
        Due::Never => None,
    }
}

#[test]
fn the_number_of_a_due_day(rt: HostRuntime) {
    assert!(rt; due_number("1969-12-31", 0) == Some(-1));
    assert!(rt; due_number("2024-02-29", 1) == Some(20_147));
}

/// Numbers of deposits and of holds, and whether an office may have that many.
static LIMITS: [(u32, u32, bool); 3] = [(1, 1_000_000, true), (0, 1, false), (1, 1_000_001, false)];

#[test]
fn limits(rt: HostRuntime) {
    for (deposits, held, is_so) in &LIMITS {
        let limits = Limits::new(*deposits, *held);
        assert!(rt; limits.is_some() == *is_so, "{deposits} {held}");
    }
    assert!(rt; is_limit(i64::from(MAX_LIMIT)));
    assert!(rt; !is_limit(-1));
}

/// Texts, and whether each is a name, an accession and a matter.
static TEXTS: [(&str, bool, bool, bool); 11] = [
    ("y-1_0.a", true, true, true),
    ("abcdefghijabcdefghijabcdefghijabcdefghij", true, true, true),
    (
        "abcdefghijabcdefghijabcdefghijabcdefghijk",
        false,
        true,
        true,
    ),
    ("", false, false, false),
    ("Anna", false, true, true),
    ("A-1", false, true, true),
    ("A 1", false, false, true),
    ("Case 7", false, false, true),
    ("Case 7, \u{00e9}", false, false, true),
    ("a\nb", false, false, false),
    ("a\u{007f}", false, false, false),
];

/// Whether the text was read, and is the same where it is owned and lent again; or it is no such text.
fn is_kept<K: TextKind>(
    alloc: Global,
    read: Option<Text<'_, K>>,
    text: &str,
    is_wanted: bool,
) -> Result<bool, AllocError> {
    match read {
        Some(read) => Ok(is_wanted && read.to_owned(alloc)?.lend().as_str() == text),
        None => Ok(!is_wanted),
    }
}

/// Whether the text is that name, accession and matter that the row says.
fn is_read(alloc: Global, row: &(&str, bool, bool, bool)) -> Result<bool, AllocError> {
    let (text, is_name, is_accession, is_matter) = *row;
    Ok(
        is_kept(alloc, Name::read(text), text, is_name)?
            && is_kept(alloc, Accession::read(text), text, is_accession)?
            && is_kept(alloc, Matter::read(text), text, is_matter)?,
    )
}

#[test]
fn names(rt: HostRuntime) -> Result<(), AllocError> {
    for row in &TEXTS {
        holds(&rt, is_read(rt.alloc(), row)?, row.0);
    }
    Ok(())
}

/// A caller and the role that a policy gives it, what it asks for, the collection and the class; and the
/// place of the rule that decides, from 0, its number, from 1, and what it decides.
type Case = (
    &'static str,
    &'static str,
    Action,
    Option<&'static str>,
    &'static str,
    Option<(usize, usize, Effect)>,
);

static CASES: [Case; 5] = [
    (
        "anna",
        "archivist",
        Action::Dispose,
        Some("tax"),
        "y1",
        Some((0, 1, Effect::Deny)),
    ),
    (
        "anna",
        "archivist",
        Action::Dispose,
        Some("maps"),
        "y1",
        Some((1, 2, Effect::Allow)),
    ),
    (
        "anna",
        "archivist",
        Action::Class,
        None,
        "y1",
        Some((1, 2, Effect::Allow)),
    ),
    (
        "carl",
        "clerk",
        Action::List,
        Some("maps"),
        "y10",
        Some((2, 3, Effect::Allow)),
    ),
    ("eve", "stranger", Action::List, Some("maps"), "y10", None),
];

/// Whether the rules decide so.
fn decides(policy: &Policy, ask: &Ask<'_>, decided: Option<(usize, usize, Effect)>) -> bool {
    let first = first_match(policy.rules(), ask);
    let decision = decide(policy.rules(), ask);
    match decided {
        Some((place, rule, effect)) => {
            first == Some(place) && decision == Some(Decision { rule, effect })
        }
        None => first.is_none() && decision.is_none(),
    }
}

/// Whether the policy gives that role and decides so.
fn is_decided(policy: &Policy, case: &Case) -> bool {
    let (caller, role, action, collection, class, decided) = *case;
    let ask = Ask {
        role: policy.role_of(caller),
        action,
        collection,
        class: Some(class),
        day: Day::first(),
    };
    ask.role == role && decides(policy, &ask, decided)
}

#[test]
fn decisions(rt: HostRuntime) -> Result<(), Fail> {
    let text = text_of(rt.alloc(), "{policy}")?;
    let policy = read_policy(rt.alloc(), &text)?;
    assert!(rt; policy.callers().len() == 2);
    for case in &CASES {
        holds(&rt, is_decided(&policy, case), case.0);
    }
    Ok(())
}

/// Days, and the number of the rule that decides on each whether an archivist may dispose of what is in
/// `tax`, where the rule that denies it counts until 2024-12-31.
static DATED: [(&str, usize); 4] = [
    ("1900-01-01", 1),
    ("2024-12-31", 1),
    ("2025-01-01", 2),
    ("9799-12-31", 2),
];

/// The number of the rule that decides on that day.
fn rule_on(policy: &Policy, day: &str) -> Option<usize> {
    let ask = Ask {
        role: "archivist",
        action: Action::Dispose,
        collection: Some("tax"),
        class: Some("y1"),
        day: Day::read(day)?,
    };
    Some(decide(policy.rules(), &ask)?.rule)
}

#[test]
fn decisions_by_days(rt: HostRuntime) -> Result<(), Fail> {
    let text = text_of(rt.alloc(), "{policy-2}")?;
    let policy = read_policy(rt.alloc(), &text)?;
    for (day, rule) in &DATED {
        holds(&rt, rule_on(&policy, day) == Some(*rule), day);
    }
    Ok(())
}

/// Whether the rules of these texts may have days.
static VERSIONS: [(&str, bool); 5] = [
    ("version = 2\n", true),
    ("version = +2\nrule = 1\n", true),
    ("version = 1\n", false),
    ("version = \"2\"\n", false),
    ("version = 2\nversion = 2\n", false),
];

#[test]
fn versions_with_days(rt: HostRuntime) -> Result<(), AllocError> {
    for (text, may) in &VERSIONS {
        holds(&rt, may_have_days(rt.alloc(), text)? == *may, text);
    }
    Ok(())
}

/// The fault of a text as a policy, with its sentence, or how many callers and rules it has.
fn said_of(alloc: Global, text: &str) -> Result<String, AllocError> {
    match read_policy(alloc, text) {
        Ok(policy) => {
            let callers = policy.callers().len();
            let rules = policy.rules().len();
            format!(in alloc; "{callers} callers, {rules} rules")
        }
        Err(fault) => {
            let words = InWords(&fault);
            format!(in alloc; "{fault}: {words}")
        }
    }
}

/// A policy with this number of callers.
fn callers_text(alloc: Global, callers: u32) -> Result<String, AllocError> {
    let mut text = String::from_str(alloc, "version = 1\n[callers]\n")?;
    for number in 0..callers {
        text.push_str(&format!(in alloc; "c{number} = \"clerk\"\n")?)?;
    }
    Ok(text)
}

/// A policy with this number of callers and rules.
fn policy_text(alloc: Global, callers: u32, rules: usize) -> Result<String, AllocError> {
    let mut text = callers_text(alloc, callers)?;
    text.push_str(&RULE.repeat(alloc, rules)?)?;
    Ok(text)
}

/// What is said of too many rules or callers.
const TOO_MANY: &str = "Y6: the policy has more than 200 rules or more than 1,000 callers (Y6)";

/// Numbers of callers and of rules, and what is said of a policy with these numbers.
static NUMBERS: [(u32, usize, &str); 4] = [
    (0, 200, "0 callers, 200 rules"),
    (0, 201, TOO_MANY),
    (1000, 0, "1000 callers, 0 rules"),
    (1001, 0, TOO_MANY),
];

#[test]
fn numbers_of_rules_and_callers(rt: HostRuntime) -> Result<(), AllocError> {
    for (callers, rules, wanted) in &NUMBERS {
        let text = policy_text(rt.alloc(), *callers, *rules)?;
        let said = said_of(rt.alloc(), &text)?;
        holds(&rt, said.as_str() == *wanted, &said);
    }
    Ok(())
}

/// What is known of a request: the action, whether a rule allows it, the day of the deposit's
/// destruction, the least hold, the day from which it is due, and the day of the request; and the verdict, as
/// `Debug` shows it. `-` means none.
static KNOWN: &str = "
dispose allowed - - 2025-02-28 2025-02-28 => Allow
dispose allowed - - 2025-02-28 2025-02-27 => NotDue(2025-02-28)
dispose allowed - 2 2025-02-28 2025-02-27 => Held(2)
dispose allowed 2025-02-27 2 2025-02-28 2025-02-27 => Gone(2025-02-27)
dispose denied 2025-02-27 2 2025-02-28 2025-02-27 => DeniedByDefault
dispose allowed - - - 2025-02-28 => Permanent
audit allowed - 2 2025-02-28 2025-02-27 => Allow
";

/// The day from which a deposit is due, or never.
fn due_from(day: &str) -> Due {
    match Day::read(day) {
        Some(day) => Due::On(day.date()),
        None => Due::Never,
    }
}

/// The verdict on what the words say, where they are the words of a row.
fn verdict_on(words: &[&str]) -> Option<Verdict> {
    let [action, rule, gone, hold, due, day] = words else {
        return None;
    };
    let allows = Decision {
        rule: 2,
        effect: Effect::Allow,
    };
    let facts = Facts {
        action: Action::read(action)?,
        decision: if *rule == "allowed" {
            Some(allows)
        } else {
            None
        },
        gone: Day::read(gone),
        hold: hold.parse().ok(),
        due: due_from(due),
    };
    Some(verdict(&facts, Day::read(day)?))
}

/// The verdict in words, or no text.
fn verdict_words(alloc: Global, known: &str) -> Result<String, AllocError> {
    let words: Vec<&str> = known.split(' ').collect(alloc)?;
    match verdict_on(words.as_slice()) {
        Some(verdict) => format!(in alloc; "{verdict:?}"),
        None => Ok(String::new(alloc)),
    }
}

#[test]
fn verdicts(rt: HostRuntime) -> Result<(), Fail> {
    for (known, verdict) in &rows_of(rt.alloc(), KNOWN, 7)? {
        let said = verdict_words(rt.alloc(), known)?;
        holds(&rt, said.as_str() == *verdict, known);
    }
    assert!(rt; denial_verdict(None) == Some(Verdict::DeniedByDefault));
    Ok(())
}
