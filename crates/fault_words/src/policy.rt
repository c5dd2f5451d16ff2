//! Why a file is no policy, and what a question leaves out or a policy says nothing of, in words.

ghost use Rattle.std.specs.Prelude.{◌≡◌, Some};
ghost use Rattle.std.specs.Fmt.{DisplaysOnOk};
ghost use Rattle.office_core.specs.declared.policy_fault.PolicyFault.TheVariants.{TooMany};
ghost use Rattle.fault_words.specs.FaultWords.{missing_day_words, policy_words, unlisted_words};

use crate::escaped::Escaped;
use crate::in_words::InWords;
use crate::number::Grouped;
use office_core::{MAX_CALLERS, MAX_RULES, PolicyFault};
use std::fmt;

/// Says that there are more rules or callers than a policy may have.
fn write_too_many<W: fmt::Write>(f: &mut fmt::Formatter<W>) -> fmt::Result
    ensures { DisplaysOnOk W.write_str_gives f.old result (Some (policy_words TooMany)) f.new }
{
    let rules = Grouped(MAX_RULES);
    let callers = Grouped(MAX_CALLERS);
    write!(
        f,
        "the policy has more than {rules} rules or more than {callers} callers (Y6)"
    )
}

impl<'a> fmt::Display for InWords<'a, PolicyFault> {
    ghost output = { λ words. Some (policy_words words.0.now) };

    fn fmt<W: fmt::Write>(&self, f: &mut fmt::Formatter<W>) -> fmt::Result {
        match self.0 {
            PolicyFault::NotToml => f.write_str("the policy is no text in TOML (Y1)"),
            PolicyFault::BadVersion => f.write_str(
                "the policy has no version, or one that is neither the whole number 1 nor 2 (Y2)",
            ),
            PolicyFault::UnknownKey => f.write_str(
                "the policy has a key at the top other than version, callers and rule (Y3)",
            ),
            PolicyFault::BadCaller => f.write_str(
                "the callers of the policy are no table, or a caller or a role is no name (Y4)",
            ),
            PolicyFault::BadRule(0) => f.write_str(
                "the rules of the policy are no array: each begins with the line [[rule]] (Y5)",
            ),
            PolicyFault::BadRule(number) => write!(
                f,
                "rule {number} of the policy is not well formed: it is effect, role, action, collection and class, each with a value that it may have, and under version 2 it may have first and last, days of which first is not after last (Y5)"
            ),
            PolicyFault::TooMany => write_too_many(f),
            PolicyFault::Memory => f.write_str("memory ran out (Y7)"),
        }
    }
}

/// What is said of a question that names no day, where the rules of the policy may have days.
pub fn missing_day_words() -> &'static str
    ensures { result.now ≡ missing_day_words }
{
    "the option --day DAY is missing: the policy has version 2, in which rules may count on certain days alone"
}

/// A caller whom a policy doesn't list, to be printed as a sentence that says so.
#[derive(Clone, Copy)]
pub struct Unlisted<'a>(pub &'a str);

impl<'a> fmt::Display for Unlisted<'a> {
    ghost output = { λ caller. Some (unlisted_words caller.0.now) };

    fn fmt<W: fmt::Write>(&self, f: &mut fmt::Formatter<W>) -> fmt::Result {
        let caller = Escaped(self.0);
        write!(
            f,
            "the caller {caller} is not in the policy, and has the role stranger"
        )
    }
}
