//! What `explain` says of a policy file.

ghost use Rattle.std.specs.Prelude.{◌≡◌, ℕ, IfOk, IfSome, IsUtf8, List, None, Some, option_copied, option_map, string_bytes};
ghost use Rattle.jiff.specs.Types.{Date};
ghost use Rattle.office_core.specs.Days.{IsDay};
ghost use Rattle.office_core.specs.Policies.{PolicyValue, may_have_days};
ghost use Rattle.office_core.specs.declared.policy_fault.PolicyFault.{PolicyFault};
ghost use Rattle.commands.specs.Printing.{Prints};
ghost use Rattle.commands.specs.Explaining.{Explains, HasFault, IsAllowedBy, IsDeniedBy, IsOnDay, IsUndecided, SaysBadPolicy, SaysDayMissing, SaysDecision, SpellsPolicyBytes, WantsDay, allow_text, bad_policy_text, decision_on, default_line, default_lines, default_text, denial_line, denied_lines, deny_text, is_caller_listed, unlisted_line, with_line};
ghost use Rattle.commands.specs.PolicyFiles.{IsAllOf};
ghost use Rattle.commands.specs.declared.ending.Ending.TheVariants.{Accepted, Refused};

use crate::asked::Asked;
use crate::ending::Ending;
use crate::outcome::Outcome;
use crate::policy_file::{RefusedPolicy, policy_in};
use crate::trouble::Trouble;
use fault_words::{DenyingRule, Unlisted, missing_day_words, undecided_words};
use office_core::{Ask, Day, Decision, Effect, Name, Policy, decide, may_have_days};
use std::alloc::{AllocError, Global};
use std::io::Read;

/// The text of a name, where there is one.
fn text_of<'a>(name: &Option<Name<'a>>) -> Option<&'a str>
    ensures { option_copied result ≡ name.now }
{
    match name {
        Some(name) => Some(name.as_str()),
        None => None,
    }
}

/// Whether the policy lists the caller.
fn is_caller_listed(policy: &Policy, caller: &str) -> bool
    ensures { result ≡ is_caller_listed policy.now caller.now }
{
    let callers = policy.callers();
    callers.iter().any(|listed| listed.name.as_str() == caller)
}

/// What is printed of the caller to standard error: that the policy doesn't list it, where that is so.
fn unlisted_line(alloc: Global, policy: &Policy, caller: &str) -> Result<Option<String>, AllocError>
    ensures { IfOk result (λ line.
        option_map string_bytes line ≡ unlisted_line policy.now caller.now) }
{
    if is_caller_listed(policy, caller) {
        return Ok(None);
    }
    let words = Unlisted(caller);
    Ok(Some(format!(in alloc; "{words}\n")?))
}

/// The line after the one before it, where there is one.
fn with_line(before: Option<String>, line: String) -> Result<String, AllocError>
    ensures { IfOk result (λ lines.
        string_bytes lines ≡ with_line (option_map string_bytes before) (string_bytes line)) }
{
    let Some(before) = before else {
        return Ok(line);
    };
    let mut lines = before;
    lines.push_str(line.as_str())?;
    Ok(lines)
}

/// What is printed of the rule of this number, which denies.
fn denial_line(alloc: Global, policy: &Policy, number: usize) -> Result<String, AllocError>
    ensures { IfOk result (λ line. string_bytes line ≡ denial_line policy.now number) }
{
    match policy.rules().get(number.saturating_sub(1)) {
        Some(rule) => {
            let words = DenyingRule { number, rule };
            format!(in alloc; "{words}\n")
        }
        None => Ok(String::new(alloc)),
    }
}

/// What is printed to standard error where no rule matches.
fn default_line(alloc: Global) -> Result<String, AllocError>
    ensures { IfOk result (λ line. string_bytes line ≡ default_line) }
{
    let words = undecided_words();
    format!(in alloc; "{words}\n")
}

/// What is said where this rule of the policy decides, or none. Why it is denied is printed to standard
/// error, after what is printed there in any case.
fn decision_outcome(
    alloc: Global,
    policy: &Policy,
    decision: Option<Decision>,
    told: Option<String>,
) -> Result<Outcome, AllocError>
    ensures { IfOk result (SaysDecision policy.now (option_map string_bytes told) decision) }
{
    let Some(Decision { rule, effect }) = decision else {
        return Ok(Outcome {
            text: String::from_str(alloc, "deny default\n")?,
            reason: Some(with_line(told, default_line(alloc)?)?),
            ending: Ending::Refused,
        });
    };
    match effect {
        Effect::Allow => Ok(Outcome {
            text: format!(in alloc; "allow rule {rule}\n")?,
            reason: told,
            ending: Ending::Accepted,
        }),
        Effect::Deny => Ok(Outcome {
            text: format!(in alloc; "deny rule {rule}\n")?,
            reason: Some(with_line(told, denial_line(alloc, policy, rule)?)?),
            ending: Ending::Refused,
        }),
    }
}

/// What is said of a policy on that day.
fn policy_outcome(
    alloc: Global,
    policy: &Policy,
    asked: &Asked<'_>,
    day: Day,
) -> Result<Outcome, AllocError>
    ensures says { IfOk result (SaysDecision policy.now
        (unlisted_line policy.now asked.now.caller.now)
        (decision_on policy.now asked.now day)) }
    ensures day { IsDay day }
{
    let _date = day.date();
    let told = unlisted_line(alloc, policy, asked.caller)?;
    let ask = Ask {
        role: policy.role_of(asked.caller),
        action: asked.action,
        collection: text_of(&asked.collection),
        class: text_of(&asked.class),
        day,
    };
    decision_outcome(alloc, policy, decide(policy.rules(), &ask), told)
}

/// Whether the rules of the policy that the bytes are may have days.
fn may_be_dated(alloc: Global, bytes: &[u8]) -> Result<bool, AllocError>
    ensures { IsUtf8 bytes.now → IfOk result (λ may. may ≡ may_have_days bytes.now) }
{
    match str::from_utf8(bytes) {
        Ok(text) => may_have_days(alloc, text),
        Err(_) => Ok(false),
    }
}

/// What is said where a day is missing.
fn undated_outcome(alloc: Global) -> Result<Outcome, AllocError>
    ensures { IfOk result SaysDayMissing }
{
    let words = missing_day_words();
    Ok(Outcome {
        text: String::new(alloc),
        reason: Some(format!(in alloc; "{words}\n")?),
        ending: Ending::Misused,
    })
}

/// What is said of the policy that the bytes are, where no day is named. Where its rules have no days,
/// it is the same on each.
fn outcome_without_day(
    alloc: Global,
    bytes: &[u8],
    policy: &Policy,
    asked: &Asked<'_>,
) -> Result<Outcome, AllocError>
    requires text { SpellsPolicyBytes bytes.now policy.now }
    requires no_day { asked.now.day ≡ None }
    ensures { IfOk result (Explains bytes.now asked.now) }
{
    if may_be_dated(alloc, bytes)? {
        return undated_outcome(alloc);
    }
    policy_outcome(alloc, policy, asked, Day::first())
}

/// What is said of the policy that the bytes are.
fn spelled_outcome(
    alloc: Global,
    bytes: &[u8],
    policy: &Policy,
    asked: &Asked<'_>,
) -> Result<Outcome, AllocError>
    requires { SpellsPolicyBytes bytes.now policy.now }
    ensures { IfOk result (Explains bytes.now asked.now) }
{
    match asked.day {
        Some(day) => policy_outcome(alloc, policy, asked, day),
        None => outcome_without_day(alloc, bytes, policy, asked),
    }
}

/// What is said of a file that is no policy.
fn refused_outcome(alloc: Global, refused: RefusedPolicy) -> Result<Outcome, AllocError>
    ensures { IfOk result (λ outcome. Prints outcome (bad_policy_text refused.fault)
        (Some (string_bytes refused.reason)) Refused) }
{
    let text = refused.line(alloc)?;
    Ok(Outcome {
        text,
        reason: Some(refused.reason),
        ending: Ending::Refused,
    })
}

/// What is said of the bytes.
fn bytes_outcome(alloc: Global, bytes: &[u8], asked: &Asked<'_>) -> Result<Outcome, AllocError>
    ensures { IfOk result (Explains bytes.now asked.now) }
{
    match policy_in(alloc, bytes)? {
        Ok(policy) => spelled_outcome(alloc, bytes, &policy, asked),
        Err(refused) => refused_outcome(alloc, refused),
    }
}

/// Says which rule of the policy decides: the line that `explain` prints of the bytes of the policy
/// file, what is printed to standard error, and how it ends.
pub fn explain_outcome(
    alloc: Global,
    bytes: &[u8],
    asked: &Asked<'_>,
) -> Result<Outcome, AllocError>
    // What is said is so.
    ensures says { IfOk result (Explains bytes.now asked.now) }

    // Where the first rule that matches on that day allows, its number is said, from 1. Where the policy
    // doesn't list the caller, standard error says so. Where no rule of the policy may have days, that is
    // said whichever day is named, and where none is.
    ensures allowed { (policy : PolicyValue) (day : Date) (rule : ℕ)
        → SpellsPolicyBytes bytes.now policy → IsOnDay bytes.now asked.now day
        → IsAllowedBy policy asked.now day rule
        → IfOk result (λ outcome. Prints outcome (allow_text rule)
        (unlisted_line policy asked.now.caller.now) Accepted) }
    // And likewise where it denies: then standard error has the rule in words too.
    ensures denied { (policy : PolicyValue) (day : Date) (rule : ℕ)
        → SpellsPolicyBytes bytes.now policy → IsOnDay bytes.now asked.now day
        → IsDeniedBy policy asked.now day rule
        → IfOk result (λ outcome. Prints outcome (deny_text rule)
        (Some (denied_lines policy asked.now.caller.now rule)) Refused) }
    // Where no rule matches, it is denied by default, and standard error says so.
    ensures by_default { (policy : PolicyValue) (day : Date)
        → SpellsPolicyBytes bytes.now policy → IsOnDay bytes.now asked.now day
        → IsUndecided policy asked.now day
        → IfOk result (λ outcome. Prints outcome default_text
        (Some (default_lines policy asked.now.caller.now)) Refused) }
    // Where rules of the policy may have days and none is named, nothing is printed. Standard error says
    // that a day is missing and why, and it ends as misused.
    ensures undated { (policy : PolicyValue) → SpellsPolicyBytes bytes.now policy
        → WantsDay bytes.now asked.now → IfOk result SaysDayMissing }
    // A file that is no policy is refused with its first fault, and standard error has it in words,
    // with its position.
    ensures refused { (fault : PolicyFault) → HasFault bytes.now fault
        → IfOk result (SaysBadPolicy bytes.now fault) }
{
    bytes_outcome(alloc, bytes, asked)
}

/// Reads all that the reader gives, to its end, and says which rule of the policy decides.
pub fn explain_policy<R: Read>(
    alloc: Global,
    asked: &Asked<'_>,
    policy: &mut R,
) -> Result<Outcome, Trouble>
    // What is said is so of all that the reader gives.
    ensures says { IfOk result (λ outcome. (bytes : List ℕ)
        × IsAllOf (R.remaining policy.old) (R.remaining policy.new) bytes
        × Explains bytes asked.now outcome) }
    ensures given { IfSome (R.remaining policy.old) (λ given.
        IfOk result (Explains given asked.now)) }
{
    let bytes = streams::read_whole(alloc, policy)?;
    Ok(bytes_outcome(alloc, bytes.as_slice(), asked)?)
}
