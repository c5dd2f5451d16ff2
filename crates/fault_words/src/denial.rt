//! Why a policy denies what is asked, in words.

ghost use Rattle.std.specs.Prelude.{◌≡◌, Some};
ghost use Rattle.fault_words.specs.Denials.{action_words, counts_always, days_words, denial_words, pattern_words, scope_words, undecided_words};

use office_core::{ActionPattern, Day, Pattern, Rule};
use std::fmt;

/// What a rule asks of the action, the collection or another part that this word names.
#[derive(Clone, Copy)]
struct Asks<'a> {
    what: &'a str,
    pattern: &'a Pattern,
}

impl<'a> fmt::Display for Asks<'a> {
    ghost output = { λ asks. Some (pattern_words asks.what.now asks.pattern.now) };

    fn fmt<W: fmt::Write>(&self, f: &mut fmt::Formatter<W>) -> fmt::Result {
        let what = self.what;
        match self.pattern {
            Pattern::Any => write!(f, "any {what}"),
            Pattern::Named(name) => {
                let name = name.as_str();
                write!(f, "{what} {name}")
            }
        }
    }
}

/// What a rule asks of an action.
#[derive(Clone, Copy)]
struct AsksAction(ActionPattern);

impl fmt::Display for AsksAction {
    ghost output = { λ asks. Some (action_words asks.0) };

    fn fmt<W: fmt::Write>(&self, f: &mut fmt::Formatter<W>) -> fmt::Result {
        match self.0 {
            ActionPattern::Any => f.write_str("any action"),
            ActionPattern::Only(action) => write!(f, "action {action}"),
        }
    }
}

/// Whether the rule counts on each day of the office.
fn counts_always(rule: &Rule) -> bool
    ensures { result ≡ counts_always rule.now }
{
    rule.first.number() <= Day::first().number() && Day::last().number() <= rule.last.number()
}

/// The days on which a rule counts, where these aren't all.
#[derive(Clone, Copy)]
struct Days<'a>(&'a Rule);

impl<'a> fmt::Display for Days<'a> {
    ghost output = { λ days. Some (days_words days.0.now) };

    fn fmt<W: fmt::Write>(&self, f: &mut fmt::Formatter<W>) -> fmt::Result {
        if counts_always(self.0) {
            return Ok(());
        }
        let first = self.0.first;
        let last = self.0.last;
        write!(f, ", from {first} to {last}")
    }
}

/// The collections, the classes and the days of which a rule speaks.
#[derive(Clone, Copy)]
struct Scope<'a>(&'a Rule);

impl<'a> fmt::Display for Scope<'a> {
    ghost output = { λ scope. Some (scope_words scope.0.now) };

    fn fmt<W: fmt::Write>(&self, f: &mut fmt::Formatter<W>) -> fmt::Result {
        let collection = Asks {
            what: "collection",
            pattern: &self.0.collection,
        };
        let class = Asks {
            what: "class",
            pattern: &self.0.class,
        };
        let days = Days(self.0);
        write!(f, "{collection}, {class}{days}")
    }
}

/// The rule of a policy that denies what is asked, and its number from 1, to be printed as a sentence
/// that says so.
#[derive(Clone, Copy)]
pub struct DenyingRule<'a> {
    pub number: usize,
    pub rule: &'a Rule,
}

impl<'a> fmt::Display for DenyingRule<'a> {
    ghost output = { λ denying. Some (denial_words denying.number denying.rule.now) };

    fn fmt<W: fmt::Write>(&self, f: &mut fmt::Formatter<W>) -> fmt::Result {
        let number = self.number;
        let role = Asks {
            what: "role",
            pattern: &self.rule.role,
        };
        let action = AsksAction(self.rule.action);
        let scope = Scope(self.rule);
        write!(
            f,
            "rule {number} of the policy denies it: {role}, {action}, {scope}"
        )
    }
}

/// What is said where no rule of a policy matches what is asked.
pub fn undecided_words() -> &'static str
    ensures { result.now ≡ undecided_words }
{
    "no rule of the policy matches, so it is denied by default"
}
