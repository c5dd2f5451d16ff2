//! The rules of a policy, and which of them decides.

ghost use Rattle.std.specs.Prelude.{◌≡◌, true, option_copied, IfSome};
ghost use Rattle.office_core.specs.Rules.{question_of, matches_name, matches_optional, matches_action, counts_on, matches, first_place, decision_of};

use crate::action::Action;
use crate::day::Day;
use crate::names::OwnedName;

/// What a rule says of what it matches.
#[derive(Clone, Copy, Debug, PartialEq, Eq)]
pub enum Effect {
    Allow,
    Deny,
}

/// What a rule asks of a role, a collection or a class.
#[derive(Debug, Drop)]
pub enum Pattern {
    /// `*`: everything, also an absent name.
    Any,
    /// That name alone.
    Named(OwnedName),
}

/// What a rule asks of an action.
#[derive(Clone, Copy, Debug)]
pub enum ActionPattern {
    /// `*`: every action.
    Any,
    /// That action alone.
    Only(Action),
}

/// A rule of a policy: its effect, what it asks of a role, an action, a collection and a class, and
/// the days on which it counts.
#[derive(Debug, Drop)]
pub struct Rule {
    pub effect: Effect,
    pub role: Pattern,
    pub action: ActionPattern,
    pub collection: Pattern,
    pub class: Pattern,
    /// The first day on which it counts: the first of the office where it isn't bounded.
    pub first: Day,
    /// The last day on which it counts: the last of the office where it isn't bounded.
    pub last: Day,
}

/// What the rules are asked: may that role do that on that day, in that collection and class, where
/// there are such?
#[derive(Clone, Copy, Debug)]
pub struct Ask<'a> {
    pub role: &'a str,
    pub action: Action,
    pub collection: Option<&'a str>,
    pub class: Option<&'a str>,
    pub day: Day,
}

/// The rule that decides: its number, from 1, and its effect.
#[derive(Clone, Copy, Debug, PartialEq, Eq)]
pub struct Decision {
    pub rule: usize,
    pub effect: Effect,
}

impl Pattern {
    fn matches(&self, name: &str) -> bool
        ensures { result ≡ matches_name self.now name.now }
    {
        match self {
            Pattern::Any => true,
            Pattern::Named(only) => only.as_str() == name,
        }
    }

    fn matches_optional(&self, name: Option<&str>) -> bool
        ensures { result ≡ matches_optional self.now (option_copied name.entry) }
    {
        match self {
            Pattern::Any => true,
            Pattern::Named(only) => match name {
                Some(name) => only.as_str() == name,
                None => false,
            },
        }
    }
}

impl ActionPattern {
    fn matches(self, action: Action) -> bool
        ensures { result ≡ matches_action self action }
    {
        match self {
            ActionPattern::Any => true,
            ActionPattern::Only(only) => only.as_str() == action.as_str(),
        }
    }
}

impl Rule {
    fn counts_on(&self, day: Day) -> bool
        ensures { result ≡ counts_on self.now day }
    {
        self.first.number() <= day.number() && day.number() <= self.last.number()
    }

    fn matches(&self, ask: &Ask) -> bool
        ensures { result ≡ matches self.now (question_of ask.now) }
    {
        self.role.matches(ask.role)
            && self.action.matches(ask.action)
            && self.collection.matches_optional(ask.collection)
            && self.class.matches_optional(ask.class)
            && self.counts_on(ask.day)
    }
}

/// The place, from 0, of the first rule whose four patterns match and that counts on the day.
pub fn first_match(rules: &[Rule], ask: &Ask) -> Option<usize>
    ensures { result ≡ first_place rules.now (question_of ask.now) }
{
    rules.iter().position(|rule| rule.matches(ask))
}

/// The rule that decides, if one matches.
pub fn decide(rules: &[Rule], ask: &Ask) -> Option<Decision>
    ensures { result ≡ decision_of rules.now (question_of ask.now) }
{
    let place = first_match(rules, ask)?;
    let rule = rules.get(place)?;
    Some(Decision {
        rule: place + 1,
        effect: rule.effect,
    })
}
