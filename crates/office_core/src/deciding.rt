//! What the office decides, once the facts are known.

ghost use Rattle.std.specs.Prelude.{◌≡◌, int_lt};
ghost use Rattle.jiff.specs.Words.{epoch_day};
ghost use Rattle.office_core.specs.Verdicts.{denial_verdict, disposal_of, verdict_of};

use crate::action::Action;
use crate::date::Date;
use crate::day::Day;
use crate::facts::{Facts, Verdict};
use crate::retention::Due;
use crate::rule::{Decision, Effect};

fn is_before(day: Day, date: Date) -> bool
    ensures { result ≡ int_lt (epoch_day day) (epoch_day date) }
{
    day.number() < date.number()
}

/// The verdict of the rules alone, where they refuse: the rule that decides denies, or none does.
pub fn denial_verdict(decision: Option<Decision>) -> Option<Verdict>
    ensures { result ≡ denial_verdict decision }
{
    match decision {
        None => Some(Verdict::DeniedByDefault),
        Some(decision) => match decision.effect {
            Effect::Allow => None,
            Effect::Deny => Some(Verdict::DeniedByRule(decision.rule)),
        },
    }
}

/// The verdict on those facts that day: the first refusal that applies, in the order of `Verdict`,
/// of which the last three are of disposals alone.
pub fn verdict(facts: &Facts, day: Day) -> Verdict
    ensures { result ≡ verdict_of facts.now day }
{
    if let Some(verdict) = denial_verdict(facts.decision) {
        return verdict;
    }
    if let Some(gone) = facts.gone {
        return Verdict::Gone(gone);
    }
    if let Action::Dispose = facts.action {
        return disposal(facts.hold, facts.due, day);
    }
    Verdict::Allow
}

/// The verdict on a disposal that the rules allow.
fn disposal(hold: Option<u32>, due: Due, day: Day) -> Verdict
    ensures { result ≡ disposal_of hold due day }
{
    if let Some(hold) = hold {
        return Verdict::Held(hold);
    }
    match due {
        Due::On(date) => {
            if is_before(day, date) {
                Verdict::NotDue(date)
            } else {
                Verdict::Allow
            }
        }
        Due::Never => Verdict::Permanent,
    }
}
