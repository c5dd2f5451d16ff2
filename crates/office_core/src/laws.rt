//! Laws of the definitions alone.

ghost use Rattle.std.specs.Prelude.{◌≡◌, ◌≢◌, ◌↔◌, ◌++◌, ◌≤ℤ◌, ℕ, pos, List, Option, Some, None, IsSomeAnd, true, false, position, slice_get};
ghost use Rattle.std.specs.List.{AllByRecursion};
ghost use Rattle.jiff.specs.Types.{Date};
ghost use Rattle.jiff.specs.Words.{epoch_day};
ghost use Rattle.office_core.specs.Policies.{PolicyValue, SpellsPolicy, SpellsRules, SpellsCallers, IsPolicy, WritesDays, may_have_days, rule_table_at, version_number_in};
ghost use Rattle.office_core.specs.Rules.{Question, HasNoDays, IsFirstMatch, NoneMatches, asked_on, counts_on, matches, patterns_match, first_place, decision_of, some_rule_allows};
ghost use Rattle.office_core.specs.Days.{IsDay};
ghost use Rattle.office_core.specs.Requests.{IsYears};
ghost use Rattle.office_core.specs.Retention.{IsDue};
ghost use Rattle.office_core.specs.RetentionReading.{due_of};
ghost use Rattle.office_core.specs.declared.retention.Due.{Due};
ghost use Rattle.office_core.specs.Verdicts.{verdict_of, is_denied, IsReadyForDisposal};
ghost use Rattle.office_core.specs.declared.rule.Rule.{Rule};
ghost use Rattle.office_core.specs.declared.rule.Decision.{Decision};
ghost use Rattle.office_core.specs.declared.action.Action.TheVariants.{Dispose};
ghost use Rattle.office_core.specs.declared.facts.Facts.{Facts};
ghost use Rattle.office_core.specs.declared.facts.Verdict.TheVariants.{Allow};

/// The rule that decides is the first that matches: it matches, and none before it does. There is
/// none exactly where no rule matches.
pub fn first_matching_rule()
    ensures place { (rules : List Rule) (asked : Question) (place : ℕ)
        → (first_place rules asked ≡ Some place) ↔ IsFirstMatch rules asked place }
    ensures none { (rules : List Rule) (asked : Question)
        → (first_place rules asked ≡ None) ↔ NoneMatches rules asked }
{}

/// Rules that are added after a list never change an answer that some rule of the list gave.
pub fn added_rules()
    ensures { (rules more : List Rule) (asked : Question) (decision : Decision)
        → decision_of rules asked ≡ Some decision
        → decision_of (rules ++ more) asked ≡ Some decision }
{}

/// A rule counts on its days alone, from its first to its last, both included. On any other day it
/// matches nothing, and decides nothing.
pub fn rule_outside_its_days()
    ensures days { (rule : Rule) (day : Date)
        → (counts_on rule day ≡ true)
        ↔ ((epoch_day rule.first ≤ℤ epoch_day day) × (epoch_day day ≤ℤ epoch_day rule.last)) }
    ensures matches { (rule : Rule) (asked : Question)
        → counts_on rule asked.day ≡ false → matches rule asked ≡ false }
    ensures decides { (rules : List Rule) (asked : Question) (place : ℕ) (rule : Rule)
        → slice_get rules place ≡ Some rule → counts_on rule asked.day ≡ false
        → first_place rules asked ≢ Some place }
{}

/// A rule that counts on each day of the office matches exactly where its four patterns do, as a rule
/// of version 1 of the policy file does. Of such rules the first whose patterns match decides, on each
/// of the office's days alike.
pub fn rules_without_days()
    ensures matches { (rule : Rule) (asked : Question)
        → HasNoDays rule → IsDay asked.day
        → matches rule asked ≡ patterns_match rule asked }
    ensures decides { (rules : List Rule) (asked : Question)
        → AllByRecursion HasNoDays rules → IsDay asked.day
        → first_place rules asked ≡ position (λ rule. patterns_match rule asked) rules }
    ensures alike { (rules : List Rule) (asked : Question) (day other : Date)
        → AllByRecursion HasNoDays rules → IsDay day → IsDay other
        → decision_of rules (asked_on day asked) ≡ decision_of rules (asked_on other asked) }
{}

/// A policy in which no allow rule's role pattern matches a role denies that role everything.
pub fn no_allow_rule()
    ensures { (rules : List Rule) (asked : Question)
        → some_rule_allows rules asked.role ≡ false
        → (facts : Facts) (day : Date) → facts.decision ≡ decision_of rules asked
        → is_denied (verdict_of facts day) ≡ true }
{}

/// A disposal is allowed exactly where the deciding rule allows, the deposit is there, no hold
/// covers it, and the due day is a day that has come.
pub fn allowed_disposal()
    ensures { (facts : Facts) (day : Date) → facts.action ≡ Dispose
        → (verdict_of facts day ≡ Allow) ↔ IsReadyForDisposal facts day }
{}

/// What a text spells is a policy: it asks for names, the days of a rule are days of the office, the
/// first not after the last, each caller occurs once, and there are no more rules and callers than a
/// policy may have.
pub fn spelled_policies()
    ensures { (text : List ℕ) (policy : PolicyValue)
        → SpellsPolicy text policy → IsPolicy policy }
{}

/// The values of the array `rule` of a text are the rules of its policy, one for one and in their
/// order, and so are the entries of the table `callers`.
pub fn spelled_in_order()
    ensures rules { (text : List ℕ) (policy : PolicyValue) (spells : SpellsPolicy text policy)
        → SpellsRules spells.tree policy.rules }
    ensures callers { (text : List ℕ) (policy : PolicyValue) (spells : SpellsPolicy text policy)
        → SpellsCallers spells.tree policy.callers }
{}

/// The rules that a text of version 1 spells count on each day of the office, and so do those of each
/// text whose rules may have no days.
pub fn version_1_has_no_days()
    ensures version { (text : List ℕ) (policy : PolicyValue) (spells : SpellsPolicy text policy)
        → version_number_in spells.tree ≡ Some (pos 1)
        → AllByRecursion HasNoDays policy.rules }
    ensures text { (text : List ℕ) (policy : PolicyValue)
        → SpellsPolicy text policy → may_have_days text ≡ false
        → AllByRecursion HasNoDays policy.rules }
{}

/// The days of each rule that a text spells are those that its table writes, the first and the last
/// of the office where it writes none.
pub fn written_days()
    ensures { (text : List ℕ) (policy : PolicyValue) (spells : SpellsPolicy text policy)
        (place : ℕ) (rule : Rule) → slice_get policy.rules place ≡ Some rule
        → IsSomeAnd (rule_table_at spells.tree place) (λ table. WritesDays table rule) }
{}

/// The due day that is computed is the one that the calendar has, of each day of the office and of
/// all years that a class can have.
pub fn one_due()
    ensures only { (closing : Date) (years : Option ℕ) (due : Due)
        → IsDue closing years due → due_of closing years ≡ due }
    ensures computed { (closing : Date) (years : Option ℕ)
        → IsDay closing → IsYears years → IsDue closing years (due_of closing years) }
{}
