//! A policy: who has which role, and what the roles may do.

ghost use Rattle.std.specs.Prelude.{◌≡◌, ◌⊎◌, Err, IfErr, IfOk, MatchResult, option_copied, option_map, find, bytes_eq};
ghost use Rattle.toml.specs.View.{table_view};
ghost use Rattle.bag_text.specs.Answers.{Answers};
ghost use Rattle.office_core.specs.Policies.{PolicyValue, EachCallerOnce, HasFirstFault, IsPolicy, SpellsPolicy, callers_of, policy_of, role_of, or_stranger, named_policy_fault, may_have_days};
ghost use Rattle.office_core.specs.PolicyReading.{read_members};
ghost use Rattle.office_core.specs.declared.policy_fault.PolicyFault.{PolicyFault};
ghost use Rattle.office_core.specs.declared.policy_fault.PolicyFault.TheVariants.{Memory};

use crate::caller::Caller;
use crate::policy_fault::PolicyFault;
use crate::policy_reading::{callers_of, has_bad_version, has_days, has_top_keys, rules_of};
use crate::rule::Rule;
use std::alloc::{AllocError, Global};
use std::marker::Model;
use toml::Table;

/// How many rules a policy has at most.
pub const MAX_RULES: usize = 200;

/// How many callers a policy has at most.
pub const MAX_CALLERS: usize = 1_000;

/// A policy: callers, each with its role, and rules, of which the first that matches decides.
/// Callers, roles and what the rules ask for are names, no rule's first day comes after its last,
/// each caller occurs once, and there are at most 200 rules and 1,000 callers.
#[derive(Debug, Drop)]
pub struct Policy {
    callers: Vec<Caller>,
    rules: Vec<Rule>,
}

impl Model for Policy {
    ghost use Rattle.office_core.specs.Policies.{PolicyValue, IsPolicy, named_policy_fault};

    ghost Value = { PolicyValue };

    ghost view = { λ policy. record { callers = policy.callers.items; rules = policy.rules.items } };

    ghost invariant = { λ policy. IsPolicy (record { callers = policy.callers.items; rules = policy.rules.items }) };
}

impl Policy {
    /// The callers, each with its role.
    pub fn callers(&self) -> &[Caller]
        ensures callers { result.now ≡ self.now.callers }
        ensures policy { IsPolicy self.now }
    {
        self.callers.as_slice()
    }

    /// The rules, in the order of the file.
    pub fn rules(&self) -> &[Rule]
        ensures rules { result.now ≡ self.now.rules }
        ensures policy { IsPolicy self.now }
    {
        self.rules.as_slice()
    }

    /// The role that the policy gives a caller, else `stranger`.
    pub fn role_of(&self, caller: &str) -> &str
        ensures { result.now ≡ role_of self.now caller.now }
    {
        or_stranger(role_in(self.callers.as_slice(), caller))
    }
}

fn caller_named<'a>(callers: &'a [Caller], name: &str) -> Option<&'a Caller>
    ensures { option_copied result ≡ find (λ caller. bytes_eq caller.name name.now) callers.now }
{
    callers.iter().find(|caller| caller.name.as_str() == name)
}

fn role_in<'a>(callers: &'a [Caller], name: &str) -> Option<&'a str>
    ensures { option_copied result
        ≡ option_map (λ caller.
        caller.role) (find (λ caller. bytes_eq caller.name name.now) callers.now) }
{
    let caller = caller_named(callers, name)?;
    Some(caller.role.as_str())
}

/// The role that is given, else `stranger`.
pub fn or_stranger(role: Option<&str>) -> &str
    ensures { result.now ≡ or_stranger (option_copied role.entry) }
{
    role.unwrap_or("stranger")
}

fn read_tree(alloc: Global, tree: &Table) -> Result<Policy, PolicyFault>
    requires { EachCallerOnce (callers_of (table_view tree.now)) }
    ensures { Answers named_policy_fault result (read_members (table_view tree.now)) }
{
    if has_bad_version(tree) {
        return Err(PolicyFault::BadVersion);
    }
    if !has_top_keys(tree) {
        return Err(PolicyFault::UnknownKey);
    }
    let callers = callers_of(alloc, tree)?;
    let rules = rules_of(alloc, tree)?;
    if rules.len() > MAX_RULES || callers.len() > MAX_CALLERS {
        return Err(PolicyFault::TooMany);
    }
    Ok(Policy { callers, rules })
}

fn read_text(alloc: Global, text: &str) -> Result<Policy, PolicyFault>
    ensures { Answers named_policy_fault result (policy_of text.now) }
{
    match toml::table_from_str(alloc, text) {
        Ok(tree) => read_tree(alloc, &tree),
        Err(error) => {
            if error.is_memory() {
                Err(PolicyFault::Memory)
            } else {
                Err(PolicyFault::NotToml)
            }
        }
    }
}

/// The policy that a text spells, or the first fault of it.
pub fn read_policy(alloc: Global, text: &str) -> Result<Policy, PolicyFault>
    // What is read is the policy of the text, and each is read, unless memory runs out.
    ensures spells { IfOk result (SpellsPolicy text.now) }
    ensures reads { (policy : PolicyValue) → SpellsPolicy text.now policy
        → MatchResult result (λ read. read ≡ policy) (λ fault. fault ≡ Memory) }

    // A refusal names the first fault of the text, and where one applies it is the answer, unless
    // memory runs out.
    ensures refused { IfErr result (λ fault. (fault ≡ Memory) ⊎ HasFirstFault text.now fault) }
    ensures first_fault { (fault : PolicyFault) → HasFirstFault text.now fault
        → (result ≡ Err fault) ⊎ (result ≡ Err Memory) }

    // The same by computing.
    ensures exact { Answers named_policy_fault result (policy_of text.now) }
{
    read_text(alloc, text)
}

/// Whether the rules of a text's policy may have days: its `version` is the whole number 2. A text
/// that is no TOML has no rules, and so none with days. The error is a growth that was refused.
pub fn may_have_days(alloc: Global, text: &str) -> Result<bool, AllocError>
    ensures { IfOk result (λ may. may ≡ may_have_days text.now) }
{
    match toml::table_from_str(alloc, text) {
        Ok(tree) => Ok(has_days(&tree)),
        Err(error) => {
            if error.is_memory() {
                Err(AllocError)
            } else {
                Ok(false)
            }
        }
    }
}
