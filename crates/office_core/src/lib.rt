//! Days, retention, names, the policy and its verdicts: what the office decides, without its
//! tables.
#![tactic(auto)]

mod action;
mod answer;
mod caller;
mod closing;
mod date;
mod day;
mod deciding;
mod description;
mod facts;
pub mod laws;
mod limits;
mod names;
mod policy;
mod policy_fault;
mod policy_reading;
mod refusal;
mod request;
mod retention;
mod rule;
mod rule_flaw;
mod rule_reading;
mod sequence;
mod text;
mod text_kind;
pub mod tree;

pub use action::Action;
pub use answer::{Answer, AuditReport, DepositRecord, LiveHold, Scope};
pub use caller::Caller;
pub use closing::{due, due_date};
pub use date::Date;
pub use day::{Day, FIRST_DAY_NUMBER, LAST_DAY_NUMBER};
pub use deciding::{denial_verdict, verdict};
pub use description::{Description, DescriptionOf, OwnedDescription};
pub use facts::{Facts, Verdict};
pub use limits::Limits;
pub use names::{
    Accession, MAX_ACCESSION, MAX_MATTER, MAX_NAME, Matter, Name, OwnedAccession, OwnedMatter,
    OwnedName,
};
pub use policy::{MAX_CALLERS, MAX_RULES, Policy, may_have_days, or_stranger, read_policy};
pub use policy_fault::PolicyFault;
pub use policy_reading::has_days;
pub use refusal::{Refusal, Subject};
pub use request::Request;
pub use retention::{Due, MAX_YEARS, Years};
pub use rule::{ActionPattern, Ask, Decision, Effect, Pattern, Rule, decide, first_match};
pub use sequence::Sequence;
pub use text::FaultText;
pub use text_kind::{OwnedText, Text, TextKind};
