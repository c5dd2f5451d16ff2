//! Why a policy is refused.

ghost use Rattle.std.specs.Prelude.{◌≡◌, Some};
ghost use Rattle.office_core.specs.FaultTexts.{policy_fault_text};
ghost use Rattle.office_core.specs.declared.policy_fault.PolicyFault.TheVariants.{Memory};

use std::alloc::AllocFailed;
use std::error::Error;
use std::fmt;

/// Why a text is no policy. The first that applies is named.
#[derive(Clone, Copy, Debug, PartialEq, Eq)]
pub enum PolicyFault {
    /// Y1: the text is no TOML.
    NotToml,
    /// Y2: `version` is missing, or is neither the whole number 1 nor 2.
    BadVersion,
    /// Y3: another key at the top than `version`, `callers` and `rule`.
    UnknownKey,
    /// Y4: `callers` is no table, or a caller or a role is no name.
    BadCaller,
    /// Y5: that rule, counted from 1, is malformed: a key is missing, or one that it may not have, or a
    /// key has a wrong value, or its first day comes after its last; 0 where `rule` is no array.
    BadRule(usize),
    /// Y6: more than 200 rules, or more than 1,000 callers.
    TooMany,
    /// Y7: a growth was refused.
    Memory,
}

impl<T: Drop> From<AllocFailed<T>> for PolicyFault {
    ghost from_gives = { λ _ e. e ≡ Memory };

    fn from(_e: AllocFailed<T>) -> PolicyFault {
        PolicyFault::Memory
    }
}

impl fmt::Display for PolicyFault {
    ghost output = { λ fault. Some (policy_fault_text fault) };

    fn fmt<W: fmt::Write>(&self, f: &mut fmt::Formatter<W>) -> fmt::Result {
        match self {
            PolicyFault::NotToml => f.write_str("Y1"),
            PolicyFault::BadVersion => f.write_str("Y2"),
            PolicyFault::UnknownKey => f.write_str("Y3"),
            PolicyFault::BadCaller => f.write_str("Y4"),
            PolicyFault::BadRule(number) => write!(f, "Y5 {number}"),
            PolicyFault::TooMany => f.write_str("Y6"),
            PolicyFault::Memory => f.write_str("Y7"),
        }
    }
}

impl Error for PolicyFault {}
