//! Why a value of a policy file is no rule.

/// Why a value is no rule.
#[derive(Clone, Copy, Debug)]
pub enum RuleFlaw {
    Bad,
    Memory,
}
