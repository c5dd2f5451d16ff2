//! The limits of an office.

ghost use Rattle.std.specs.Prelude.{◌≡◌, pos, IsSome, IfSome, ◌↔◌};
ghost use Rattle.office_rows.specs.Rows.{IsLimit};

use office_rows::is_limit;

/// The most deposits that an office accepts, and the most holds: 1 to 1,000,000 each.
#[derive(Clone, Copy, Debug, PartialEq, Eq)]
pub struct Limits {
    /// How many deposits the office accepts.
    pub deposits: u32,
    /// How many holds the office accepts.
    pub holds: u32,
    pub ghost deposits_limit: { IsLimit (pos deposits) },
    pub ghost holds_limit: { IsLimit (pos holds) },
}

impl Limits {
    /// The limits with these numbers, where both are in range.
    pub fn new(deposits: u32, holds: u32) -> Option<Limits>
        ensures range { IsSome result ↔ (IsLimit (pos deposits) × IsLimit (pos holds)) }
        ensures value { IfSome result (λ limits.
            (limits.deposits ≡ deposits) × (limits.holds ≡ holds)) }
    {
        if !is_limit(deposits.into()) || !is_limit(holds.into()) {
            return None;
        }
        Some(Limits { deposits, holds })
    }
}
