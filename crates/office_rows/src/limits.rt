//! The limits of an office.

ghost use Rattle.std.specs.Prelude.{◌≡◌};
ghost use Rattle.office_rows.specs.Rows.{is_limit};

/// The greatest limit that an office may have, of deposits and of holds.
pub const MAX_LIMIT: u32 = 1_000_000;

/// Whether an office may have this limit: it is from 1 to 1,000,000.
pub fn is_limit(number: i64) -> bool
    ensures { result ≡ is_limit number }
{
    1 <= number && number <= i64::from(MAX_LIMIT)
}
