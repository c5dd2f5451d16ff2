//! Days as the tables keep them.

ghost use Rattle.std.specs.Prelude.{◌≡◌};
ghost use Rattle.jiff.specs.Words.{epoch_day};

use office_core::Day;

/// The number of a day.
pub(crate) fn stored_day(day: Day) -> i64
    ensures { result ≡ epoch_day day }
{
    day.number() as i64
}
