//! The day from which a deposit may be destroyed.

ghost use Rattle.std.specs.Prelude.{◌≡◌, ◌≤◌, ◌+ℤ◌, ◌↔◌, pos, IfSome, IsSome};
ghost use Rattle.jiff.specs.Words.{epoch_day};
ghost use Rattle.office_core.specs.Bounds.{max_years};
ghost use Rattle.office_core.specs.Days.{IsDay, IsYearsAfter};
ghost use Rattle.office_core.specs.Retention.{IsDue, IsDueNumber};
ghost use Rattle.office_core.specs.RetentionReading.{due_of};

use crate::date::Date;
use crate::day::Day;
use crate::retention::{Due, Years};
use jiff_core::civil;

/// The number of the first day of the office, from which a deposit may be destroyed at the earliest.
const FIRST_NUMBER: i64 = -25_567;

/// The number of 9999-12-31, from which a deposit may be destroyed at the latest.
const LAST_NUMBER: i64 = 2_932_896;

fn year_after(date: civil::Date, count: u8) -> i16
    requires day { IsDay date }
    requires count { count ≤ max_years }
    ensures { result ≡ date.year +ℤ pos count }
{
    date.year + count as i16
}

/// The date that many years later.
fn years_after(date: civil::Date, count: u8) -> civil::Date
    requires day { IsDay date }
    requires count { count ≤ max_years }
    ensures { IsYearsAfter date count result }
{
    civil::Date::constrain(year_after(date, count), date.month, date.day)
}

fn due_on(closing: Day, years: Years) -> Due
    ensures { IsDue closing years result }
{
    match years.count() {
        Some(count) => Due::On(Date::of_plain(years_after(closing.date().plain(), count))),
        None => Due::Never,
    }
}

/// The day from which a deposit that was closed on `closing` may be destroyed: the same month and
/// day that many years later, 28 February for a 29 February that the year doesn't have, and never
/// where it is kept permanently.
pub fn due(closing: Day, years: Years) -> Due
    ensures due { IsDue closing years result }
    ensures exact { result ≡ due_of closing years }
{
    due_on(closing, years)
}

/// The date with that number, where a deposit may be destroyed from it: 1900-01-01 to 9999-12-31.
pub fn due_date(number: i64) -> Option<Date>
    ensures range { IsSome result ↔ IsDueNumber number }
    ensures value { IfSome result (λ date. epoch_day date ≡ number) }
{
    if number < FIRST_NUMBER || number > LAST_NUMBER {
        return None;
    }
    let date = civil::Date::from_unix_epoch_day(number).ok()?;
    Some(Date::of_plain(date))
}
