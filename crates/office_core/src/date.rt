//! Dates of the civil calendar.

ghost use Rattle.std.specs.Prelude.{◌≡◌, Some};
ghost use Rattle.std.specs.Int.{IsInRange};
ghost use Rattle.jiff.specs.Words.{epoch_day, date_text, days_in_month, IsYear};

use jiff_core::civil;
use std::fmt;
use std::marker::Model;

// It has the parts of a date of `jiff_core`, and isn't that date: else each check of the crates above would
// load all that `jiff_core` uses.
/// A date of the civil calendar, from -9999-01-01 to 9999-12-31.
#[derive(Clone, Copy, PartialEq, Eq, PartialOrd, Ord)]
pub struct Date {
    year: i16,
    month: u8,
    day: u8,
    ghost year_in: { IsYear year },
    ghost month_in: { IsInRange 1 12 month },
    ghost day_in: { IsInRange 1 (days_in_month year month) day },
}

impl Model for Date {
    ghost use Rattle.jiff.specs.Types.{Date};

    ghost Value = { Date };

    ghost view = { λ d. record { year = d.year; month = d.month; day = d.day; year_in = d.year_in; month_in = d.month_in; day_in = d.day_in } };

    ghost inverse = { λ d. record { year = d.year; month = d.month; day = d.day; year_in = d.year_in; month_in = d.month_in; day_in = d.day_in } };
}

impl Date {
    /// The date that has this plain value.
    pub(crate) fn of_plain(plain: civil::Date) -> Date
        ensures { result ≡ plain }
    {
        Date {
            year: plain.year,
            month: plain.month,
            day: plain.day,
        }
    }

    /// Its plain value.
    pub(crate) fn plain(self) -> civil::Date
        ensures { result ≡ self }
    {
        civil::Date {
            year: self.year,
            month: self.month,
            day: self.day,
        }
    }

    /// The number of the date, where 1970-01-01 has the number 0.
    pub fn number(self) -> i32
        ensures { result ≡ epoch_day self }
    {
        self.plain().to_unix_epoch_day()
    }
}

impl fmt::Display for Date {
    ghost output = { λ date. Some (date_text date) };

    fn fmt<W: fmt::Write>(&self, f: &mut fmt::Formatter<W>) -> fmt::Result {
        write!(f, "{}", jiff::civil::Date::from_plain(self.plain()))
    }
}

impl fmt::Debug for Date {
    fn fmt<W: fmt::Write>(&self, f: &mut fmt::Formatter<W>) -> fmt::Result {
        fmt::Display::fmt(self, f)
    }
}
