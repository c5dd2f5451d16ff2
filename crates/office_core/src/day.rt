//! Days of the civil calendar.

ghost use Rattle.std.specs.Prelude.{◌≡◌, ◌↔◌, ◌+◌, ◌*◌, ◌<◌, pos, Option, Some, None, IsSome, IfSome, IsSomeAnd};
ghost use Rattle.jiff.specs.Types.{Date};
ghost use Rattle.jiff.specs.Words.{epoch_day, IsDate, IsYmd};
ghost use Rattle.office_core.specs.Days.{first_day, last_day, IsDay, IsDayNumber, day_text};
ghost use Rattle.office_core.specs.DayReading.{number_of, day_parts, day_of};

use crate::date::Date;
use jiff_core::civil;
use std::fmt;
use std::marker::Model;

/// The first year of the office.
const FIRST_YEAR: i16 = 1900;

/// The last year of the office.
const LAST_YEAR: i16 = 9799;

/// The number of the first day of the office, 1900-01-01, where 1970-01-01 has the number 0.
pub const FIRST_DAY_NUMBER: i32 = -25_567;

/// The number of the last day of the office, 9799-12-31, where 1970-01-01 has the number 0.
pub const LAST_DAY_NUMBER: i32 = 2_859_848;

/// A day of the civil calendar, from 1900-01-01 to 9799-12-31.
#[derive(Clone, Copy, PartialEq, Eq, PartialOrd, Ord)]
pub struct Day {
    date: Date,
}

impl Model for Day {
    ghost use Rattle.jiff.specs.Types.{Date};
    ghost use Rattle.office_core.specs.Days.{IsDay};

    ghost Value = { Date };

    ghost view = { λ day. day.date };

    ghost inverse = { λ date. record { date = date } };

    ghost invariant = { λ day. IsDay day.date };
}

/// The day of a date, where the office has it.
fn of_date(date: civil::Date) -> Option<Day>
    ensures value { IfSome result (λ day. IsDay day × (day ≡ date)) }
    ensures only { IsDay date → result ≡ Some date }
{
    if date.year < FIRST_YEAR || date.year > LAST_YEAR {
        return None;
    }
    Some(Day {
        date: Date::of_plain(date),
    })
}

#[tactic(auto, unfolding(crate::specs::DayReading::number_of))]
/// The number that two digits write.
fn number(tens: u8, ones: u8) -> Option<u8>
    ensures bound { IfSome result (λ n. n < 100) }
    ensures value { result ≡ number_of tens ones }
{
    if !tens.is_ascii_digit() || !ones.is_ascii_digit() {
        return None;
    }
    Some((tens - b'0') * 10 + (ones - b'0'))
}

/// The century, the year in it, the month and the day that a text writes.
fn parts(text: &[u8]) -> Option<(u8, u8, u8, u8)>
    ensures bound { IfSome result (λ p. (p.0 < 100) × (p.1 < 100) × (p.2 < 100) × (p.3 < 100)) }
    ensures value { result ≡ day_parts text.now }
{
    match text {
        [a, b, c, d, b'-', e, f, b'-', g, h] => {
            let century = number(*a, *b)?;
            let year = number(*c, *d)?;
            let month = number(*e, *f)?;
            let day = number(*g, *h)?;
            Some((century, year, month, day))
        }
        _ => None,
    }
}

/// The calendar's date with these parts.
fn civil_date(year: i16, month: i8, day: i8) -> Option<civil::Date>
    ensures value { IfSome result (IsYmd year month day) }
    ensures only { IsDate year month day → IsSome result }
{
    civil::Date::new(year, month, day).ok()
}

fn year_of(century: u8, year: u8) -> i16
    requires century { century < 100 }
    requires year { year < 100 }
    ensures { result ≡ pos (century * 100 + year) }
{
    century as i16 * 100 + year as i16
}

fn signed_byte(number: u8) -> i8
    requires { number < 100 }
    ensures { result ≡ pos number }
{
    number as i8
}

/// The calendar's date with the parts that were read.
fn date_of(century: u8, year: u8, month: u8, day: u8) -> Option<civil::Date>
    requires century { century < 100 }
    requires year { year < 100 }
    requires month { month < 100 }
    requires day { day < 100 }
    ensures value { IfSome result (IsYmd (pos (century * 100 + year)) (pos month) (pos day)) }
    ensures only { IsDate (pos (century * 100 + year)) (pos month) (pos day) → IsSome result }
{
    civil_date(year_of(century, year), signed_byte(month), signed_byte(day))
}

/// The calendar's date with that number.
fn date_at(number: i32) -> Option<civil::Date>
    requires { IsDayNumber number }
    ensures { IsSomeAnd result (λ date. epoch_day date ≡ number) }
{
    civil::Date::from_unix_epoch_day(number as i64).ok()
}

/// The day that a text writes.
fn read_day(text: &str) -> Option<Day>
    ensures written { IfSome result (λ day. IsDay day × (text.now ≡ day_text day)) }
    ensures only { (day : Date)
        → IsDay day → text.now ≡ day_text day → result ≡ Some day }
{
    let (century, year, month, day) = parts(text.as_bytes())?;
    of_date(date_of(century, year, month, day)?)
}

impl Day {
    /// The first day of the office: 1900-01-01.
    pub fn first() -> Day
        ensures { result ≡ first_day }
    {
        Day {
            date: Date::of_plain(civil::Date {
                year: FIRST_YEAR,
                month: 1,
                day: 1,
            }),
        }
    }

    /// The last day of the office: 9799-12-31.
    pub fn last() -> Day
        ensures { result ≡ last_day }
    {
        Day {
            date: Date::of_plain(civil::Date {
                year: LAST_YEAR,
                month: 12,
                day: 31,
            }),
        }
    }

    /// The day that a text writes, as `2024-02-29`; none where it writes no day of the office.
    pub fn read(text: &str) -> Option<Day>
        // A day that is read is one of the office, and the text is how it is written; each such day is read
        // from its text.
        ensures written { IfSome result (λ day. IsDay day × (text.now ≡ day_text day)) }
        ensures only { (day : Date)
            → IsDay day → text.now ≡ day_text day → result ≡ Some day }

        // The same by computing.
        ensures exact { result ≡ day_of text.now }
    {
        read_day(text)
    }

    /// The day with that number, where 1970-01-01 has the number 0.
    pub fn new(number: i32) -> Option<Day>
        ensures range { IsSome result ↔ IsDayNumber number }
        ensures value { IfSome result (λ day. IsDay day × (epoch_day day ≡ number)) }
    {
        if number < FIRST_DAY_NUMBER || number > LAST_DAY_NUMBER {
            return None;
        }
        of_date(date_at(number)?)
    }

    /// The number of the day.
    pub fn number(self) -> i32
        ensures value { result ≡ epoch_day self }
        ensures range { IsDayNumber result }
    {
        self.date.number()
    }

    /// The calendar's date.
    pub fn date(self) -> Date
        ensures value { result ≡ self }
        ensures range { IsDay self }
    {
        self.date
    }
}

impl fmt::Display for Day {
    ghost output = { λ day. Some (day_text day) };

    fn fmt<W: fmt::Write>(&self, f: &mut fmt::Formatter<W>) -> fmt::Result {
        write!(f, "{}", self.date)
    }
}

impl fmt::Debug for Day {
    fn fmt<W: fmt::Write>(&self, f: &mut fmt::Formatter<W>) -> fmt::Result {
        fmt::Display::fmt(self, f)
    }
}
