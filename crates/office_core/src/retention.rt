//! How long a deposit is kept.

ghost use Rattle.std.specs.Prelude.{◌≡◌, ◌≤◌, Some, None, IfSome};
ghost use Rattle.std.specs.Option.{SomeIff};
ghost use Rattle.office_core.specs.Bounds.{max_years};
ghost use Rattle.office_core.specs.Retention.{due_number};

use crate::date::Date;
use std::marker::Model;

/// How many years a class keeps its deposits at most, if not permanently.
pub const MAX_YEARS: u8 = 200;

/// How long a class keeps its deposits after their closing day: 0 to 200 years, or permanently.
#[derive(Clone, Copy, Debug, PartialEq, Eq)]
pub struct Years {
    count: Option<u8>,
}

impl Model for Years {
    ghost use Rattle.std.specs.Prelude.{ℕ, Option, ◌≤◌, IfSome};
    ghost use Rattle.office_core.specs.Bounds.{max_years};

    ghost Value = { Option ℕ };

    ghost view = { λ years. years.count };

    ghost inverse = { λ count. record { count = count } };

    ghost invariant = { λ years. IfSome years.count (λ n. n ≤ max_years) };
}

impl Years {
    /// Permanently.
    pub fn permanent() -> Years
        ensures { result ≡ None }
    {
        Years { count: None }
    }

    /// That many years, where they are at most 200.
    pub fn new(count: u8) -> Option<Years>
        ensures { SomeIff result (count ≤ max_years) (Some count) }
    {
        if count > MAX_YEARS {
            return None;
        }
        Some(Years { count: Some(count) })
    }

    /// The number of years, or none where it is permanent.
    pub fn count(self) -> Option<u8>
        ensures value { result ≡ self }
        ensures range { IfSome result (λ n. n ≤ max_years) }
    {
        self.count
    }
}

/// The day from which a deposit may be destroyed: a date up to 9999-12-31, or never.
#[derive(Clone, Copy, Debug, PartialEq, Eq)]
pub enum Due {
    On(Date),
    Never,
}

impl Due {
    /// The number of the date, where 1970-01-01 has the number 0; none where it is never.
    pub fn number(self) -> Option<i64>
        ensures { result ≡ due_number self }
    {
        match self {
            Due::On(date) => Some(date.number() as i64),
            Due::Never => None,
        }
    }
}
