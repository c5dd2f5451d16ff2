//! The numbers of limits, as sentences print them.

ghost use Rattle.std.specs.Prelude.{◌++◌, Some};
ghost use Rattle.std.specs.Fmt.{DisplaysOnOk};
ghost use Rattle.fault_words.specs.Numbers.{grouped, last_digits, thousands};

use std::fmt;

/// The last three digits of a number, to be printed.
#[derive(Clone, Copy)]
struct LastDigits(usize);

impl fmt::Display for LastDigits {
    ghost output = { λ number. Some (last_digits number.0) };

    fn fmt<W: fmt::Write>(&self, f: &mut fmt::Formatter<W>) -> fmt::Result {
        let hundreds = self.0 / 100 % 10;
        let tens = self.0 / 10 % 10;
        let ones = self.0 % 10;
        write!(f, "{hundreds}{tens}{ones}")
    }
}

/// A number below a million, to be printed with a comma before its last three digits.
#[derive(Clone, Copy)]
struct Thousands(usize);

impl fmt::Display for Thousands {
    ghost output = { λ number. Some (thousands number.0) };

    fn fmt<W: fmt::Write>(&self, f: &mut fmt::Formatter<W>) -> fmt::Result {
        let number = self.0;
        if number < 1_000 {
            return write!(f, "{number}");
        }
        let before = number / 1_000;
        let last = LastDigits(number);
        write!(f, "{before},{last}")
    }
}

/// A number below a million millions, to be printed with a comma before each three digits.
#[derive(Clone, Copy)]
pub struct Grouped(pub usize);

impl fmt::Display for Grouped {
    ghost output = { λ number. Some (grouped number.0) };

    #[tactic(auto, unfolding(crate::specs::Numbers::grouped))]
    fn fmt<W: fmt::Write>(&self, f: &mut fmt::Formatter<W>) -> fmt::Result {
        let number = self.0;
        if number < 1_000_000 {
            let number = Thousands(number);
            return write!(f, "{number}");
        }
        let before = Thousands(number / 1_000_000);
        let middle = LastDigits(number / 1_000);
        let last = LastDigits(number);
        write!(f, "{before},{middle},{last}")
    }
}

/// Writes a sentence with a limit between these texts.
pub fn write_limit<W: fmt::Write>(
    f: &mut fmt::Formatter<W>,
    before: &str,
    limit: usize,
    after: &str,
) -> fmt::Result
    ensures { DisplaysOnOk W.write_str_gives f.old result
        (Some (before.now ++ grouped limit ++ after.now)) f.new }
{
    let number = Grouped(limit);
    write!(f, "{before}{number}{after}")
}
