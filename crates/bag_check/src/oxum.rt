//! The value of a `Payload-Oxum`: the bytes of all payload files, a full stop, and how many files
//! these are.

ghost use Rattle.std.specs.Prelude.{◌≡◌, ◌≤◌, length, true, option_map, option_copied};
ghost use Rattle.std.specs.List.{list_all};
ghost use Rattle.std.specs.Char.{is_ascii_digit};
ghost use Rattle.bag_text.specs.Text.{is_blank};
ghost use Rattle.bag_check.specs.Validity.{number_from};
ghost use Rattle.bag_check.specs.OxumReading.{digit_len, digits_in, after_digits, number_spelled, after_stop, number_at_end, counts_of};
ghost use Rattle.bag_check.specs.Answers.{counts_seen};

/// The most digits of a number.
const MAX_DIGITS: usize = 20;

/// The bytes and the files that a value names.
#[derive(Clone, Copy)]
pub struct Counts {
    pub bytes: u128,
    pub files: u128,
}

/// How many digits come first.
fn digit_len(text: &[u8]) -> usize
    ensures { result ≡ digit_len text.now }
{
    text.iter()
        .position(|b| !b.is_ascii_digit())
        .unwrap_or(text.len())
}

/// The digits that come first, and what follows them.
#[tactic(auto, using(crate::proofs::CountsLemmas::digits_fit))]
fn split_digits(text: &[u8]) -> (&[u8], &[u8])
    ensures digits { result.0.now ≡ digits_in text.now }
    ensures rest { result.1.now ≡ after_digits text.now }
{
    text.split_at(digit_len(text))
}

/// The number that digits spell, of which there are few enough that it fits.
fn number(digits: &[u8]) -> u128
    requires few { length digits.now ≤ 20 }
    requires digits { list_all is_ascii_digit digits.now ≡ true }
    ensures { result ≡ number_from 0 digits.now }
{
    let mut number: u128 = 0;
    for digit in digits {
        number = number * 10 + (*digit - b'0') as u128;
    }
    number
}

/// The number that 1 to 20 digits spell.
fn read_number(digits: &[u8]) -> Option<u128>
    requires { list_all is_ascii_digit digits.now ≡ true }
    ensures { result ≡ number_spelled digits.now }
{
    if digits.is_empty() || digits.len() > MAX_DIGITS {
        return None;
    }
    Some(number(digits))
}

/// The number that comes first, and what follows its digits.
fn split_number(text: &[u8]) -> (Option<u128>, &[u8])
    ensures number { result.0 ≡ number_spelled (digits_in text.now) }
    ensures rest { result.1.now ≡ after_digits text.now }
{
    let (digits, rest) = split_digits(text);
    (read_number(digits), rest)
}

/// What follows a full stop.
fn after_stop(text: &[u8]) -> Option<&[u8]>
    ensures { option_copied result ≡ after_stop text.now }
{
    match text {
        [b'.', rest @ ..] => Some(rest),
        _ => None,
    }
}

/// Whether there are only blanks.
fn are_blanks(text: &[u8]) -> bool
    ensures { result ≡ list_all is_blank text.now }
{
    text.iter().all(|b| *b == b' ' || *b == b'\t')
}

/// A number with only blanks after it.
fn number_at_end(text: &[u8]) -> Option<u128>
    ensures { result ≡ number_at_end text.now }
{
    let (number, rest) = split_number(text);
    if are_blanks(rest) { number } else { None }
}

/// The counts that a value names.
pub fn read_counts(value: &[u8]) -> Option<Counts>
    ensures { option_map counts_seen result ≡ counts_of value.now }
{
    let (bytes, rest) = split_number(value);
    let bytes = bytes?;
    let rest = after_stop(rest)?;
    let files = number_at_end(rest)?;
    Some(Counts { bytes, files })
}
