//! The lengths that records say.

ghost use Rattle.std.specs.Prelude.{◌≡◌, ◌≤◌, length, true, IfSome};
ghost use Rattle.std.specs.List.{list_all};
ghost use Rattle.std.specs.Char.{is_ascii_digit};
ghost use Rattle.std.specs.Str.Parse.{digits_value};
ghost use Rattle.http_desk.specs.RecordReading.{has_length_form, length_of};

use bag_text::has_digits_alone;

/// The most bytes of a request in a record.
pub const MAX_REQUEST: usize = 16_800_000;

/// The number that digits write.
fn value(digits: &[u8]) -> usize
    requires short { length digits.now ≤ 8 }
    requires all { list_all is_ascii_digit digits.now ≡ true }
    ensures { result ≡ digits_value 10 digits.now }
{
    let mut n = 0;
    for digit in digits {
        n = n * 10 + usize::from(digit - b'0');
    }
    n
}

fn has_length_form(text: &[u8]) -> bool
    ensures { result ≡ has_length_form text.now }
{
    match text {
        [b'0', _, ..] => false,
        _ => !text.is_empty() && text.len() <= 8 && has_digits_alone(text),
    }
}

/// The length that a text writes in digits, without leading zeros.
pub fn read_length(text: &[u8]) -> Option<usize>
    ensures value { result ≡ length_of text.now }
    ensures small { IfSome result (λ n. n ≤ 16800000) }
{
    if !has_length_form(text) {
        return None;
    }
    let n = value(text);
    if n > MAX_REQUEST { None } else { Some(n) }
}
