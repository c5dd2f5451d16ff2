//! How many bytes follow a head.

ghost use Rattle.std.specs.Prelude.{◌≡◌, ◌≤◌, true, length, None, Some, MatchResult, IfOk};
ghost use Rattle.std.specs.Str.Parse.{digits_value};
ghost use Rattle.desk_heads.specs.Bounds.{max_body};
ghost use Rattle.desk_heads.specs.Heads.{is_length_text, length_refusal, body_length_of};
ghost use Rattle.desk_heads.specs.View.{occurrence_seen};

use crate::field::Field;
use crate::refusal::HeadRefusal;
use bag_text::has_digits_alone;

/// How many bytes a body has at most.
pub const MAX_BODY: usize = 16_777_216;

/// How many digits a content length has at most.
const MAX_LENGTH_DIGITS: usize = 20;

fn is_length_text(text: &[u8]) -> bool
    ensures { result ≡ is_length_text text.now }
{
    1 <= text.len() && text.len() <= MAX_LENGTH_DIGITS && has_digits_alone(text)
}

/// The number that 1 to 20 digits write.
fn number_of(digits: &[u8]) -> u128
    requires { is_length_text digits.now ≡ true }
    ensures { result ≡ digits_value 10 digits.now }
{
    let mut number = 0u128;
    for digit in digits {
        number = number * 10 + u128::from(digit - b'0');
    }
    number
}

/// How many bytes the field `Content-Length` announces.
pub(crate) fn body_length(field: Field<'_>) -> Result<usize, HeadRefusal>
    ensures small { IfOk result (λ count. count ≤ max_body) }
    ensures judged { MatchResult result
        (λ count.
        (length_refusal (occurrence_seen field.entry) ≡ None)
        × (count ≡ body_length_of (occurrence_seen field.entry)))
        (λ refusal. length_refusal (occurrence_seen field.entry) ≡ Some refusal) }
{
    let text = match field {
        Field::Absent => return Ok(0),
        Field::Once(text) if is_length_text(text) => text,
        Field::Once(_) | Field::Repeated => return Err(HeadRefusal::BadLength),
    };
    let number = number_of(text);
    if number > MAX_BODY as u128 {
        return Err(HeadRefusal::TooLarge);
    }
    Ok(number as usize)
}
