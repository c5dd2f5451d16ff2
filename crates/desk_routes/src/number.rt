//! Numbers in paths.

ghost use Rattle.std.specs.Prelude.{◌≡◌};
ghost use Rattle.desk_routes.specs.PathReading.{is_number, number_of};

use bag_text::has_digits_alone;

fn is_number(text: &[u8]) -> bool
    ensures { result ≡ is_number text.now }
{
    match text {
        [b'0'] => true,
        [b'0', ..] => false,
        _ => !text.is_empty() && text.len() <= 7 && has_digits_alone(text),
    }
}

/// The number that 1 to 7 digits write, of which the first is no zero unless it is the only one.
pub(crate) fn read_number(text: &str) -> Option<u32>
    ensures { result ≡ number_of text.now }
{
    if is_number(text.as_bytes()) {
        text.parse::<u32>().ok()
    } else {
        None
    }
}
