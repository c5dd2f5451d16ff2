//! Functions on bytes that several formats use.

ghost use Rattle.std.specs.Prelude.{◌≡◌, if◌then◌else◌, Some, None, option_copied, List, [], ◌∷◌, length, ℕ};
ghost use Rattle.bag_text.specs.Text.{is_blank, has_mark, skip_blanks, drop_last_blanks, trim_blanks};
ghost use Rattle.std.specs.List.{list_all};
ghost use Rattle.std.specs.Char.{is_ascii_digit};
ghost use Rattle.std.specs.Str as utf8;

/// Whether a byte is a space or a tab.
pub fn is_blank_byte(byte: u8) -> bool
    ensures { result ≡ is_blank byte }
{
    matches!(byte, b' ' | b'\t')
}

/// Whether the text begins with a byte order mark.
pub fn has_byte_order_mark(text: &[u8]) -> bool
    ensures { result ≡ has_mark text.now }
{
    text.starts_with(b"\xEF\xBB\xBF")
}

/// Whether each byte is a digit, 0 to 9.
pub fn has_digits_alone(text: &[u8]) -> bool
    ensures { result ≡ list_all is_ascii_digit text.now }
{
    text.iter().all(|b| b.is_ascii_digit())
}

/// Whether the bytes are UTF-8.
pub fn is_text(bytes: &[u8]) -> bool
    ensures { result ≡ utf8.is_utf8 bytes.now }
{
    str::from_utf8(bytes).is_ok()
}

/// The bytes as a text, where they are UTF-8.
pub fn as_text(bytes: &[u8]) -> Option<&str>
    ensures { option_copied result ≡ (if utf8.is_utf8 bytes.now then Some bytes.now else None) }
{
    str::from_utf8(bytes).ok()
}

/// The text without its first blanks.
pub fn without_first_blanks(text: &[u8]) -> &[u8]
    ensures { result.now ≡ skip_blanks text.now }
{
    let mut rest = text;
    while let [first, after @ ..] = rest {
        if !is_blank_byte(*first) {
            break;
        }
        rest = after;
    }
    rest
}

/// The text without the blanks at its end.
pub fn without_last_blanks(text: &[u8]) -> &[u8]
    ensures { result.now ≡ drop_last_blanks text.now }
{
    let mut rest = text;
    while let [before @ .., last] = rest {
        if !is_blank_byte(*last) {
            break;
        }
        rest = before;
    }
    rest
}

/// The text without the blanks round it.
pub fn trim_blanks(text: &[u8]) -> &[u8]
    ensures { result.now ≡ trim_blanks text.now }
{
    without_last_blanks(without_first_blanks(text))
}
