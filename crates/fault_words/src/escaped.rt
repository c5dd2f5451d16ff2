//! Names and paths, as faults print them.

ghost use Rattle.std.specs.Prelude.{◌≡◌, ℕ, Some};
ghost use Rattle.std.specs.Cow.{cow_str_bytes};
ghost use Rattle.percent_encoding.specs.AsciiSet.{should_percent_encode};
ghost use Rattle.bag_check.specs.FaultTexts.{is_escaped, printed_text};

use percent_encoding::{AsciiSet, CONTROLS, utf8_percent_encode};
use std::alloc::Global;
use std::borrow::CowStr;
use std::fmt;

/// A name or a path, to be printed as the codes' lines print it: each byte below 33, each above 126
/// and `%` as `%` and two hex digits.
#[derive(Clone, Copy)]
pub struct Escaped<'a>(pub &'a str);

const ESCAPED: AsciiSet = percent_encoding::ascii_set!(CONTROLS.add(b' ').add(b'%'));

fn escaped_bytes() -> AsciiSet
    ensures { (b : ℕ) → should_percent_encode result b ≡ is_escaped b }
{
    ESCAPED
}

impl<'a> fmt::Display for Escaped<'a> {
    ghost output = { λ name. Some (printed_text name.0.now) };

    fn fmt<W: fmt::Write>(&self, f: &mut fmt::Formatter<W>) -> fmt::Result {
        let text = utf8_percent_encode(self.0, escaped_bytes());
        write!(f, "{text}")
    }
}

/// The name of a manifest and a path, to be printed.
pub fn name_and_path<'a, 'b>(
    manifest: &'b str,
    path: &'b CowStr<'a, Global>,
) -> (Escaped<'b>, Escaped<'b>)
    ensures manifest { result.0.0.now ≡ manifest.entry.now }
    ensures path { result.1.0.now ≡ cow_str_bytes path.entry.now }
{
    (Escaped(manifest), Escaped(path.as_str()))
}
