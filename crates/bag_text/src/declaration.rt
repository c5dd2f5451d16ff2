//! The declaration of a bag, its file `bagit.txt`.

ghost use Rattle.std.specs.Prelude.{◌≡◌, ◌<◌, ◌==◌, List, [], ◌∷◌, length, ℕ, Bool, Option, option_map, option_copied, codes, None, Some, Ok, Err, IfOk, IfErr, MatchResult};
ghost use Rattle.std.specs.List.{position_or_len};
ghost use Rattle.bag_text.specs.Declaration.{after_label, are_digits, is_version_text, Declares, declaration_fault};
ghost use Rattle.bag_text.specs.declared.declaration.Version.{Version};
ghost use Rattle.bag_text.specs.declared.declaration.DeclFault.{DeclFault};
ghost use Rattle.bag_text.specs.DeclarationReading.{declaration_of, version_declared, encoding_fault, two_lines_of};

use crate::lines::split_line;
use crate::text::{has_byte_order_mark, has_digits_alone, is_text, trim_blanks};

/// The version of BagIt that a bag declares.
#[derive(Clone, Copy, Debug, PartialEq, Eq)]
pub enum Version {
    /// 1.0, that of RFC 8493.
    V1_0,
    /// 0.97, which the usual Python tool still writes.
    V0_97,
}

/// Why a declaration is refused.
#[derive(Clone, Copy, Debug, PartialEq, Eq)]
pub enum DeclFault {
    /// V1: the text isn't UTF-8.
    NotUtf8,
    /// V2: the text begins with a byte order mark.
    ByteOrderMark,
    /// V3: the text doesn't have exactly two lines.
    NotTwoLines,
    /// V4: the first line's label is wrong, or its value isn't digits, a full stop and digits.
    BadVersionLine,
    /// V5: the version is neither 1.0 nor 0.97.
    UnsupportedVersion,
    /// V6: the second line's label is wrong, or its value is empty.
    BadEncodingLine,
    /// V7: the encoding isn't UTF-8, in any case.
    UnsupportedEncoding,
}

/// The value after a label, without the blanks round it.
fn value_of<'a>(line: &'a [u8], label: &[u8]) -> Option<&'a [u8]>
    ensures { option_copied result ≡ after_label label.now line.now }
{
    let value = line.strip_prefix(label)?;
    Some(trim_blanks(value))
}

/// How many bytes come before the first full stop.
fn whole_len(value: &[u8]) -> usize
    ensures { result ≡ position_or_len (λ b. b == 46) value.now }
{
    value.iter().position(|b| *b == b'.').unwrap_or(value.len())
}

fn is_digits(text: &[u8]) -> bool
    ensures { result ≡ are_digits text.now }
{
    !text.is_empty() && has_digits_alone(text)
}

/// Whether a value is digits, a full stop and digits.
fn has_version_form(value: &[u8]) -> bool
    ensures { result ≡ is_version_text value.now }
{
    let at = whole_len(value);
    at < value.len() && is_digits(&value[..at]) && is_digits(&value[at + 1..])
}

fn version_line(line: &[u8]) -> Result<Version, DeclFault>
    ensures { result ≡ version_declared line.now }
{
    let value = value_of(line, b"BagIt-Version:").ok_or(DeclFault::BadVersionLine)?;
    if value == b"1.0".as_slice() {
        Ok(Version::V1_0)
    } else if value == b"0.97".as_slice() {
        Ok(Version::V0_97)
    } else if has_version_form(value) {
        Err(DeclFault::UnsupportedVersion)
    } else {
        Err(DeclFault::BadVersionLine)
    }
}

fn encoding_line(line: &[u8]) -> Result<(), DeclFault>
    ensures { result ≡ encoding_fault line.now }
{
    let value = value_of(line, b"Tag-File-Character-Encoding:").ok_or(DeclFault::BadEncodingLine)?;
    if value.is_empty() {
        return Err(DeclFault::BadEncodingLine);
    }
    if value.eq_ignore_ascii_case(b"UTF-8") {
        Ok(())
    } else {
        Err(DeclFault::UnsupportedEncoding)
    }
}

/// The two lines of a text that has exactly two.
#[tactic(auto, using(crate::proofs::LineLemmas::no_lines, crate::proofs::LineLemmas::lines_step))]
fn two_lines(text: &[u8]) -> Result<(&[u8], &[u8]), DeclFault>
    ensures { MatchResult result
        (λ pair. two_lines_of text.now ≡ Ok (pair.0.now, pair.1.now))
        (λ fault. two_lines_of text.now ≡ Err fault) }
{
    if text.is_empty() {
        return Err(DeclFault::NotTwoLines);
    }
    let (first, rest) = split_line(text);
    if rest.is_empty() {
        return Err(DeclFault::NotTwoLines);
    }
    let (second, rest) = split_line(rest);
    if rest.is_empty() {
        Ok((first, second))
    } else {
        Err(DeclFault::NotTwoLines)
    }
}

fn declared_version(text: &[u8]) -> Result<Version, DeclFault>
    ensures { result ≡ declaration_of text.now }
{
    if !is_text(text) {
        return Err(DeclFault::NotUtf8);
    }
    if has_byte_order_mark(text) {
        return Err(DeclFault::ByteOrderMark);
    }
    let (first, second) = two_lines(text)?;
    let version = version_line(first)?;
    encoding_line(second)?;
    Ok(version)
}

/// The version that the text declares, or the first fault of the table.
pub fn read_declaration(text: &[u8]) -> Result<Version, DeclFault>
    ensures declared { IfOk result (λ version. Declares text.now version) }
    ensures answered { (version : Version) → Declares text.now version → result ≡ Ok version }
    ensures refused { IfErr result (λ fault. declaration_fault text.now ≡ Some fault) }
    ensures named { (fault : DeclFault) →
        declaration_fault text.now ≡ Some fault → result ≡ Err fault }
    ensures read { result ≡ declaration_of text.now }
{
    declared_version(text)
}
