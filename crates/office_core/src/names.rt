//! Names, accession numbers and matters: texts that are held to a rule.

ghost use Rattle.std.specs.Prelude.{◌≡◌, ◌&&◌, nat_le, length};
ghost use Rattle.std.specs.List.{list_all};
ghost use Rattle.office_core.specs.Names.{is_joiner, is_name_byte, is_accession_byte, is_matter_byte, is_name, is_accession, is_matter};

use crate::text_kind::{OwnedText, Text, TextKind};

/// How many characters a name has at most.
pub const MAX_NAME: usize = 40;

/// How many characters an accession number has at most.
pub const MAX_ACCESSION: usize = 64;

/// How many bytes a matter has at most.
pub const MAX_MATTER: usize = 200;

fn is_joiner(byte: u8) -> bool
    ensures { result ≡ is_joiner byte }
{
    byte == b'-' || byte == b'_' || byte == b'.'
}

fn has_length(bytes: &[u8], least: usize, most: usize) -> bool
    ensures { result ≡ (nat_le least (length bytes.now) && nat_le (length bytes.now) most) }
{
    least <= bytes.len() && bytes.len() <= most
}

fn is_name_byte(byte: u8) -> bool
    ensures { result ≡ is_name_byte byte }
{
    byte.is_ascii_lowercase() || byte.is_ascii_digit() || is_joiner(byte)
}

fn has_name_bytes(bytes: &[u8]) -> bool
    ensures { result ≡ list_all is_name_byte bytes.now }
{
    bytes.iter().all(|b| is_name_byte(*b))
}

fn has_name_form(text: &str) -> bool
    ensures { result ≡ is_name text.now }
{
    let bytes = text.as_bytes();
    has_length(bytes, 1, MAX_NAME) && has_name_bytes(bytes)
}

fn is_accession_byte(byte: u8) -> bool
    ensures { result ≡ is_accession_byte byte }
{
    byte.is_ascii_alphanumeric() || is_joiner(byte)
}

fn has_accession_bytes(bytes: &[u8]) -> bool
    ensures { result ≡ list_all is_accession_byte bytes.now }
{
    bytes.iter().all(|b| is_accession_byte(*b))
}

fn has_accession_form(text: &str) -> bool
    ensures { result ≡ is_accession text.now }
{
    let bytes = text.as_bytes();
    has_length(bytes, 1, MAX_ACCESSION) && has_accession_bytes(bytes)
}

fn is_matter_byte(byte: u8) -> bool
    ensures { result ≡ is_matter_byte byte }
{
    32 <= byte && byte != 127
}

fn has_matter_bytes(bytes: &[u8]) -> bool
    ensures { result ≡ list_all is_matter_byte bytes.now }
{
    bytes.iter().all(|b| is_matter_byte(*b))
}

fn has_matter_form(text: &str) -> bool
    ensures { result ≡ is_matter text.now }
{
    let bytes = text.as_bytes();
    has_length(bytes, 1, MAX_MATTER) && has_matter_bytes(bytes)
}

/// The kind of names.
pub struct NameKind;

impl TextKind for NameKind {
    ghost is_of_kind = { is_name };

    fn is_of_kind(text: &str) -> bool {
        has_name_form(text)
    }
}

/// The kind of accession numbers.
pub struct AccessionKind;

impl TextKind for AccessionKind {
    ghost is_of_kind = { is_accession };

    fn is_of_kind(text: &str) -> bool {
        has_accession_form(text)
    }
}

/// The kind of matters.
pub struct MatterKind;

impl TextKind for MatterKind {
    ghost is_of_kind = { is_matter };

    fn is_of_kind(text: &str) -> bool {
        has_matter_form(text)
    }
}

/// A name: 1 to 40 characters of `a` to `z`, `0` to `9`, `-`, `_` and `.`.
pub type Name<'a> = Text<'a, NameKind>;

/// A name that owns its text.
pub type OwnedName = OwnedText<NameKind>;

/// An accession number: 1 to 64 characters of ASCII letters, digits, `-`, `_` and `.`.
pub type Accession<'a> = Text<'a, AccessionKind>;

/// An accession number that owns its text.
pub type OwnedAccession = OwnedText<AccessionKind>;

/// The matter of a hold: 1 to 200 bytes of text without a character below U+0020 and without
/// U+007F.
pub type Matter<'a> = Text<'a, MatterKind>;

/// A matter that owns its text.
pub type OwnedMatter = OwnedText<MatterKind>;
