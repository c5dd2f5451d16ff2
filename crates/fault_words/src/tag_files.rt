//! Why a tag file is refused, in words.

ghost use Rattle.std.specs.Prelude.{◌≡◌, ◌++◌, Some, codes, decimal};
ghost use Rattle.std.specs.Fmt.{DisplaysOnOk};
ghost use Rattle.bag_check.specs.FaultTexts.{printed_text};
ghost use Rattle.fault_words.specs.FaultWords.{declaration_words, manifest_words, info_words};

use crate::escaped::Escaped;
use bag_text::{DeclFault, InfoFault, LineFault};
use std::fmt;

/// What is said of a `bagit.txt`.
pub fn declaration_words(fault: &DeclFault) -> &'static str
    ensures { result.now ≡ declaration_words fault.now }
{
    match fault {
        DeclFault::NotUtf8 => "bagit.txt is not UTF-8 text (B2 V1)",
        DeclFault::ByteOrderMark => "bagit.txt begins with a byte order mark, and must not (B2 V2)",
        DeclFault::NotTwoLines => "bagit.txt does not have exactly two lines (B2 V3)",
        DeclFault::BadVersionLine => {
            "the first line of bagit.txt is not BagIt-Version: and a version such as 1.0 (B2 V4)"
        }
        DeclFault::UnsupportedVersion => {
            "bagit.txt declares a version other than 1.0 and 0.97 (B2 V5)"
        }
        DeclFault::BadEncodingLine => {
            "the second line of bagit.txt is not Tag-File-Character-Encoding: and an encoding (B2 V6)"
        }
        DeclFault::UnsupportedEncoding => {
            "bagit.txt declares an encoding other than UTF-8 (B2 V7)"
        }
    }
}

/// Says this of a manifest.
fn write_text<W: fmt::Write>(
    f: &mut fmt::Formatter<W>,
    manifest: Escaped<'_>,
    what: &str,
) -> fmt::Result
    ensures { DisplaysOnOk W.write_str_gives f.old result
        (Some (printed_text manifest.entry.0.now ++ what.now)) f.new }
{
    write!(f, "{manifest}{what}")
}

/// Says this of a line of a manifest.
pub fn write_line<W: fmt::Write>(
    f: &mut fmt::Formatter<W>,
    manifest: Escaped<'_>,
    line: usize,
    what: &str,
) -> fmt::Result
    ensures { DisplaysOnOk W.write_str_gives f.old result
        (Some (codes "line " ++ decimal line ++ codes " of "
        ++ printed_text manifest.entry.0.now ++ what.now)) f.new }
{
    write!(f, "line {line} of {manifest}{what}")
}

/// Says why this manifest is refused.
pub fn write_manifest<W: fmt::Write>(
    f: &mut fmt::Formatter<W>,
    manifest: Escaped<'_>,
    fault: &LineFault,
) -> fmt::Result
    ensures { DisplaysOnOk W.write_str_gives f.old result
        (Some (manifest_words manifest.entry.0.now fault.now)) f.new }
{
    match fault {
        LineFault::NotUtf8 => write_text(f, manifest, " is not UTF-8 text (B6 L1)"),
        LineFault::ByteOrderMark => write_text(
            f,
            manifest,
            " begins with a byte order mark, and must not (B6 L2)",
        ),
        LineFault::BadChecksum(line) => write_line(
            f,
            manifest,
            *line,
            " does not begin with a checksum of the right number of hex digits (B6 L3)",
        ),
        LineFault::NoPath(line) => write_line(
            f,
            manifest,
            *line,
            " has no path after its checksum (B6 L4)",
        ),
        LineFault::BadPath(line) => write_line(f, manifest, *line, " has no good path (B6 L5)"),
        LineFault::ListedTwice(line) => write_line(
            f,
            manifest,
            *line,
            " lists a path that an earlier line lists (B6 L6)",
        ),
        LineFault::Memory => f.write_str("memory ran out (B6 L7)"),
    }
}

/// Why the text of a manifest is refused, to be printed as a sentence.
#[derive(Clone, Copy)]
pub struct ManifestWords<'a> {
    pub manifest: &'a str,
    pub fault: LineFault,
}

impl<'a> fmt::Display for ManifestWords<'a> {
    ghost output = { λ words. Some (manifest_words words.manifest.now words.fault) };

    fn fmt<W: fmt::Write>(&self, f: &mut fmt::Formatter<W>) -> fmt::Result {
        write_manifest(f, Escaped(self.manifest), &self.fault)
    }
}

/// Says this of the line with this number.
fn write_numbered<W: fmt::Write>(f: &mut fmt::Formatter<W>, line: usize, what: &str) -> fmt::Result
    ensures { DisplaysOnOk W.write_str_gives f.old result
        (Some (codes "line " ++ decimal line ++ what.now)) f.new }
{
    write!(f, "line {line}{what}")
}

/// Says why `bag-info.txt` is refused.
pub fn write_info<W: fmt::Write>(f: &mut fmt::Formatter<W>, fault: &InfoFault) -> fmt::Result
    ensures { DisplaysOnOk W.write_str_gives f.old result (Some (info_words fault.now)) f.new }
{
    match fault {
        InfoFault::NotUtf8 => f.write_str("bag-info.txt is not UTF-8 text (B13 I1)"),
        InfoFault::ByteOrderMark => f.write_str(
            "bag-info.txt begins with a byte order mark, and must not (B13 I2)",
        ),
        InfoFault::NoColon(line) => {
            write_numbered(f, *line, " of bag-info.txt has no colon (B13 I3)")
        }
        InfoFault::EmptyLabel(line) => write_numbered(
            f,
            *line,
            " of bag-info.txt has no label before its colon (B13 I4)",
        ),
        InfoFault::StrayContinuation(line) => write_numbered(
            f,
            *line,
            " of bag-info.txt continues a value, but no label comes before it (B13 I5)",
        ),
        InfoFault::Memory => f.write_str("memory ran out (B13 I6)"),
    }
}
