//! Why a line of a manifest is refused, in words.

ghost use Rattle.std.specs.Prelude.{◌≡◌, Some};
ghost use Rattle.fault_words.specs.ManifestLines.{cause_words, likeness, likeness_words, words_of_bad_path};

use crate::escaped::Escaped;
use crate::number::write_limit;
use crate::tag_files::write_line;
use bag_text::{MAX_PATH, PathCause};
use std::fmt;

/// What another program writes for the line of a manifest.
#[derive(Clone, Copy, Debug, PartialEq, Eq)]
pub enum OtherLine {
    /// A line of `sha256sum` that begins with a backslash, since the name in it is escaped.
    Escaped,
    /// A line of `sha256sum` or `sha512sum` with `--tag`, which has the path before the checksum.
    Tagged,
}

impl OtherLine {
    /// What a line looks like, by its beginning.
    pub fn of(line: &[u8]) -> Option<OtherLine>
        ensures { result ≡ likeness line.now }
    {
        if line.starts_with(b"\\") {
            Some(OtherLine::Escaped)
        } else if line.starts_with(b"SHA256 (") || line.starts_with(b"SHA512 (") {
            Some(OtherLine::Tagged)
        } else {
            None
        }
    }
}

/// A line of a manifest that begins with no checksum, and what it looks like, to be printed as a
/// sentence.
#[derive(Clone, Copy)]
pub struct UnlikeLine<'a> {
    pub manifest: &'a str,
    pub line: usize,
    pub other: OtherLine,
}

impl<'a> fmt::Display for UnlikeLine<'a> {
    ghost output = { λ words. Some (likeness_words words.manifest.now words.line words.other) };

    fn fmt<W: fmt::Write>(&self, f: &mut fmt::Formatter<W>) -> fmt::Result {
        let line = self.line;
        let manifest = Escaped(self.manifest);
        match self.other {
            OtherLine::Escaped => write_line(
                f,
                manifest,
                line,
                " begins with a backslash, by which sha256sum marks an escaped name; a manifest has no such mark: it has a backslash once, LF as %0A, CR as %0D, and in version 1.0 % as %25 (B6 L3)",
            ),
            OtherLine::Tagged => write_line(
                f,
                manifest,
                line,
                " is as sha256sum or sha512sum writes it with --tag; a manifest has the checksum first, then blanks and the path (B6 L3)",
            ),
        }
    }
}

/// Why a path isn't good, to be printed in the sentence on its line.
#[derive(Clone, Copy)]
struct CauseWords(PathCause);

impl fmt::Display for CauseWords {
    ghost output = { λ words. Some (cause_words words.0) };

    fn fmt<W: fmt::Write>(&self, f: &mut fmt::Formatter<W>) -> fmt::Result {
        match self.0 {
            PathCause::Starred => {
                f.write_str("it begins with *, by which checksum tools mark a binary file")
            }
            PathCause::NotUtf8 => f.write_str("it is not UTF-8"),
            PathCause::TooLong => write_limit(f, "it has more than ", MAX_PATH, " bytes"),
            PathCause::EmptySegment => f.write_str(
                "it has an empty segment, as where / begins or ends it, or is there twice",
            ),
            PathCause::DotSegment => f.write_str("it has the segment ., as in ./data"),
            PathCause::DotDotSegment => f.write_str("it has the segment .."),
            PathCause::Nul => f.write_str("it has a NUL"),
        }
    }
}

/// A line of a manifest that lists no good path, and why, to be printed as a sentence.
#[derive(Clone, Copy)]
pub struct BadPathLine<'a> {
    pub manifest: &'a str,
    pub line: usize,
    pub cause: PathCause,
}

impl<'a> fmt::Display for BadPathLine<'a> {
    ghost output = { λ words. Some (words_of_bad_path words.manifest.now words.line words.cause) };

    fn fmt<W: fmt::Write>(&self, f: &mut fmt::Formatter<W>) -> fmt::Result {
        let line = self.line;
        let manifest = Escaped(self.manifest);
        let cause = CauseWords(self.cause);
        write!(
            f,
            "line {line} of {manifest} has no good path: {cause} (B6 L5)"
        )
    }
}
