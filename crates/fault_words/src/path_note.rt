//! What else is said of a path that is easily mistaken for another.

ghost use Rattle.std.specs.Prelude.{◌≡◌, IfOk, Some, option_copied};
ghost use Rattle.std.specs.List.{list_any};
ghost use Rattle.bag_text.specs.Lines.{is_end};
ghost use Rattle.bag_text.specs.TransferReading.{files_of};
ghost use Rattle.fault_words.specs.PathNotes.{coding_in, coding_words, differs_by_form, has_percent, meaning_words, other_form, words_of_other_form};

use crate::escaped::Escaped;
use bag_text::BagSet;
use std::alloc::{AllocError, Global};
use std::fmt;
use unicode_normalization::to_nfc;

/// Whether two paths are other bytes, and the same text but for their normal forms.
fn differs_by_form(alloc: Global, path: &str, other: &str) -> Result<bool, AllocError>
    ensures { IfOk result (λ differs. differs ≡ differs_by_form path.now other.now) }
{
    if path == other {
        return Ok(false);
    }
    let one = to_nfc(alloc, path)?;
    let two = to_nfc(alloc, other)?;
    Ok(one.as_str() == two.as_str())
}

/// The first of these files whose path differs from this one by its normal form alone.
fn other_form_in<'a>(
    alloc: Global,
    files: &[(&'a str, &'a [u8])],
    path: &str,
) -> Result<Option<&'a str>, AllocError>
    ensures { IfOk result (λ other.
        option_copied other ≡ other_form (files_of files.now) path.now) }
{
    for file in files {
        if differs_by_form(alloc, path, file.0)? {
            return Ok(Some(file.0));
        }
    }
    Ok(None)
}

/// The first file of a bag whose path differs from this one by its normal form alone.
pub fn other_form<'a>(
    alloc: Global,
    bag: &BagSet<'a>,
    path: &str,
) -> Result<Option<&'a str>, AllocError>
    ensures { IfOk result (λ other. option_copied other ≡ other_form bag.now path.now) }
{
    other_form_in(alloc, bag.files(), path)
}

/// A file of a bag whose path differs from another by its normal form alone, to be printed as a
/// sentence that says so.
#[derive(Clone, Copy)]
pub struct OtherForm<'a>(pub &'a str);

impl<'a> fmt::Display for OtherForm<'a> {
    ghost output = { λ file. Some (words_of_other_form file.0.now) };

    fn fmt<W: fmt::Write>(&self, f: &mut fmt::Formatter<W>) -> fmt::Result {
        let path = Escaped(self.0);
        write!(
            f,
            "the bag has {path}, which differs by Unicode normal form alone, as NFC and NFD do; paths are compared byte for byte"
        )
    }
}

/// What a path has that its printed form may be mistaken for.
#[derive(Clone, Copy, Debug, PartialEq, Eq)]
pub enum Coding {
    /// The end of a line, LF or CR.
    LineEnd,
    /// A percent sign.
    Percent,
    /// The end of a line and a percent sign.
    Both,
}

fn has_line_end(path: &[u8]) -> bool
    ensures { result ≡ list_any is_end path.now }
{
    path.iter().any(|b| matches!(*b, b'\n' | b'\r'))
}

fn has_percent(path: &[u8]) -> bool
    ensures { result ≡ has_percent path.now }
{
    path.contains(&b'%')
}

/// Which of these a path has.
pub fn coding_in(path: &str) -> Option<Coding>
    ensures { result ≡ coding_in path.now }
{
    let bytes = path.as_bytes();
    if has_line_end(bytes) && has_percent(bytes) {
        Some(Coding::Both)
    } else if has_line_end(bytes) {
        Some(Coding::LineEnd)
    } else if has_percent(bytes) {
        Some(Coding::Percent)
    } else {
        None
    }
}

/// What it means in the printed path.
fn meaning_words(coding: Coding) -> &'static str
    ensures { result.now ≡ meaning_words coding }
{
    match coding {
        Coding::LineEnd => "%0A or %0D is the end of a line",
        Coding::Percent => "%25 is a percent sign",
        Coding::Both => "%0A or %0D is the end of a line, and %25 a percent sign",
    }
}

impl fmt::Display for Coding {
    ghost output = { λ coding. Some (coding_words coding) };

    fn fmt<W: fmt::Write>(&self, f: &mut fmt::Formatter<W>) -> fmt::Result {
        let meaning = meaning_words(*self);
        write!(
            f,
            "in this path {meaning}; version 1.0 lists %0A, %0D and %25 of a name as %250A, %250D and %2525, and version 0.97 cannot list %0A or %0D"
        )
    }
}
