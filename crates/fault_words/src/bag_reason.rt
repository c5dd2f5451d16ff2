//! What is printed to standard error of a bag that is refused.

ghost use Rattle.std.specs.Prelude.{◌≡◌, ◌++◌, ◌∷◌, [], IfOk, option_and_then, option_copied, string_bytes};
ghost use Rattle.std.specs.Option.{option_map_or};
ghost use Rattle.bag_text.specs.declared.listing.LineFault.TheVariants as line_faults;
ghost use Rattle.bag_check.specs.Answers.{named_fault};
ghost use Rattle.fault_words.specs.BagReasons.{cause_at, coding_line, form_line, likeness_at, line_in, manifest_sentence, named_path, sentence_or, sought_path, told_of, version_in};

use crate::in_words::InWords;
use crate::manifest_line::{BadPathLine, OtherLine, UnlikeLine};
use crate::path_note::{OtherForm, coding_in, other_form};
use crate::tag_files::ManifestWords;
use bag_check::BagFault;
use bag_text::{BagSet, LineFault, PathCause, Version, line_at, path_cause, read_declaration};
use std::alloc::{AllocError, Global};
use std::fmt::Write;

/// The version that a bag declares.
fn version_in(bag: &BagSet<'_>) -> Option<Version>
    ensures { result ≡ version_in bag.now }
{
    read_declaration(bag.get("bagit.txt")?).ok()
}

/// The line of this number of a file.
fn line_in<'a>(bag: &BagSet<'a>, name: &str, number: usize) -> Option<&'a [u8]>
    ensures { option_copied result ≡ line_in bag.now name.now number }
{
    line_at(bag.get(name)?, number)
}

/// What a line without a checksum looks like.
fn likeness_at(bag: &BagSet<'_>, name: &str, number: usize) -> Option<OtherLine>
    ensures { result ≡ likeness_at bag.now name.now number }
{
    OtherLine::of(line_in(bag, name, number)?)
}

/// Why a line lists no good path.
fn cause_at(
    alloc: Global,
    bag: &BagSet<'_>,
    name: &str,
    number: usize,
) -> Result<Option<PathCause>, AllocError>
    ensures { IfOk result (λ cause. cause ≡ cause_at bag.now name.now number) }
{
    let Some(version) = version_in(bag) else {
        return Ok(None);
    };
    let Some(line) = line_in(bag, name, number) else {
        return Ok(None);
    };
    path_cause(alloc, version, line)
}

/// What is said of a line that begins with no checksum.
fn checksum_line(
    alloc: Global,
    bag: &BagSet<'_>,
    manifest: &str,
    line: usize,
) -> Result<String, AllocError>
    ensures { IfOk result (λ text. string_bytes text
        ≡ manifest_sentence bag.now manifest.now (line_faults.BadChecksum line) ++ 10 ∷ []) }
{
    match likeness_at(bag, manifest, line) {
        Some(other) => {
            let words = UnlikeLine {
                manifest,
                line,
                other,
            };
            format!(in alloc; "{words}\n")
        }
        None => {
            let fault = LineFault::BadChecksum(line);
            let words = ManifestWords { manifest, fault };
            format!(in alloc; "{words}\n")
        }
    }
}

/// What is said of a line that lists no good path.
fn path_line(
    alloc: Global,
    bag: &BagSet<'_>,
    manifest: &str,
    line: usize,
) -> Result<String, AllocError>
    ensures { IfOk result (λ text. string_bytes text
        ≡ manifest_sentence bag.now manifest.now (line_faults.BadPath line) ++ 10 ∷ []) }
{
    match cause_at(alloc, bag, manifest, line)? {
        Some(cause) => {
            let words = BadPathLine {
                manifest,
                line,
                cause,
            };
            format!(in alloc; "{words}\n")
        }
        None => {
            let fault = LineFault::BadPath(line);
            let words = ManifestWords { manifest, fault };
            format!(in alloc; "{words}\n")
        }
    }
}

/// What is said of a manifest's text that is refused.
fn manifest_line(
    alloc: Global,
    bag: &BagSet<'_>,
    manifest: &str,
    fault: LineFault,
) -> Result<String, AllocError>
    ensures { IfOk result (λ text.
        string_bytes text ≡ manifest_sentence bag.now manifest.now fault ++ 10 ∷ []) }
{
    match fault {
        LineFault::BadChecksum(line) => checksum_line(alloc, bag, manifest, line),
        LineFault::BadPath(line) => path_line(alloc, bag, manifest, line),
        _ => {
            let words = ManifestWords { manifest, fault };
            format!(in alloc; "{words}\n")
        }
    }
}

/// The fault's sentence, a line with its end.
fn sentence(alloc: Global, bag: &BagSet<'_>, fault: &BagFault<'_>) -> Result<String, AllocError>
    ensures { let line = sentence_or bag.now (named_fault fault.now) ++ 10 ∷ [] in
        IfOk result (λ text. string_bytes text ≡ line) }
{
    match fault {
        BagFault::ManifestText { manifest, fault } => manifest_line(alloc, bag, manifest, *fault),
        _ => {
            let words = InWords(fault);
            format!(in alloc; "{words}\n")
        }
    }
}

/// The path that a fault names.
fn named_path<'a>(fault: &'a BagFault<'_>) -> Option<&'a str>
    ensures { option_copied result ≡ option_and_then named_path (named_fault fault.now) }
{
    match fault {
        BagFault::OutsidePayload { path, .. }
        | BagFault::TagManifestListed { path, .. }
        | BagFault::PayloadInTagManifest { path, .. }
        | BagFault::PayloadManifestUnlisted { path, .. }
        | BagFault::Missing { path, .. }
        | BagFault::Unlisted { path, .. }
        | BagFault::ChecksumWrong { path, .. } => Some(path.as_str()),
        _ => None,
    }
}

/// The path that a fault names where it was looked for and not found.
fn sought_path<'a>(fault: &'a BagFault<'_>) -> Option<&'a str>
    ensures { option_copied result ≡ option_and_then sought_path (named_fault fault.now) }
{
    match fault {
        BagFault::Missing { path, .. } | BagFault::Unlisted { path, .. } => Some(path.as_str()),
        _ => None,
    }
}

/// The text with a line more, where a file's path differs from the one sought by its normal form alone.
fn with_form_line(
    alloc: Global,
    bag: &BagSet<'_>,
    path: Option<&str>,
    text: String,
) -> Result<String, AllocError>
    ensures { IfOk result (λ lines. string_bytes lines
        ≡ string_bytes text ++ form_line bag.now (option_copied path.entry)) }
{
    let Some(path) = path else {
        return Ok(text);
    };
    let Some(file) = other_form(alloc, bag, path)? else {
        return Ok(text);
    };
    let mut lines = text;
    let words = OtherForm(file);
    write!(lines, "{words}\n")?;
    Ok(lines)
}

/// The text with a line more, where the path that is named may be mistaken for another as it is printed.
fn with_coding_line(path: Option<&str>, text: String) -> Result<String, AllocError>
    ensures { IfOk result (λ lines. string_bytes lines
        ≡ string_bytes text ++ coding_line (option_copied path.entry)) }
{
    let Some(path) = path else {
        return Ok(text);
    };
    let Some(coding) = coding_in(path) else {
        return Ok(text);
    };
    let mut lines = text;
    write!(lines, "{coding}\n")?;
    Ok(lines)
}

/// The lines that say why a bag is refused for this fault: the fault's sentence, and what else is said
/// of the path that it names.
pub fn bag_lines(
    alloc: Global,
    bag: &BagSet<'_>,
    fault: &BagFault<'_>,
) -> Result<String, AllocError>
    ensures { IfOk result (λ lines.
        string_bytes lines ≡ told_of bag.now (named_fault fault.now)) }
{
    let text = sentence(alloc, bag, fault)?;
    let text = with_form_line(alloc, bag, sought_path(fault), text)?;
    with_coding_line(named_path(fault), text)
}
