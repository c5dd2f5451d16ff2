//! How a bag's faults are printed.

ghost use Rattle.std.specs.Prelude.{◌≡◌, ℕ, Some, option_and_then, option_copied};
ghost use Rattle.std.specs.Fmt.{DisplaysOnOk};
ghost use Rattle.percent_encoding.specs.AsciiSet.{should_percent_encode};
ghost use Rattle.bag_check.specs.FaultTexts.{is_escaped};
ghost use Rattle.bag_check.specs.Answers.{named_fault, printed_fault, number_or, manifest_in, path_in, after_space, cause_or};

use crate::fault::BagFault;
use percent_encoding::{AsciiSet, CONTROLS, utf8_percent_encode};
use std::error::Error;
use std::fmt;

const ESCAPED: AsciiSet = percent_encoding::ascii_set!(CONTROLS.add(b' ').add(b'%'));

/// The bytes that are printed as `%` and two hex digits: those below 33, `%`, and those above 126.
fn escaped_bytes() -> AsciiSet
    ensures { (b : ℕ) → should_percent_encode result b ≡ is_escaped b }
{
    ESCAPED
}

impl<'a> fmt::Display for BagFault<'a> {
    ghost output = { λ fault. Some (printed_fault fault) };

    fn fmt<W: fmt::Write>(&self, f: &mut fmt::Formatter<W>) -> fmt::Result {
        let number = number_of(self);
        let manifest = AfterSpace(manifest_of(self));
        let path = AfterSpace(path_of(self));
        write!(f, "B{number}{manifest}{path}")?;
        write_cause(f, self)
    }
}

/// The number of a fault.
fn number_of(fault: &BagFault<'_>) -> usize
    ensures { result ≡ number_or (named_fault fault.now) }
{
    match fault {
        BagFault::NoDeclaration => 1,
        BagFault::Declaration(_) => 2,
        BagFault::FetchNotSupported => 3,
        BagFault::UnsupportedAlgorithm { .. } => 4,
        BagFault::NoPayloadManifest => 5,
        BagFault::ManifestText { .. } => 6,
        BagFault::OutsidePayload { .. } => 7,
        BagFault::TagManifestListed { .. } => 8,
        BagFault::PayloadInTagManifest { .. } => 9,
        BagFault::PayloadManifestUnlisted { .. } => 10,
        BagFault::Missing { .. } => 11,
        BagFault::Unlisted { .. } => 12,
        BagFault::InfoText(_) => 13,
        BagFault::OxumForm => 14,
        BagFault::OxumTwice => 15,
        BagFault::OxumWrong => 16,
        BagFault::ChecksumWrong { .. } => 17,
        BagFault::Memory => 18,
    }
}

/// The name of the manifest at fault.
fn manifest_of<'b>(fault: &'b BagFault<'_>) -> Option<&'b str>
    ensures { option_copied result ≡ option_and_then manifest_in (named_fault fault.now) }
{
    match fault {
        BagFault::UnsupportedAlgorithm { manifest }
        | BagFault::ManifestText { manifest, .. }
        | BagFault::OutsidePayload { manifest, .. }
        | BagFault::TagManifestListed { manifest, .. }
        | BagFault::PayloadInTagManifest { manifest, .. }
        | BagFault::PayloadManifestUnlisted { manifest, .. }
        | BagFault::Missing { manifest, .. }
        | BagFault::Unlisted { manifest, .. }
        | BagFault::ChecksumWrong { manifest, .. } => Some(manifest),
        _ => None,
    }
}

/// The path at fault.
fn path_of<'b>(fault: &'b BagFault<'_>) -> Option<&'b str>
    ensures { option_copied result ≡ option_and_then path_in (named_fault fault.now) }
{
    match fault {
        BagFault::OutsidePayload { path, .. }
        | BagFault::TagManifestListed { path, .. }
        | BagFault::PayloadInTagManifest { path, .. }
        | BagFault::PayloadManifestUnlisted { path, .. }
        | BagFault::Missing { path, .. }
        | BagFault::Unlisted { path, .. }
        | BagFault::ChecksumWrong { path, .. } => Some(path.as_str()),
        _ => None,
    }
}

/// A name or a path, to be printed after a space, where there is one.
#[derive(Clone, Copy)]
struct AfterSpace<'a>(Option<&'a str>);

impl<'a> fmt::Display for AfterSpace<'a> {
    ghost output = { λ name. Some (after_space (option_copied name.0)) };

    fn fmt<W: fmt::Write>(&self, f: &mut fmt::Formatter<W>) -> fmt::Result {
        match self.0 {
            Some(name) => {
                let text = utf8_percent_encode(name, escaped_bytes());
                write!(f, " {text}")
            }
            None => Ok(()),
        }
    }
}

/// Writes why a text of the bag is refused, where it is.
fn write_cause<W: fmt::Write>(f: &mut fmt::Formatter<W>, fault: &BagFault<'_>) -> fmt::Result
    ensures { DisplaysOnOk W.write_str_gives f.old result
        (Some (cause_or (named_fault fault.now))) f.new }
{
    match fault {
        BagFault::Declaration(cause) => write!(f, " {cause}"),
        BagFault::ManifestText { fault: cause, .. } => write!(f, " {cause}"),
        BagFault::InfoText(cause) => write!(f, " {cause}"),
        _ => Ok(()),
    }
}

impl<'a> Error for BagFault<'a> {}
