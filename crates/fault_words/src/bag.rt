//! Why a bag is not valid, in words.

ghost use Rattle.std.specs.Prelude.{◌≡◌, ◌++◌, None, Some, codes, option_copied};
ghost use Rattle.std.specs.Cow.{cow_str_bytes};
ghost use Rattle.std.specs.Fmt.{DisplaysOnOk};
ghost use Rattle.bag_check.specs.Answers.{named_fault};
ghost use Rattle.bag_check.specs.FaultTexts.{printed_text};
ghost use Rattle.bag_check.specs.declared.rule.Rule.TheVariants as rules_of;
ghost use Rattle.fault_words.specs.FaultWords.{broken_rule_words, rule_words, whole_sentence, words_of_bag};

use crate::escaped::{Escaped, name_and_path};
use crate::in_words::InWords;
use crate::tag_files::{declaration_words, write_info, write_manifest};
use bag_check::BagFault;
use std::alloc::Global;
use std::borrow::CowStr;
use std::fmt;

impl<'a, 'b> fmt::Display for InWords<'a, BagFault<'b>> {
    ghost output = { λ words. Some (words_of_bag words.0.now) };

    fn fmt<W: fmt::Write>(&self, f: &mut fmt::Formatter<W>) -> fmt::Result {
        match whole_sentence(self.0) {
            Some(words) => f.write_str(words),
            None => write_naming(f, self.0),
        }
    }
}

/// What is said of a fault that names no manifest and no line.
fn whole_sentence(fault: &BagFault<'_>) -> Option<&'static str>
    ensures { option_copied result ≡ whole_sentence (named_fault fault.now) }
{
    match fault {
        BagFault::NoDeclaration => Some("the bag has no bagit.txt (B1)"),
        BagFault::Declaration(fault) => Some(declaration_words(fault)),
        BagFault::FetchNotSupported => Some(
            "the bag has a fetch.txt, and a bag must hold all its files itself (B3)",
        ),
        BagFault::NoPayloadManifest => Some(
            "the bag has neither manifest-sha256.txt nor manifest-sha512.txt (B5)",
        ),
        BagFault::OxumForm => Some(
            "the Payload-Oxum of bag-info.txt is not two numbers of 1 to 20 digits with a full stop between them (B14)",
        ),
        BagFault::OxumTwice => Some("bag-info.txt has more than one Payload-Oxum (B15)"),
        BagFault::OxumWrong => Some(
            "the bytes and files that Payload-Oxum in bag-info.txt names are not those of the payload (B16)",
        ),
        BagFault::Memory => Some("memory ran out (B18)"),
        _ => None,
    }
}

/// Says what is wrong with the manifest, the path or the line that a fault names.
fn write_naming<W: fmt::Write>(f: &mut fmt::Formatter<W>, fault: &BagFault<'_>) -> fmt::Result
    requires { whole_sentence (named_fault fault.now) ≡ None }
    ensures { DisplaysOnOk W.write_str_gives f.old result
        (Some (words_of_bag fault.now)) f.new }
{
    match fault {
        BagFault::UnsupportedAlgorithm { manifest } => {
            let manifest = Escaped(manifest);
            write!(
                f,
                "{manifest} is of an algorithm other than sha256 and sha512 (B4)"
            )
        }
        BagFault::ManifestText { manifest, fault } => write_manifest(f, Escaped(manifest), fault),
        BagFault::InfoText(fault) => write_info(f, fault),
        _ => write_broken_rule(f, fault),
    }
}

/// Says this of a path that a manifest lists.
fn write_listed<W: fmt::Write>(
    f: &mut fmt::Formatter<W>,
    manifest: &str,
    path: &CowStr<'_, Global>,
    what: &str,
) -> fmt::Result
    ensures { DisplaysOnOk W.write_str_gives f.old result
        (Some (printed_text manifest.now ++ codes " lists "
        ++ printed_text (cow_str_bytes path.now) ++ what.now)) f.new }
{
    let (manifest, path) = name_and_path(manifest, path);
    write!(f, "{manifest} lists {path}{what}")
}

/// Says which rule a manifest breaks at a path that it lists or leaves out, if the fault is that it
/// breaks one.
fn write_broken_rule<W: fmt::Write>(f: &mut fmt::Formatter<W>, fault: &BagFault<'_>) -> fmt::Result
    ensures { DisplaysOnOk W.write_str_gives f.old result
        (Some (broken_rule_words (named_fault fault.now))) f.new }
{
    match fault {
        BagFault::OutsidePayload { manifest, path } => write_listed(
            f,
            manifest,
            path,
            ", but a payload manifest lists files in data/ alone (B7)",
        ),
        BagFault::TagManifestListed { manifest, path } => write_listed(
            f,
            manifest,
            path,
            ", but a tag manifest lists no tag manifest (B8)",
        ),
        BagFault::PayloadInTagManifest { manifest, path } => write_listed(
            f,
            manifest,
            path,
            ", but a tag manifest lists no payload file (B9)",
        ),
        BagFault::Missing { manifest, path } => {
            write_listed(f, manifest, path, ", but the bag has no such file (B11)")
        }
        BagFault::PayloadManifestUnlisted { manifest, path } => {
            write_unlisted_manifest(f, manifest, path)
        }
        BagFault::Unlisted { manifest, path } => write_unlisted(f, manifest, path),
        BagFault::ChecksumWrong { manifest, path } => write_checksum_wrong(f, manifest, path),
        _ => Ok(()),
    }
}

/// Says that a tag manifest leaves out a payload manifest.
fn write_unlisted_manifest<W: fmt::Write>(
    f: &mut fmt::Formatter<W>,
    manifest: &str,
    path: &CowStr<'_, Global>,
) -> fmt::Result
    ensures { DisplaysOnOk W.write_str_gives f.old result
        (Some (rule_words rules_of.PayloadManifestUnlisted (printed_text manifest.now)
        (printed_text (cow_str_bytes path.now)))) f.new }
{
    let (manifest, path) = name_and_path(manifest, path);
    write!(
        f,
        "{manifest} does not list {path}, but a tag manifest lists every payload manifest (B10)"
    )
}

/// Says that a payload manifest leaves out a file.
fn write_unlisted<W: fmt::Write>(
    f: &mut fmt::Formatter<W>,
    manifest: &str,
    path: &CowStr<'_, Global>,
) -> fmt::Result
    ensures { DisplaysOnOk W.write_str_gives f.old result
        (Some (rule_words rules_of.Unlisted (printed_text manifest.now)
        (printed_text (cow_str_bytes path.now)))) f.new }
{
    let (manifest, path) = name_and_path(manifest, path);
    write!(
        f,
        "{path} is in the payload, but {manifest} does not list it (B12)"
    )
}

/// Says that a file has another digest than its checksum.
fn write_checksum_wrong<W: fmt::Write>(
    f: &mut fmt::Formatter<W>,
    manifest: &str,
    path: &CowStr<'_, Global>,
) -> fmt::Result
    ensures { DisplaysOnOk W.write_str_gives f.old result
        (Some (rule_words rules_of.ChecksumWrong (printed_text manifest.now)
        (printed_text (cow_str_bytes path.now)))) f.new }
{
    let (manifest, path) = name_and_path(manifest, path);
    write!(
        f,
        "the digest of {path} is not the checksum in {manifest} (B17)"
    )
}
