//! The first breach of a rule of manifests: the name of a manifest, and a path.

ghost use Rattle.std.specs.Prelude.{◌≡◌, map, IfOk, option_map, option_copied};
ghost use Rattle.std.specs.Cow.{cow_str_bytes};
ghost use Rattle.bag_text.specs.TransferForm.{content_at};
ghost use Rattle.bag_text.specs.TransferReading.{files_of};
ghost use Rattle.bag_text.specs.ManifestReading.{entry_in};
ghost use Rattle.bag_check.specs.Judging.{concerns, is_about_files, asks_for, is_wrong, breaks_at, first_listed, first_unlisted, first_in, first_breach};
ghost use Rattle.bag_check.specs.Answers.{listed_seen, breach_seen};

use crate::digest::is_digest;
use crate::listed::Listed;
use crate::names::{Kind, is_kind, is_manifest_of, is_payload_path};
use crate::rule::Rule;
use bag_text::{BagSet, Checksum, Listing, Manifest};
use std::alloc::{AllocError, Global};
use std::borrow::CowStr;

/// Whether a file isn't the one that the checksum was made of.
fn is_wrong(bag: &BagSet<'_>, path: &str, checksum: &Checksum) -> bool
    ensures { result ≡ is_wrong checksum.now (content_at bag.now path.now) }
{
    match bag.get(path) {
        Some(content) => !is_digest(content, checksum),
        None => false,
    }
}

/// Whether a rule is for manifests of this kind.
fn concerns(rule: Rule, kind: Kind) -> bool
    ensures { result ≡ concerns rule kind }
{
    match rule {
        Rule::OutsidePayload | Rule::Unlisted => is_kind(Kind::Payload, kind),
        Rule::TagManifestListed | Rule::PayloadInTagManifest | Rule::PayloadManifestUnlisted =>
            is_kind(Kind::Tag, kind),
        Rule::Missing | Rule::ChecksumWrong => true,
    }
}

/// Whether a rule is about files that are to be listed; the others are about what is listed.
fn is_about_files(rule: Rule) -> bool
    ensures { result ≡ is_about_files rule }
{
    match rule {
        Rule::PayloadManifestUnlisted | Rule::Unlisted => true,
        Rule::OutsidePayload
        | Rule::TagManifestListed
        | Rule::PayloadInTagManifest
        | Rule::Missing
        | Rule::ChecksumWrong => false,
    }
}

/// Whether a rule asks for the file of this path to be listed.
fn asks_for(rule: Rule, path: &str) -> bool
    ensures { result ≡ asks_for rule path.now }
{
    match rule {
        Rule::PayloadManifestUnlisted => is_manifest_of(Kind::Payload, path),
        Rule::Unlisted => is_payload_path(path),
        Rule::OutsidePayload
        | Rule::TagManifestListed
        | Rule::PayloadInTagManifest
        | Rule::Missing
        | Rule::ChecksumWrong => false,
    }
}

/// Whether what is listed of a path breaks a rule.
fn breaks(bag: &BagSet<'_>, rule: Rule, path: &CowStr<'_, Global>, listing: &Listing) -> bool
    ensures { result ≡ breaks_at bag.now rule (entry_in (path.now, listing.now)) }
{
    match rule {
        Rule::OutsidePayload => !is_payload_path(path.as_str()),
        Rule::TagManifestListed => is_manifest_of(Kind::Tag, path.as_str()),
        Rule::PayloadInTagManifest => is_payload_path(path.as_str()),
        Rule::Missing => bag.get(path.as_str()).is_none(),
        Rule::ChecksumWrong => is_wrong(bag, path.as_str(), &listing.checksum),
        Rule::PayloadManifestUnlisted | Rule::Unlisted => false,
    }
}

/// The first path that is listed and breaks a rule.
fn first_listed<'a>(
    bag: &BagSet<'_>,
    rule: Rule,
    manifest: &Manifest<'a>,
) -> Result<Option<CowStr<'a, Global>>, AllocError>
    ensures { IfOk result (λ path. option_map cow_str_bytes path
        ≡ first_listed bag.now rule (map entry_in manifest.now.entries.entries)) }
{
    for (path, listing) in &manifest.entries {
        if breaks(bag, rule, path, listing) {
            return Ok(Some(path.clone()?));
        }
    }
    Ok(None)
}

/// The first file that a rule asks for and the manifest doesn't list.
fn first_unlisted<'a>(
    files: &[(&'a str, &'a [u8])],
    rule: Rule,
    manifest: &Manifest<'a>,
) -> Option<&'a str>
    ensures { option_copied result
        ≡ first_unlisted (files_of files.now) rule (map entry_in manifest.now.entries.entries) }
{
    for file in files {
        if asks_for(rule, file.0) && !manifest.lists(file.0) {
            return Some(file.0);
        }
    }
    None
}

/// The first path at which a manifest breaks a rule.
fn first_in<'a>(
    bag: &BagSet<'a>,
    rule: Rule,
    listed: &Listed<'a>,
) -> Result<Option<CowStr<'a, Global>>, AllocError>
    ensures { IfOk result (λ path. option_map cow_str_bytes path
        ≡ first_in bag.now rule (listed_seen listed.now)) }
{
    if !concerns(rule, listed.kind) {
        return Ok(None);
    }
    if !is_about_files(rule) {
        return first_listed(bag, rule, &listed.manifest);
    }
    match first_unlisted(bag.files(), rule, &listed.manifest) {
        Some(path) => Ok(Some(CowStr::Borrowed(path))),
        None => Ok(None),
    }
}

/// The first breach of a rule: the least manifest's name, and there the least path.
pub fn first_breach<'a>(
    bag: &BagSet<'a>,
    rule: Rule,
    listed: &[Listed<'a>],
) -> Result<Option<(&'a str, CowStr<'a, Global>)>, AllocError>
    ensures { IfOk result (λ breach. option_map breach_seen breach
        ≡ first_breach bag.now rule (map listed_seen listed.now)) }
{
    for one in listed {
        if let Some(path) = first_in(bag, rule, one)? {
            return Ok(Some((one.name, path)));
        }
    }
    Ok(None)
}
