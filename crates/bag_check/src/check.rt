//! Judging a bag: its counts, or its first fault.

ghost use Rattle.std.specs.Prelude.{◌≡◌, ◌⊎◌, IfOk, IfErr, IsErrAnd, MatchResult, None, Some, map};
ghost use Rattle.std.specs.List.{list_any};
ghost use Rattle.std.specs.Cow.{cow_str_bytes};
ghost use Rattle.bag_text.specs.Answers.{Gives};
ghost use Rattle.bag_text.specs.TransferReading.{files_of};
ghost use Rattle.bag_check.specs.declared.names.Kind.TheVariants.{Payload};
ghost use Rattle.bag_check.specs.Contents.{is_kind};
ghost use Rattle.bag_check.specs.Validity.{Valid, report_of, payload_files, payload_bytes};
ghost use Rattle.bag_text.specs.declared.declaration.Version.{Version};
ghost use Rattle.bag_check.specs.declared.fault.BagFault.TheVariants.{Memory};
ghost use Rattle.bag_check.specs.declared.rule.Rule.TheVariants.{ChecksumWrong};
ghost use Rattle.bag_check.specs.Digests.{digests_of};
ghost use Rattle.bag_check.specs.Faults.{Fault, Breaks, FirstFault};
ghost use Rattle.bag_check.specs.Judging.{version_declared, no_fetch, some_payload, first_breach, obeyed_by, obeys, listing_rules, obeys_contents, listings_in, judge};
ghost use Rattle.bag_check.specs.Answers.{named_fault, named_seen, listed_seen, report_seen, NamesFirst};

use crate::breach::first_breach;
use crate::digests::digests_of;
use crate::fault::BagFault;
use crate::info::check_info;
use crate::listed::{Listed, Named, find_manifests, read_manifests};
use crate::names::{Kind, is_kind};
use crate::payload::{PayloadCounts, count_payload};
use crate::report::DigestedReport;
use crate::rule::Rule;
use bag_text::{BagReport, BagSet, Version, read_declaration};
use std::alloc::Global;
use std::borrow::CowStr;

/// The version that a bag declares.
fn read_version<'a>(bag: &BagSet<'a>) -> Result<Version, BagFault<'a>>
    ensures { Gives named_fault (λ version. version) result (version_declared bag.now) }
{
    let Some(text) = bag.get("bagit.txt") else {
        return Err(BagFault::NoDeclaration);
    };
    match read_declaration(text) {
        Ok(version) => Ok(version),
        Err(fault) => Err(BagFault::Declaration(fault)),
    }
}

/// Refuses a bag with a `fetch.txt`.
fn refuse_fetch<'a>(bag: &BagSet<'a>) -> Result<(), BagFault<'a>>
    ensures { Gives named_fault (λ unit. unit) result (no_fetch bag.now) }
{
    if bag.get("fetch.txt").is_some() {
        Err(BagFault::FetchNotSupported)
    } else {
        Ok(())
    }
}

fn is_of_payload(named: &Named<'_>) -> bool
    ensures { result ≡ is_kind Payload named.now.kind }
{
    is_kind(Kind::Payload, named.kind)
}

fn has_payload_manifest(found: &[Named<'_>]) -> bool
    ensures { result ≡ list_any (λ m. is_kind Payload m.kind) (map named_seen found.now) }
{
    found.iter().any(|named| is_of_payload(named))
}

/// Refuses a bag without a payload manifest.
fn need_payload_manifest<'a>(found: &[Named<'a>]) -> Result<(), BagFault<'a>>
    ensures { Gives named_fault (λ unit. unit) result (some_payload (map named_seen found.now)) }
{
    if has_payload_manifest(found) {
        Ok(())
    } else {
        Err(BagFault::NoPayloadManifest)
    }
}

/// The fault of a rule that is broken, with where.
fn fault_at<'a>(rule: Rule, manifest: &'a str, path: CowStr<'a, Global>) -> BagFault<'a>
    ensures { named_fault result
        ≡ Some (Breaks rule manifest.entry.now (cow_str_bytes path.entry)) }
{
    match rule {
        Rule::OutsidePayload => BagFault::OutsidePayload { manifest, path },
        Rule::TagManifestListed => BagFault::TagManifestListed { manifest, path },
        Rule::PayloadInTagManifest => BagFault::PayloadInTagManifest { manifest, path },
        Rule::PayloadManifestUnlisted => BagFault::PayloadManifestUnlisted { manifest, path },
        Rule::Missing => BagFault::Missing { manifest, path },
        Rule::Unlisted => BagFault::Unlisted { manifest, path },
        Rule::ChecksumWrong => BagFault::ChecksumWrong { manifest, path },
    }
}

/// Refuses a bag that breaks a rule, with the first breach.
fn check_rule<'a>(bag: &BagSet<'a>, rule: Rule, listed: &[Listed<'a>]) -> Result<(), BagFault<'a>>
    ensures { Gives named_fault (λ unit. unit) result
        (obeyed_by rule (first_breach bag.now rule (map listed_seen listed.now))) }
{
    match first_breach(bag, rule, listed)? {
        Some((name, path)) => Err(fault_at(rule, name, path)),
        None => Ok(()),
    }
}

/// Refuses a bag that breaks one of these rules, the first rule first.
fn check_rules<'a>(
    bag: &BagSet<'a>,
    rules: &[Rule],
    listed: &[Listed<'a>],
) -> Result<(), BagFault<'a>>
    ensures { Gives named_fault (λ unit. unit) result
        (obeys bag.now (map listed_seen listed.now) rules.now) }
{
    for rule in rules {
        check_rule(bag, *rule, listed)?;
    }
    Ok(())
}

/// The rules about what is listed, without those about checksums, by their numbers.
const LISTING_RULES: [Rule; 6] = [
    Rule::OutsidePayload,
    Rule::TagManifestListed,
    Rule::PayloadInTagManifest,
    Rule::PayloadManifestUnlisted,
    Rule::Missing,
    Rule::Unlisted,
];

/// Refuses a bag that breaks a rule about what is listed.
fn check_listing_rules<'a>(bag: &BagSet<'a>, listed: &[Listed<'a>]) -> Result<(), BagFault<'a>>
    ensures { Gives named_fault (λ unit. unit) result
        (obeys bag.now (map listed_seen listed.now) listing_rules) }
{
    check_rules(bag, &LISTING_RULES, listed)
}

/// Refuses a bag with a wrong `bag-info.txt`, and then one with a wrong checksum.
fn check_contents<'a>(
    alloc: Global,
    bag: &BagSet<'a>,
    listed: &[Listed<'a>],
) -> Result<(), BagFault<'a>>
    ensures { Gives named_fault (λ unit.
        unit) result (obeys_contents bag.now (map listed_seen listed.now)) }
{
    check_info(alloc, bag)?;
    check_rules(bag, &[Rule::ChecksumWrong], listed)
}

/// What the manifests of a bag with these files list, one of them a payload manifest.
fn read_listings<'a>(
    alloc: Global,
    version: Version,
    files: &[(&'a str, &'a [u8])],
) -> Result<Vec<Listed<'a>>, BagFault<'a>>
    ensures { Gives named_fault (λ listed. map listed_seen listed.items) result
        (listings_in version (files_of files.now)) }
{
    let found = find_manifests(alloc, files)?;
    need_payload_manifest(&found)?;
    read_manifests(alloc, version, &found)
}

fn report_on(version: Version, bag: &BagSet<'_>, manifests: usize) -> BagReport
    ensures { report_seen result ≡ record {
      version = version;
      files = payload_files bag.now;
      bytes = payload_bytes bag.now;
      manifests = manifests;
    } }
{
    let PayloadCounts { files, bytes } = count_payload(bag);
    BagReport {
        version,
        files,
        bytes,
        manifests,
    }
}

/// What judging a valid bag finds: what is counted, and what its manifests list.
#[derive(Drop)]
struct Judged<'a> {
    report: BagReport,
    listed: Vec<Listed<'a>>,
}

/// Judges a bag with these files, one number of the faults after the other.
fn judge_files<'a>(
    alloc: Global,
    bag: &BagSet<'a>,
    files: &[(&'a str, &'a [u8])],
) -> Result<Judged<'a>, BagFault<'a>>
    requires { files_of files.now ≡ bag.now }
    ensures exact { Gives named_fault (λ judged. report_seen judged.report) result
        (judge bag.now) }
    ensures fixity { IfOk result (λ judged.
        first_breach bag.now ChecksumWrong (map listed_seen judged.listed.items) ≡ None) }
{
    let version = read_version(bag)?;
    refuse_fetch(bag)?;
    let listed = read_listings(alloc, version, files)?;
    check_listing_rules(bag, &listed)?;
    check_contents(alloc, bag, &listed)?;
    let report = report_on(version, bag, listed.len());
    Ok(Judged { report, listed })
}

/// What is counted in a valid bag with these files, or the first fault of another.
fn judge_bag<'a>(
    alloc: Global,
    bag: &BagSet<'a>,
    files: &[(&'a str, &'a [u8])],
) -> Result<BagReport, BagFault<'a>>
    requires { files_of files.now ≡ bag.now }
    ensures { Gives named_fault report_seen result (judge bag.now) }
{
    let judged = judge_files(alloc, bag, files)?;
    Ok(judged.report)
}

/// Judges a bag (RFC 8493, section 3): what is counted in a valid bag, or the first fault of one
/// that isn't valid.
pub fn check_bag<'a>(alloc: Global, bag: &BagSet<'a>) -> Result<BagReport, BagFault<'a>>
    // A bag that is accepted is valid, and its report counts what is there.
    ensures valid { IfOk result (λ report. Valid bag.now report.version
        × (report_seen report ≡ report_of report.version bag.now)) }
    // A valid bag is accepted, unless memory runs out.
    ensures accepts { (v : Version) → Valid bag.now v
        → MatchResult result
        (λ report. report_seen report ≡ report_of v bag.now)
        (λ fault. fault ≡ Memory) }

    // A refusal names the fault that comes first: by number, by the manifest's name, by the path.
    ensures refused { IfErr result (λ fault. (fault ≡ Memory) ⊎ NamesFirst bag.now fault) }
    // Where a fault comes first it is the one that is named, unless memory runs out.
    ensures first_fault { (first : Fault) → FirstFault bag.now first
        → IsErrAnd result (λ fault. (fault ≡ Memory) ⊎ (named_fault fault ≡ Some first)) }

    // What judging the bag step by step gives.
    ensures exact { Gives named_fault report_seen result (judge bag.now) }
{
    judge_bag(alloc, bag, bag.files())
}

/// Judges a bag as `check_bag` does, and gives the SHA-256 of each file of a valid one. Where a manifest lists
/// it, it was computed once, to be compared.
pub fn check_and_digest<'a>(alloc: Global, bag: &BagSet<'a>) -> Result<DigestedReport, BagFault<'a>>
    ensures exact { Gives named_fault (λ digested. report_seen digested.report) result
        (judge bag.now) }
    ensures digests { IfOk result (λ digested. digested.digests.items ≡ digests_of bag.now) }
{
    let files = bag.files();
    let judged = judge_files(alloc, bag, files)?;
    let digests = digests_of(alloc, &judged.listed, files)?;
    Ok(DigestedReport {
        report: judged.report,
        digests,
    })
}
