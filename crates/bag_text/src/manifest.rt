//! Reading manifests.

ghost use Rattle.std.specs.Prelude.{◌≡◌, ◌<◌, ◌+◌, true, false, List, [], length, map, ℕ, Option, option_map, None, Some, Ok, Err, IfOk, IfSome};
ghost use Rattle.std.specs.List.{list_all, position_or_len};
ghost use Rattle.bag_text.specs.Text.{is_blank, begins_with};
ghost use Rattle.bag_text.specs.Paths.{is_good};
ghost use Rattle.bag_text.specs.Lines.{lines};
ghost use Rattle.bag_text.specs.Manifest.{leading_escape, has_coded, decode};
ghost use Rattle.bag_text.specs.ManifestReading.{next_char, good_of, key_of, checksum_in, path_spelled, entry_of, manifest_of, add_line_of, entries_of, entry_in, named_line_fault};
ghost use Rattle.bag_text.specs.Answers.{Gives};
ghost use Rattle.std.specs.Prelude.{◌↔◌, ◌⊎◌, IfErr, IsTrue, IsSome, Contains, is_some};
ghost use Rattle.std.specs.Cow.{IsBorrowedStr};
ghost use Rattle.std.specs.Global.{Global};
ghost use Rattle.std.specs.declared.borrow.CowStr.{CowStr};
ghost use Rattle.bag_text.specs.declared.checksum.Checksum.{Checksum};
ghost use Rattle.bag_text.specs.declared.listing.Listing.{Listing};
ghost use Rattle.bag_text.specs.declared.listing.LineFault.{LineFault};
ghost use Rattle.bag_text.specs.declared.listing.LineFault.TheVariants.{Memory};
ghost use Rattle.bag_text.specs.Manifest.{path_text, LineIs, as_manifest, LineLists, IsManifest, AscendingPaths, ManifestFault};
ghost use Rattle.bag_text.specs.ManifestReading.{entries_in, paths_of, listing_at, HasEntry, HasPath};

use crate::checksum::{Algorithm, Checksum};
use crate::declaration::Version;
use crate::lines::split_line;
use crate::listing::{LineFault, Listing, Manifest};
use crate::path::good_path;
use crate::text::{has_byte_order_mark, is_blank_byte, is_text, without_first_blanks};
use hex::FromHex;
use std::alloc::{AllocError, Global};
use std::borrow::CowStr;
use std::collections::BTreeMap;

/// The character that a text's first three bytes mean.
fn first_coded(version: Version, text: &[u8]) -> Option<u8>
    ensures { result ≡ leading_escape version text.now }
{
    match text {
        [b'%', b'0', b'A' | b'a', ..] => Some(b'\n'),
        [b'%', b'0', b'D' | b'd', ..] => Some(b'\r'),
        [b'%', b'2', b'5', ..] => match version {
            Version::V1_0 => Some(b'%'),
            Version::V0_97 => None,
        },
        _ => None,
    }
}

/// The first character that is spelled, and the spelling of the others.
fn read_char<'a>(version: Version, spelled: &'a [u8]) -> Option<(u8, &'a [u8])>
    ensures value { option_map (λ x. (x.0, x.1.now)) result ≡ next_char version spelled.now }
    ensures shorter { IfSome result (λ x. length x.1.now < length spelled.now) }
{
    match spelled {
        [] => None,
        [first, rest @ ..] => match first_coded(version, spelled) {
            Some(byte) => Some((byte, &rest[2..])),
            None => Some((*first, rest)),
        },
    }
}

/// The path that is spelled so.
pub fn decode(alloc: Global, version: Version, spelled: &[u8]) -> Result<Vec<u8>, AllocError>
    ensures { IfOk result (λ v. v.items ≡ decode version spelled.now) }
{
    let mut path = Vec::new(alloc);
    let mut rest = spelled;
    while let Some((byte, after)) = read_char(version, rest) {
        path.push(byte)?;
        rest = after;
    }
    Ok(path)
}

/// Whether a coded triple begins somewhere in a text: `%0A`, `%0D`, or in version 1.0 `%25`.
pub fn has_coded(version: Version, text: &[u8]) -> bool
    ensures { result ≡ has_coded version text.now }
{
    let mut rest = text;
    while let [_, after @ ..] = rest {
        if first_coded(version, rest).is_some() {
            return true;
        }
        rest = after;
    }
    false
}

pub fn is_starred(text: &[u8]) -> bool
    ensures { result ≡ begins_with 42 text.now }
{
    matches!(text, [b'*', ..])
}

fn borrowed_path<'a>(bytes: &'a [u8]) -> Option<CowStr<'a, Global>>
    ensures { option_map key_of result ≡ good_of false bytes.now }
{
    match good_path(bytes) {
        Some(path) => Some(CowStr::Borrowed(path)),
        None => None,
    }
}

fn owned_path<'a>(bytes: Vec<u8>) -> Option<CowStr<'a, Global>>
    ensures { option_map key_of result ≡ good_of true bytes.items }
{
    if !is_good_path(bytes.as_slice()) {
        return None;
    }
    match String::from_utf8(bytes) {
        Ok(path) => Some(CowStr::Owned(path)),
        Err(_) => None,
    }
}

fn is_good_path(bytes: &[u8]) -> bool
    ensures { result ≡ is_good bytes.now }
{
    good_path(bytes).is_some()
}

/// The good path that is spelled so, borrowed where nothing is decoded.
#[tactic(auto, using(crate::proofs::ManifestLemmas::plain))]
fn read_path<'a>(
    alloc: Global,
    version: Version,
    spelled: &'a [u8],
) -> Result<Option<CowStr<'a, Global>>, AllocError>
    ensures { IfOk result (λ path. option_map key_of path ≡ path_spelled version spelled.now) }
{
    if is_starred(spelled) {
        return Ok(None);
    }
    if !has_coded(version, spelled) {
        return Ok(borrowed_path(spelled));
    }
    let path = decode(alloc, version, spelled)?;
    Ok(owned_path(path))
}

fn read_checksum(algorithm: Algorithm, digits: &[u8]) -> Option<Checksum>
    ensures { result ≡ checksum_in algorithm digits.now }
{
    match algorithm {
        Algorithm::Sha256 => match <[u8; 32] as FromHex>::from_hex(digits) {
            Ok(bytes) => Some(Checksum::Sha256(bytes)),
            Err(_) => None,
        },
        Algorithm::Sha512 => match <[u8; 64] as FromHex>::from_hex(digits) {
            Ok(bytes) => Some(Checksum::Sha512(bytes)),
            Err(_) => None,
        },
    }
}

/// How many bytes come before the first blank.
pub fn sum_len(line: &[u8]) -> usize
    ensures { result ≡ position_or_len is_blank line.now }
{
    line.iter()
        .position(|b| is_blank_byte(*b))
        .unwrap_or(line.len())
}

fn is_blank_line(line: &[u8]) -> bool
    ensures { result ≡ list_all is_blank line.now }
{
    line.iter().all(|b| is_blank_byte(*b))
}

/// What a line lists.
#[tactic(auto, using(crate::proofs::ManifestLemmas::sum_fits), unfolding(crate::specs::ManifestReading::entry_of))]
fn read_line<'a>(
    alloc: Global,
    version: Version,
    algorithm: Algorithm,
    number: usize,
    line: &'a [u8],
) -> Result<(CowStr<'a, Global>, Listing), LineFault>
    ensures { Gives named_line_fault entry_in result (entry_of version algorithm number line.now) }
{
    let (digits, rest) = line.split_at(sum_len(line));
    let checksum = read_checksum(algorithm, digits).ok_or(LineFault::BadChecksum(number))?;
    let spelled = without_first_blanks(rest);
    if spelled.is_empty() {
        return Err(LineFault::NoPath(number));
    }
    match read_path(alloc, version, spelled) {
        Ok(Some(path)) => Ok((
            path,
            Listing {
                checksum,
                line: number,
            },
        )),
        Ok(None) => Err(LineFault::BadPath(number)),
        Err(_) => Err(LineFault::Memory),
    }
}

/// Adds what a line lists.
#[tactic(auto, unfolding(crate::specs::ManifestReading::add_line_of))]
fn add_line<'a>(
    alloc: Global,
    version: Version,
    algorithm: Algorithm,
    number: usize,
    line: &'a [u8],
    entries: &mut BTreeMap<CowStr<'a, Global>, Listing>,
) -> Result<(), LineFault>
    ensures { Gives named_line_fault (λ x.
        map entry_in entries.new.entries) result
        (add_line_of version algorithm number (map entry_in entries.old.entries) line.now) }
{
    if is_blank_line(line) {
        return Ok(());
    }
    let (path, listing) = read_line(alloc, version, algorithm, number, line)?;
    if entries.insert(path, listing)?.is_some() {
        return Err(LineFault::ListedTwice(number));
    }
    Ok(())
}

/// What the lines of a text list, by path.
fn read_entries<'a>(
    alloc: Global,
    version: Version,
    algorithm: Algorithm,
    text: &'a [u8],
) -> Result<BTreeMap<CowStr<'a, Global>, Listing>, LineFault>
    ensures { Gives named_line_fault (λ m.
        map entry_in m.entries) result (entries_of version algorithm 1 [] (lines text.now)) }
{
    let mut entries: BTreeMap<CowStr<'a, Global>, Listing> = BTreeMap::new(alloc);
    let mut rest = text;
    let mut number: usize = 1;
    while !rest.is_empty() {
        let (line, after) = split_line(rest);
        add_line(alloc, version, algorithm, number, line, &mut entries)?;
        rest = after;
        number += 1;
    }
    Ok(entries)
}

/// What a manifest's lines list, or its first fault.
#[tactic(auto, unfolding(crate::specs::ManifestReading::manifest_of))]
fn read_lines<'a>(
    alloc: Global,
    version: Version,
    algorithm: Algorithm,
    text: &'a [u8],
) -> Result<Manifest<'a>, LineFault>
    ensures { Gives named_line_fault entries_in result (manifest_of version algorithm text.now) }
{
    if !is_text(text) {
        return Err(LineFault::NotUtf8);
    }
    if has_byte_order_mark(text) {
        return Err(LineFault::ByteOrderMark);
    }
    let entries = read_entries(alloc, version, algorithm, text)?;
    Ok(Manifest { entries })
}

/// Reads a manifest (RFC 8493, section 2.1.3): what its lines list, ascending by path, or the first fault of the text.
///
/// Each line is a checksum in hex digits, one or more blanks, and a spelled path; lines of blanks are skipped. In
/// a spelled path `%0A` and `%0D` mean LF and CR, and in version 1.0 `%25` means `%`.
/// A path in which nothing is decoded is borrowed from the text.
pub fn read_manifest<'a>(
    alloc: Global,
    text: &'a [u8],
    version: Version,
    algorithm: Algorithm,
) -> Result<Manifest<'a>, LineFault>
    // What is read is a manifest, and each is read, unless memory runs out.
    ensures is_manifest { IfOk result (λ m. IsManifest version algorithm text.now) }
    ensures reads { IsManifest version algorithm text.now
        → IfErr result (λ fault. fault ≡ Memory) }

    // A path, a checksum and a line are an entry exactly where that line lists the path with the checksum.
    ensures lists { IfOk result (λ m. (path : List ℕ) (checksum : Checksum) (line : ℕ)
        → HasEntry m path checksum line
        ↔ LineLists (as_manifest version algorithm text.now) line path checksum) }
    ensures ascending { IfOk result (λ m. AscendingPaths (paths_of m)) }

    // A path is borrowed exactly where no coded triple is in its spelling.
    ensures borrowed { IfOk result (λ m.
        (path : CowStr Global) (listing : Listing) (line : List ℕ)
        → Contains m.entries.entries (path, listing) → LineIs text.now listing.line line
        → IsBorrowedStr path ↔ (has_coded version (path_text line) ≡ false)) }

    // A refusal names the first fault of the text, and where one applies it is the answer, unless memory runs out.
    ensures refused { IfErr result (λ fault.
        (fault ≡ Memory) ⊎ ManifestFault version algorithm text.now fault) }
    ensures first_fault { (fault : LineFault) → ManifestFault version algorithm text.now fault
        → (result ≡ Err fault) ⊎ (result ≡ Err Memory) }

    // The same by computing.
    ensures exact { Gives named_line_fault entries_in result
        (manifest_of version algorithm text.now) }
{
    read_lines(alloc, version, algorithm, text)
}

impl<'a> Manifest<'a> {
    /// What the manifest says of the path.
    pub fn get(&self, path: &str) -> Option<Listing>
        ensures entry { IfSome result (λ listing.
            HasEntry self.now path.now listing.checksum listing.line) }
        ensures found { IsSome result ↔ HasPath self.now path.now }
        ensures exact { result ≡ listing_at path.now self.now }
    {
        self.entries.get(path).copied()
    }

    /// Whether some line lists the path.
    pub fn lists(&self, path: &str) -> bool
        ensures lists { IsTrue result ↔ HasPath self.now path.now }
        ensures exact { result ≡ is_some (listing_at path.now self.now) }
    {
        self.entries.contains_key(path)
    }
}
