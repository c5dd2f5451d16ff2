//! Why the line of a manifest lists no good path.

ghost use Rattle.std.specs.Prelude.{◌≡◌, ◌↔◌, [], bytes_eq, find, IfOk, IsSome};
ghost use Rattle.std.specs.List.{list_any};
ghost use Rattle.bag_text.specs.Paths.{segments};
ghost use Rattle.bag_text.specs.Manifest.{IsNoGoodPath, path_text};
ghost use Rattle.bag_text.specs.PathCauses.{own_causes, path_cause, stands_for};

use crate::declaration::Version;
use crate::manifest::{decode, is_starred, sum_len};
use crate::path::{MAX_PATH, has_empty_segment, has_nul};
use crate::text::{is_text, without_first_blanks};
use std::alloc::{AllocError, Global};

/// Why a line of a manifest lists no good path (L5): the first cause that applies, in this order.
#[derive(Clone, Copy, Debug, PartialEq, Eq)]
pub enum PathCause {
    /// The spelled path begins with `*`, by which checksum tools mark a binary file.
    Starred,
    /// The path is not UTF-8.
    NotUtf8,
    /// The path has more than 1,024 bytes.
    TooLong,
    /// A segment is empty: two slashes follow one another, or one is at an end.
    EmptySegment,
    /// A segment is `.`.
    DotSegment,
    /// A segment is `..`.
    DotDotSegment,
    /// The path has a NUL.
    Nul,
}

fn has_segment(path: &[u8], wanted: &[u8]) -> bool
    ensures { result ≡ list_any (λ s. bytes_eq s wanted.now) (segments path.now) }
{
    path.split(|b| *b == b'/').any(|s| s == wanted)
}

/// Why a path is no good one.
fn cause_in(path: &[u8]) -> Option<PathCause>
    ensures { result ≡ find (stands_for [] path.now) own_causes }
{
    if !is_text(path) {
        Some(PathCause::NotUtf8)
    } else if path.len() > MAX_PATH {
        Some(PathCause::TooLong)
    } else if has_empty_segment(path) {
        Some(PathCause::EmptySegment)
    } else if has_segment(path, b".") {
        Some(PathCause::DotSegment)
    } else if has_segment(path, b"..") {
        Some(PathCause::DotDotSegment)
    } else if has_nul(path) {
        Some(PathCause::Nul)
    } else {
        None
    }
}

/// What a line spells after its checksum.
#[tactic(auto, using(crate::proofs::ManifestLemmas::sum_fits))]
fn spelled_in(line: &[u8]) -> &[u8]
    ensures { result.now ≡ path_text line.now }
{
    let (_, rest) = line.split_at(sum_len(line));
    without_first_blanks(rest)
}

/// Why the line of a manifest of this version lists no good path: the first cause that applies. There
/// is none where the path is good.
pub fn path_cause(
    alloc: Global,
    version: Version,
    line: &[u8],
) -> Result<Option<PathCause>, AllocError>
    // It is the first of the seven that applies.
    ensures first { IfOk result (λ cause. cause ≡ path_cause version (path_text line.now)) }
    // One is found exactly where the line lists no good path.
    ensures found { IfOk result (λ cause.
        IsSome cause ↔ IsNoGoodPath version (path_text line.now)) }
{
    let spelled = spelled_in(line);
    if is_starred(spelled) {
        return Ok(Some(PathCause::Starred));
    }
    let path = decode(alloc, version, spelled)?;
    Ok(cause_in(&path))
}
