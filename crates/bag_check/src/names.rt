//! The names of a bag's files: which are manifests, and which payload.

ghost use Rattle.std.specs.Prelude.{◌≡◌, codes, length, nat_eq, nat_lt, not, ◌&&◌, ◌+◌, ◌==◌, option_copied, option_map};
ghost use Rattle.std.specs.List.{list_any, starts_with, ends_with};
ghost use Rattle.bag_check.specs.Contents.{alg_after, manifest_name, is_kind, is_manifest_of, algorithm_named, is_payload};

use bag_text::Algorithm;

/// What a manifest lists: payload files, or tag files.
#[derive(Clone, Copy, Debug, PartialEq, Eq)]
pub enum Kind {
    Payload,
    Tag,
}

/// Whether a slash is in a path.
fn has_slash(path: &[u8]) -> bool
    ensures { result ≡ list_any (λ b. b == 47) path.now }
{
    path.contains(&b'/')
}

/// Whether a path is `stem`, at least one byte, and `.txt`, and at the top.
fn is_between(stem: &[u8], path: &[u8]) -> bool
    ensures { result ≡ (starts_with nat_eq path.now stem.now
        && ends_with nat_eq path.now (codes ".txt")
        && nat_lt (length stem.now + 4) (length path.now)
        && not (list_any (λ b. b == 47) path.now)) }
{
    path.starts_with(stem)
        && path.ends_with(b".txt")
        && stem.len() + 4 < path.len()
        && !has_slash(path)
}

/// ALG in a top path that is `stem`, ALG, not empty, and `.txt`.
fn algorithm_after<'a>(stem: &str, path: &'a str) -> Option<&'a [u8]>
    ensures { option_copied result ≡ alg_after stem.now path.now }
{
    let stem = stem.as_bytes();
    let path = path.as_bytes();
    if !is_between(stem, path) {
        return None;
    }
    let named = &path[..path.len() - 4];
    Some(&named[stem.len()..])
}

/// The kind and ALG of a path that is a manifest's name.
pub fn manifest_of<'a>(path: &'a str) -> Option<(Kind, &'a [u8])>
    ensures { option_map (λ found. (found.0, found.1.now)) result ≡ manifest_name path.now }
{
    match algorithm_after("manifest-", path) {
        Some(alg) => Some((Kind::Payload, alg)),
        None => match algorithm_after("tagmanifest-", path) {
            Some(alg) => Some((Kind::Tag, alg)),
            None => None,
        },
    }
}

/// Whether the second kind is the first.
pub fn is_kind(wanted: Kind, kind: Kind) -> bool
    ensures { result ≡ is_kind wanted kind }
{
    kind == wanted
}

/// Whether a path is the name of a manifest of this kind.
pub fn is_manifest_of(wanted: Kind, path: &str) -> bool
    ensures { result ≡ is_manifest_of wanted path.now }
{
    match manifest_of(path) {
        Some((kind, _)) => is_kind(wanted, kind),
        None => false,
    }
}

/// The algorithm of this name in a manifest's name.
pub fn algorithm_of(alg: &[u8]) -> Option<Algorithm>
    ensures { result ≡ algorithm_named alg.now }
{
    if alg == b"sha256".as_slice() {
        Some(Algorithm::Sha256)
    } else if alg == b"sha512".as_slice() {
        Some(Algorithm::Sha512)
    } else {
        None
    }
}

/// Whether a path is one of the payload.
pub fn is_payload_path(path: &str) -> bool
    ensures { result ≡ is_payload path.now }
{
    path.as_bytes().starts_with(b"data/")
}
