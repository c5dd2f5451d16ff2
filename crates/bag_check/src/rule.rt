//! The rules that a manifest may break at a path.

/// A rule that a manifest of a bag keeps for each path.
#[derive(Clone, Copy, Debug, PartialEq, Eq)]
pub enum Rule {
    OutsidePayload,
    TagManifestListed,
    PayloadInTagManifest,
    PayloadManifestUnlisted,
    Missing,
    Unlisted,
    ChecksumWrong,
}
