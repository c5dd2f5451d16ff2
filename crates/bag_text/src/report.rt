//! What is counted in a valid bag.

use crate::declaration::Version;

/// What is said of a valid bag.
#[derive(Clone, Copy, Debug, PartialEq, Eq)]
pub struct BagReport {
    /// The version of BagIt that the bag declares.
    pub version: Version,
    /// How many payload files there are.
    pub files: usize,
    /// How many bytes the payload files have together.
    pub bytes: usize,
    /// How many manifests there are, of both kinds.
    pub manifests: usize,
}
