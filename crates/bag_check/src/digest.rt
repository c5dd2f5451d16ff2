//! Fixity: the digest of a file beside its checksum.

ghost use Rattle.std.specs.Prelude.{◌≡◌, ◌↔◌, IsTrue};
ghost use Rattle.bag_check.specs.Fixity.{Matches, matches_of};

use bag_text::Checksum;
use sha2::{Digest, Sha256, Sha512};

/// Whether the digest of the bytes, by the checksum's algorithm (FIPS 180-4), is the checksum.
pub fn digest_matches(bytes: &[u8], checksum: &Checksum) -> bool
    ensures { IsTrue result ↔ Matches bytes.now checksum.now }
{
    is_digest(bytes, checksum)
}

pub(crate) fn is_digest(bytes: &[u8], checksum: &Checksum) -> bool
    ensures { result ≡ matches_of bytes.now checksum.now }
{
    match checksum {
        Checksum::Sha256(wanted) => Sha256::digest(bytes) == *wanted,
        Checksum::Sha512(wanted) => Sha512::digest(bytes) == *wanted,
    }
}
