//! Checksums and their algorithms.

/// The algorithms that a manifest may be of: SHA-256 and SHA-512 (FIPS 180-4).
#[derive(Clone, Copy, Debug, PartialEq, Eq)]
pub enum Algorithm {
    /// SHA-256, whose checksums are 32 bytes.
    Sha256,
    /// SHA-512, whose checksums are 64 bytes.
    Sha512,
}

/// A checksum: its algorithm and its bytes, which a manifest spells by two hex digits each.
#[derive(Clone, Copy, Debug, PartialEq, Eq)]
pub enum Checksum {
    /// One of SHA-256.
    Sha256([u8; 32]),
    /// One of SHA-512.
    Sha512([u8; 64]),
}
