//! The SHA-256 of each file of a bag: those that its manifests list aren't computed again.

ghost use Rattle.std.specs.Prelude.{◌≡◌, Contains, IfOk, IfSome, map};
ghost use Rattle.sha2.specs.Sha256.{sha256};
ghost use Rattle.bag_text.specs.TransferForm.{File};
ghost use Rattle.bag_text.specs.TransferReading.{file_of, files_of};
ghost use Rattle.bag_check.specs.Answers.{listed_seen};
ghost use Rattle.bag_check.specs.Digests.{AreRightOf, ListsSha256, listed_sha256};

use crate::listed::Listed;
use bag_text::Checksum;
use sha2::{Digest, Sha256};
use std::alloc::{AllocError, Global};

/// The SHA-256 that a manifest lists of a path.
fn listed_digest(listed: &Listed<'_>, path: &str) -> Option<[u8; 32]>
    ensures exact { result ≡ listed_sha256 listed.now.manifest path.now }
    ensures listed { IfSome result (λ digest.
        ListsSha256 (listed_seen listed.now).entries path.now digest) }
{
    match listed.manifest.get(path)?.checksum {
        Checksum::Sha256(digest) => Some(digest),
        Checksum::Sha512(_) => None,
    }
}

/// The SHA-256 of a file, of which the manifests list none but that.
fn digest_of(listed: &[Listed<'_>], file: &(&str, &[u8])) -> [u8; 32]
    requires { AreRightOf (map listed_seen listed.now) (file_of file.now) }
    ensures { result ≡ sha256 file.now.1.now }
{
    for one in listed {
        if let Some(digest) = listed_digest(one, file.0) {
            return digest;
        }
    }
    Sha256::digest(file.1)
}

/// The SHA-256 of each file, of which the manifests list none but that.
pub fn digests_of(
    alloc: Global,
    listed: &[Listed<'_>],
    files: &[(&str, &[u8])],
) -> Result<Vec<[u8; 32]>, AllocError>
    requires { (f : File) → Contains (files_of files.now) f
        → AreRightOf (map listed_seen listed.now) f }
    ensures { IfOk result (λ digests.
        digests.items ≡ map (λ file. sha256 file.1.now) files.now) }
{
    let mut digests = Vec::with_capacity(alloc, files.len())?;
    for file in files {
        digests.push(digest_of(listed, file))?;
    }
    Ok(digests)
}
