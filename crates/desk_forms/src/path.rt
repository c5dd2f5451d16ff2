//! Paths of files, percent-decoded.

ghost use Rattle.std.specs.Prelude.{◌≡◌, IfOk};
ghost use Rattle.percent_encoding.specs.Percent.{percent_decode};

use percent_encoding::percent_decode_str;
use std::alloc::{AllocError, Global};
use std::marker::Model;

/// A path, decoded. It owns its bytes, which need not be a text. Contracts see it as its bytes.
#[derive(Debug, Drop)]
pub struct OwnedPath {
    bytes: Vec<u8>,
}

impl Model for OwnedPath {
    ghost use Rattle.std.specs.Prelude.{List, ℕ};

    ghost Value = { List ℕ };

    ghost view = { λ path. path.bytes.items };
}

impl OwnedPath {
    /// The bytes, lent.
    pub fn as_bytes(&self) -> &[u8]
        ensures { result.now ≡ self.now }
    {
        self.bytes.as_slice()
    }
}

/// The bytes that a path means: each `%` and two hexadecimal digits give the byte that they
/// write, once. Any other byte stays itself, `+` and a `%` without two such digits too.
pub fn decode_path(alloc: Global, path: &str) -> Result<OwnedPath, AllocError>
    ensures { IfOk result (λ decoded. decoded ≡ percent_decode path.now) }
{
    let mut bytes = Vec::new(alloc);
    percent_decode_str(path).append_to(&mut bytes)?;
    Ok(OwnedPath { bytes })
}
