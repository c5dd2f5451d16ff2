//! What is counted of the payload.

ghost use Rattle.std.specs.Prelude.{◌≡◌};
ghost use Rattle.bag_text.specs.TransferForm.{IsBag};
ghost use Rattle.bag_text.specs.TransferReading.{files_of};
ghost use Rattle.bag_check.specs.Validity.{payload_files, payload_bytes};

use crate::names::is_payload_path;
use bag_text::BagSet;

/// What is counted of a bag's payload.
#[derive(Clone, Copy, Debug, PartialEq, Eq)]
pub struct PayloadCounts {
    /// How many payload files there are.
    pub files: usize,
    /// How many bytes the payload files have together.
    pub bytes: usize,
}

/// How many payload files a bag has, and how many bytes they have together.
pub fn count_payload(bag: &BagSet<'_>) -> PayloadCounts
    ensures files { result.files ≡ payload_files bag.now }
    ensures bytes { result.bytes ≡ payload_bytes bag.now }
{
    count_files(bag.files())
}

/// The same of a bag's files.
fn count_files(files: &[(&str, &[u8])]) -> PayloadCounts
    requires { IsBag (files_of files.now) }
    ensures files { result.files ≡ payload_files (files_of files.now) }
    ensures bytes { result.bytes ≡ payload_bytes (files_of files.now) }
{
    let mut count = 0;
    let mut bytes = 0;
    for file in files {
        if is_payload_path(file.0) {
            count += 1;
            bytes += file.1.len();
        }
    }
    PayloadCounts {
        files: count,
        bytes,
    }
}
