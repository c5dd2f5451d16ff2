//! Bags as they are kept.

ghost use Rattle.std.specs.Prelude.{◌≡◌, ◌≤◌, Ok, IfOk, find, bytes_eq, option_copied, length};
ghost use Rattle.bag_text.specs.TransferForm.{IsBag, set_text, content_at};
ghost use Rattle.bag_text.specs.TransferReading.{set_of, files_of};
ghost use Rattle.bag_check.specs.Validity.{payload_files, payload_bytes};

use bag_check::{PayloadCounts, count_payload};
use bag_text::{BagSet, read_bagset};
use std::alloc::{AllocError, Global};
use std::marker::Model;

/// A bag that is kept as its transfer form. Contracts see it as its files.
#[derive(Debug, Drop)]
pub struct StoredBag {
    text: Vec<u8>,
}

impl Model for StoredBag {
    ghost use Rattle.std.specs.Prelude.{List};
    ghost use Rattle.bag_text.specs.TransferForm.{File};
    ghost use Rattle.bag_text.specs.TransferReading.{set_of};
    ghost use Rattle.test_plain.specs.Bags.{files_in, IsForm};

    ghost Value = { List File };

    ghost view = { λ bag. files_in (set_of bag.text.items) };

    ghost invariant = { λ bag. IsForm bag.text.items (files_in (set_of bag.text.items)) };
}

impl StoredBag {
    /// Keeps the bag whose transfer form the text is.
    pub fn of(alloc: Global, bag: &BagSet<'_>, text: &[u8]) -> Result<StoredBag, AllocError>
        requires read { set_of text.now ≡ Ok bag.now }
        requires written { text.now ≡ set_text bag.now }
        requires is_bag { IsBag bag.now }
        ensures { IfOk result (λ kept. kept ≡ bag.now) }
    {
        let text = Vec::from_slice(alloc, text)?;
        Ok(StoredBag { text })
    }

    /// The transfer form.
    pub fn text(&self) -> &[u8]
        ensures form { result.now ≡ set_text self.now }
        ensures read { set_of result.now ≡ Ok self.now }
        ensures is_bag { IsBag self.now }
    {
        self.text.as_slice()
    }

    /// The bag, read again.
    pub fn read(&self, alloc: Global) -> Result<BagSet<'_>, AllocError>
        ensures same { IfOk result (λ bag. bag ≡ self.now) }
        ensures is_bag { IfOk result (λ bag. IsBag bag) }
    {
        match read_bagset(alloc, self.text()) {
            Ok(bag) => Ok(bag),
            Err(_) => Err(AllocError),
        }
    }

    /// The content of the file at a path.
    pub fn content(&self, alloc: Global, path: &[u8]) -> Result<Option<&[u8]>, AllocError>
        ensures { IfOk result (λ content. option_copied content ≡ content_at self.now path.now) }
    {
        let bag = self.read(alloc)?;
        Ok(content_in(bag.files(), path))
    }

    /// How many files the payload has, and how many bytes.
    pub fn payload(&self, alloc: Global) -> Result<PayloadCounts, AllocError>
        ensures files { IfOk result (λ counts. counts.files ≡ payload_files self.now) }
        ensures bytes { IfOk result (λ counts. counts.bytes ≡ payload_bytes self.now) }
    {
        let bag = self.read(alloc)?;
        Ok(count_payload(&bag))
    }
}

fn content_in<'a>(files: &[(&'a str, &'a [u8])], path: &[u8]) -> Option<&'a [u8]>
    ensures { option_copied result ≡ content_at (files_of files.now) path.now }
{
    for file in files {
        if file.0.as_bytes() == path {
            return Some(file.1);
        }
    }
    None
}
