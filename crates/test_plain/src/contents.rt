//! What the office keeps.

ghost use Rattle.std.specs.Prelude.{◌≡◌, ◌++◌, ◌∷◌, ℕ, List, map, length, sum, bytes_eq, IfOk, IfSome, OnOk};
ghost use Rattle.std.specs.List.{list_any, flat_map};
ghost use Rattle.bag_text.specs.TransferReading as reading;
ghost use Rattle.office_history.specs.Lists.{distinct_after, in_first_places};
ghost use Rattle.office_history.specs.Histories.{kept_numbers};
ghost use Rattle.office_history.specs.Stocks.{files_of, contents, stock};
ghost use Rattle.bag_text.specs.Text.{texts};
ghost use Rattle.test_plain.specs.Stocks.{contents_of, stock_seen};

use crate::history::Office;
use crate::reading::{deposit_numbered, kept_numbers};
use crate::stocks::Stock;
use std::alloc::{AllocError, Global};

fn push_contents<'a>(
    all: &mut Vec<&'a [u8]>,
    files: &[(&'a str, &'a [u8])],
) -> Result<(), AllocError>
    ensures { OnOk result
        (texts all.new.items ≡ texts all.old.items ++ contents_of (reading.files_of files.now)) }
{
    for file in files {
        all.push(file.1)?;
    }
    Ok(())
}

fn push_deposit<'a>(
    alloc: Global,
    office: &'a Office,
    number: u32,
    all: &mut Vec<&'a [u8]>,
) -> Result<(), AllocError>
    ensures { OnOk result
        (texts all.new.items ≡ texts all.old.items ++ contents_of (files_of office.now number)) }
{
    match deposit_numbered(office, number) {
        Some((_, deposit)) => {
            let bag = deposit.bag.read(alloc)?;
            push_contents(all, bag.files())
        }
        None => Ok(()),
    }
}

/// The contents of all files of the kept bags.
fn all_contents(alloc: Global, office: &Office) -> Result<Vec<&[u8]>, AllocError>
    ensures { IfOk result (λ all.
        texts all.items ≡ contents_of (flat_map (files_of office.now) (kept_numbers office.now))) }
{
    let numbers = kept_numbers(alloc, office)?;
    let mut all = Vec::new(alloc);
    for number in &numbers {
        push_deposit(alloc, office, *number, &mut all)?;
    }
    Ok(all)
}

fn has_text(others: &[&[u8]], text: &[u8]) -> bool
    ensures { result ≡ list_any (bytes_eq text.now) (texts others.now) }
{
    for other in others {
        if text == *other {
            return true;
        }
    }
    false
}

#[tactic(auto, using(crate::proofs::DistinctLemmas::borrowed_found, crate::proofs::DistinctLemmas::text_passed))]
/// Adds a text, unless it is there.
fn push_new<'a>(found: &mut Vec<&'a [u8]>, text: &'a [u8]) -> Result<(), AllocError>
    ensures { OnOk result ((rest : List (List ℕ))
        → texts found.new.items ++ distinct_after (texts found.new.items) rest
        ≡ texts found.old.items ++ distinct_after (texts found.old.items) (text.now ∷ rest)) }
{
    if !has_text(found.as_slice(), text) {
        found.push(text)?;
    }
    Ok(())
}

/// Each text once, where it occurs first.
fn in_first_places<'a>(alloc: Global, all: &[&'a [u8]]) -> Result<Vec<&'a [u8]>, AllocError>
    ensures { IfOk result (λ found. texts found.items ≡ in_first_places (texts all.now)) }
{
    let mut found = Vec::new(alloc);
    for text in all {
        push_new(&mut found, *text)?;
    }
    Ok(found)
}

/// How many bytes the texts have together, where memory could hold as many.
fn total(contents: &[&[u8]]) -> Option<usize>
    ensures { IfSome result (λ bytes. bytes ≡ sum (map length (texts contents.now))) }
{
    let mut bytes: usize = 0;
    for text in contents {
        bytes = bytes.checked_add(text.len())?;
    }
    Some(bytes)
}

impl Office {
    /// How many different contents the files of the kept bags have, and how many bytes they have
    /// together.
    pub fn stock(&self, alloc: Global) -> Result<Stock, AllocError>
        ensures { IfOk result (λ found. stock_seen found ≡ stock self.now) }
    {
        let all = all_contents(alloc, self)?;
        let contents = in_first_places(alloc, all.as_slice())?;
        match total(contents.as_slice()) {
            Some(bytes) => Ok(Stock {
                contents: contents.len(),
                bytes,
            }),
            None => Err(AllocError),
        }
    }
}
