//! Cases of the calls below the program.

use crate::outcome::Outcome;
use bag_check::{BagFault, check_bag};
use bag_text::{
    Algorithm, BagSet, InfoFault, LineFault, SetFault, Version, read_bag_info, read_bagset,
    read_manifest, write_bagset,
};
use command_line::{Line, UseFault, read_line};
use std::alloc::Global;
use test_bags::BAG;

const LISTING: &[u8] =
    b"ba7816bf8f01cfea414140de5dae2223b00361a396177a9cb410ff61f20015ad  data/a%0A\nba7816bf8f01cfea414140de5dae2223b00361a396177a9cb410ff61f20015ad  data/b\n";

/// Reads the words of `check`.
pub(crate) fn read_check(alloc: Global) -> Outcome {
    match read_line(alloc, ["check", "-"].as_slice()) {
        Ok(Line::Check { file }) => Outcome::expected_if(file == "-"),
        Err(UseFault::Memory) => Outcome::Memory,
        Ok(_) | Err(UseFault::Use(_)) => Outcome::Wrong,
    }
}

/// Reads the words of `explain`.
pub(crate) fn read_explain(alloc: Global) -> Outcome {
    let words = ["explain", "p", "anna", "list", "-", "y1"];
    match read_line(alloc, words.as_slice()) {
        Ok(Line::Explain(asked)) => Outcome::expected_if(asked.caller == "anna"),
        Err(UseFault::Memory) => Outcome::Memory,
        Ok(_) | Err(UseFault::Use(_)) => Outcome::Wrong,
    }
}

/// Reads invalid words.
pub(crate) fn refuse_words(alloc: Global) -> Outcome {
    match read_line(alloc, ["check"].as_slice()) {
        Ok(_) => Outcome::Wrong,
        Err(UseFault::Use(text)) => Outcome::expected_if(text.ends_with('\n')),
        Err(UseFault::Memory) => Outcome::Memory,
    }
}

/// Reads the transfer form of a bag.
pub(crate) fn read_form(alloc: Global) -> Outcome {
    match read_bagset(alloc, BAG) {
        Ok(bag) => Outcome::expected_if(bag.files().len() == 3),
        Err(fault) => Outcome::memory_if(fault == SetFault::Memory),
    }
}

/// Judges a bag.
pub(crate) fn judge_form(alloc: Global) -> Outcome {
    let bag = match read_bagset(alloc, BAG) {
        Ok(bag) => bag,
        Err(fault) => return Outcome::memory_if(fault == SetFault::Memory),
    };
    match check_bag(alloc, &bag) {
        Ok(report) => Outcome::expected_if(report.files == 1 && report.bytes == 3),
        Err(BagFault::Memory) => Outcome::Memory,
        Err(_) => Outcome::Wrong,
    }
}

/// Reads a manifest that spells one of its paths.
pub(crate) fn read_listing(alloc: Global) -> Outcome {
    match read_manifest(alloc, LISTING, Version::V1_0, Algorithm::Sha256) {
        Ok(manifest) => Outcome::expected_if(
            manifest.lists("data/a\n") && manifest.lists("data/b"),
        ),
        Err(fault) => Outcome::memory_if(fault == LineFault::Memory),
    }
}

/// Reads a text of `bag-info.txt`.
pub(crate) fn read_pairs(alloc: Global) -> Outcome {
    match read_bag_info(alloc, b"A: b\n  c\n  d\nE: f\n") {
        Ok(info) => Outcome::expected_if(info.pairs.len() == 2),
        Err(fault) => Outcome::memory_if(fault == InfoFault::Memory),
    }
}

/// Makes a bag of a list of files, and writes it.
pub(crate) fn write_form(alloc: Global) -> Outcome {
    match BagSet::of(alloc, &[("a", b"b"), ("c", b"")]) {
        Ok(bag) => match write_bagset(alloc, &bag) {
            Ok(text) => Outcome::expected_if(
                text.as_slice() == b"BAGSET 1\nFILE 1 1\nab\nFILE 1 0\nc\nEND\n".as_slice(),
            ),
            Err(_) => Outcome::Memory,
        },
        Err(fault) => Outcome::memory_if(fault == SetFault::Memory),
    }
}
