//! The manifests of a bag, found and read.

ghost use Rattle.std.specs.Prelude.{map, option_map};
ghost use Rattle.bag_text.specs.Answers.{Gives};
ghost use Rattle.bag_text.specs.TransferReading.{files_of};
ghost use Rattle.bag_text.specs.ManifestReading.{manifest_of};
ghost use Rattle.bag_check.specs.Judging.{named_of, manifests_in, listed_or_fault, listings_of};
ghost use Rattle.bag_check.specs.Answers.{named_fault, named_seen, listed_seen};

use crate::fault::BagFault;
use crate::names::{Kind, algorithm_of, manifest_of};
use bag_text::{Algorithm, LineFault, Manifest, Version, read_manifest};
use std::alloc::Global;

/// A file of the bag that is a manifest.
#[derive(Clone, Copy)]
pub struct Named<'a> {
    pub name: &'a str,
    pub kind: Kind,
    pub algorithm: Algorithm,
    pub text: &'a [u8],
}

/// A manifest that was read.
#[derive(Drop)]
pub struct Listed<'a> {
    pub name: &'a str,
    pub kind: Kind,
    pub algorithm: Algorithm,
    pub manifest: Manifest<'a>,
}

/// What a file is: no manifest, one of a known algorithm, or one that isn't supported.
fn named_file<'a>(path: &'a str, text: &'a [u8]) -> Result<Option<Named<'a>>, BagFault<'a>>
    ensures { Gives named_fault (λ found. option_map named_seen found) result
        (named_of (record { path = path.now; content = text.now })) }
{
    let Some((kind, alg)) = manifest_of(path) else {
        return Ok(None);
    };
    match algorithm_of(alg) {
        Some(algorithm) => Ok(Some(Named {
            name: path,
            kind,
            algorithm,
            text,
        })),
        None => Err(BagFault::UnsupportedAlgorithm { manifest: path }),
    }
}

/// The manifests among the files.
pub fn find_manifests<'a>(
    alloc: Global,
    files: &[(&'a str, &'a [u8])],
) -> Result<Vec<Named<'a>>, BagFault<'a>>
    ensures { Gives named_fault (λ found. map named_seen found.items) result
        (manifests_in (files_of files.now)) }
{
    let mut found = Vec::new(alloc);
    for file in files {
        if let Some(named) = named_file(file.0, file.1)? {
            found.push(named)?;
        }
    }
    Ok(found)
}

/// What one manifest lists.
fn read_named<'a>(
    alloc: Global,
    version: Version,
    named: Named<'a>,
) -> Result<Listed<'a>, BagFault<'a>>
    ensures { Gives named_fault listed_seen result (listed_or_fault (named_seen named.entry)
        (manifest_of version named.entry.algorithm named.entry.text.now)) }
{
    match read_manifest(alloc, named.text, version, named.algorithm) {
        Ok(manifest) => Ok(Listed {
            name: named.name,
            kind: named.kind,
            algorithm: named.algorithm,
            manifest,
        }),
        Err(LineFault::Memory) => Err(BagFault::Memory),
        Err(fault) => Err(BagFault::ManifestText {
            manifest: named.name,
            fault,
        }),
    }
}

/// What the manifests list, each read in its turn.
pub fn read_manifests<'a>(
    alloc: Global,
    version: Version,
    found: &[Named<'a>],
) -> Result<Vec<Listed<'a>>, BagFault<'a>>
    ensures { Gives named_fault (λ read. map listed_seen read.items) result
        (listings_of version (map named_seen found.now)) }
{
    let mut read = Vec::new(alloc);
    for named in found {
        let listed = read_named(alloc, version, *named)?;
        read.push(listed)?;
    }
    Ok(read)
}
