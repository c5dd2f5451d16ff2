//! What is said of small bags, and why.

use crate::tests::rows::holds;
use bag_check::{
    BagReport, PayloadCounts, check_and_digest, check_bag, count_payload, digest_matches,
};
use bag_text::{BagSet, Checksum, read_bagset};
use std::alloc::{AllocError, Global};
use std::test::*;
use test_bags::{bytes_of, text_of};

/// What is counted in a bag.
fn counts_in(alloc: Global, report: &BagReport) -> Result<String, AllocError> {
    let version = report.version;
    let files = report.files;
    let bytes = report.bytes;
    let manifests = report.manifests;
    format!(in alloc; "{version} files {files} bytes {bytes} manifests {manifests}")
}

/// What is found in a bag, or its fault.
fn report_of(alloc: Global, bag: &BagSet<'_>) -> Result<String, AllocError> {
    match check_bag(alloc, bag) {
        Ok(report) => counts_in(alloc, &report),
        Err(fault) => fault.to_string(alloc),
    }
}

/// What is found in the bag of a form with marks, or the fault of the bag or of the form.
fn told_of(alloc: Global, form: &str) -> Result<String, AllocError> {
    let form = bytes_of(alloc, form)?;
    match read_bagset(alloc, form.as_slice()) {
        Ok(bag) => report_of(alloc, &bag),
        Err(fault) => fault.to_string(alloc),
    }
}

/// Adds a blank and a digest in hexadecimal digits.
fn push_digest(text: &mut String, digest: &[u8; 32]) -> Result<(), AllocError> {
    let alloc = *text.allocator();
    text.push_str(" ")?;
    for byte in digest {
        text.push_str(&format!(in alloc; "{byte:02x}")?)?;
    }
    Ok(())
}

/// What is counted in a bag, and the SHA-256 of each of its files, or its fault.
fn digests_of(alloc: Global, bag: &BagSet<'_>) -> Result<String, AllocError> {
    match check_and_digest(alloc, bag) {
        Ok(found) => {
            let mut text = counts_in(alloc, &found.report)?;
            for digest in found.digests.iter() {
                push_digest(&mut text, digest)?;
            }
            Ok(text)
        }
        Err(fault) => fault.to_string(alloc),
    }
}

/// The same of the bag of a form with marks, or the fault of the form.
fn digested_of(alloc: Global, form: &str) -> Result<String, AllocError> {
    let form = bytes_of(alloc, form)?;
    match read_bagset(alloc, form.as_slice()) {
        Ok(bag) => digests_of(alloc, &bag),
        Err(fault) => fault.to_string(alloc),
    }
}

/// Forms, what is found in their bags, or their fault, and the SHA-256 of each file of a valid bag. Of the files
/// of bag A its manifest lists `data/a` alone. The second bag has a tag manifest, which lists the other two, and the
/// third bag has no manifest of SHA-256.
static FORMS: [(&str, &str, &str); 6] = [
    (
        r"BAGSET 1\n{bag}",
        "1.0 files 1 bytes 3 manifests 1",
        " {declaration} {abc} {manifest}",
    ),
    (
        r"BAGSET 1\n{declared}{payload}{listed}FILE 22 162\ntagmanifest-sha256.txt{declaration}  bagit.txt\n{manifest}  manifest-sha256.txt\n\nEND\n",
        "1.0 files 1 bytes 3 manifests 2",
        " {declaration} {abc} {manifest} 050095952cf1f9b829999fc7137d9486ab9baeefd55ad878ea7ae2e15652e988",
    ),
    (
        r"BAGSET 1\n{declared}{payload}FILE 19 137\nmanifest-sha512.txt{abc-512}  data/a\n\nEND\n",
        "1.0 files 1 bytes 3 manifests 1",
        " {declaration} {abc} 16b52e340e5a0b05f3132cc644925664b3db44bc520e63f09a30a3a5f4855a12",
    ),
    (
        r"BAGSET 1\n{declared}{payload}{mislisted}END\n",
        "B17 manifest-sha256.txt data/a",
        "",
    ),
    (r"BAGSET 1\nEND\n", "B1", ""),
    (r"BAGSET 1\n", "S3", ""),
];

#[test]
fn a_small_bag_by_its_calls(rt: HostRuntime) -> Result<(), Fail> {
    for (form, want, _) in &FORMS {
        let told = told_of(rt.alloc(), form)?;
        holds(&rt, told.as_str() == *want, &told);
    }
    Ok(())
}

/// What is found, followed by the digests that the marks mean.
fn followed_by(alloc: Global, found: &str, digests: &str) -> Result<String, AllocError> {
    let mut text = String::from_str(alloc, found)?;
    text.push_str(&text_of(alloc, digests)?)?;
    Ok(text)
}

#[test]
fn the_digests_of_a_small_bag(rt: HostRuntime) -> Result<(), Fail> {
    for (form, found, digests) in &FORMS {
        let told = digested_of(rt.alloc(), form)?;
        let wanted = followed_by(rt.alloc(), found, digests)?;
        holds(&rt, told == wanted, &told);
    }
    Ok(())
}

#[test]
fn a_payload_is_counted(rt: HostRuntime) -> Result<(), Fail> {
    let form = bytes_of(rt.alloc(), r"BAGSET 1\n{bag}")?;
    let bag = read_bagset(rt.alloc(), form.as_slice())?;
    assert!(rt; count_payload(&bag) == PayloadCounts { files: 1, bytes: 3 });
    Ok(())
}

/// The digests of no byte.
static DIGESTS: [Checksum; 2] = [
    Checksum::Sha256([
        0xe3, 0xb0, 0xc4, 0x42, 0x98, 0xfc, 0x1c, 0x14, 0x9a, 0xfb, 0xf4, 0xc8, 0x99, 0x6f, 0xb9,
        0x24, 0x27, 0xae, 0x41, 0xe4, 0x64, 0x9b, 0x93, 0x4c, 0xa4, 0x95, 0x99, 0x1b, 0x78, 0x52,
        0xb8, 0x55,
    ]),
    Checksum::Sha512([
        0xcf, 0x83, 0xe1, 0x35, 0x7e, 0xef, 0xb8, 0xbd, 0xf1, 0x54, 0x28, 0x50, 0xd6, 0x6d, 0x80,
        0x07, 0xd6, 0x20, 0xe4, 0x05, 0x0b, 0x57, 0x15, 0xdc, 0x83, 0xf4, 0xa9, 0x21, 0xd3, 0x6c,
        0xe9, 0xce, 0x47, 0xd0, 0xd1, 0x3c, 0x5d, 0x85, 0xf2, 0xb0, 0xff, 0x83, 0x18, 0xd2, 0x87,
        0x7e, 0xec, 0x2f, 0x63, 0xb9, 0x31, 0xbd, 0x47, 0x41, 0x7a, 0x81, 0xa5, 0x38, 0x32, 0x7a,
        0xf9, 0x27, 0xda, 0x3e,
    ]),
];

#[test]
fn a_digest_matches_its_checksum_alone(rt: HostRuntime) {
    for none in &DIGESTS {
        assert!(rt; digest_matches(b"", none));
        assert!(rt; !digest_matches(b"a", none));
    }
}
