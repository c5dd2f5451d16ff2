//! Why a bag is refused.

ghost use Rattle.std.specs.Prelude.{◌≡◌};
ghost use Rattle.bag_check.specs.declared.fault.BagFault.TheVariants.{Memory};

use bag_text::{DeclFault, InfoFault, LineFault};
use std::alloc::{AllocError, AllocFailed, Global};
use std::borrow::CowStr;

/// Why a bag is not valid: the first fault by number, then by the manifest's name, then by the path,
/// by bytes. A `manifest` is the name of the manifest at fault, a `path` the file's or the one that
/// is listed.
#[derive(Debug, Drop)]
pub enum BagFault<'a> {
    /// B1: there is no `bagit.txt`.
    NoDeclaration,
    /// B2: `bagit.txt` is refused.
    Declaration(DeclFault),
    /// B3: there is a `fetch.txt`.
    FetchNotSupported,
    /// B4: a manifest of another algorithm than SHA-256 and SHA-512.
    UnsupportedAlgorithm {
        manifest: &'a str,
    },
    /// B5: there is no payload manifest.
    NoPayloadManifest,
    /// B6: a manifest's text is refused.
    ManifestText {
        manifest: &'a str,
        fault: LineFault,
    },
    /// B7: a payload manifest lists a path outside `data/`.
    OutsidePayload {
        manifest: &'a str,
        path: CowStr<'a, Global>,
    },
    /// B8: a tag manifest lists a tag manifest.
    TagManifestListed {
        manifest: &'a str,
        path: CowStr<'a, Global>,
    },
    /// B9: a tag manifest lists a payload file.
    PayloadInTagManifest {
        manifest: &'a str,
        path: CowStr<'a, Global>,
    },
    /// B10: a tag manifest doesn't list a payload manifest.
    PayloadManifestUnlisted {
        manifest: &'a str,
        path: CowStr<'a, Global>,
    },
    /// B11: a listed file isn't there.
    Missing {
        manifest: &'a str,
        path: CowStr<'a, Global>,
    },
    /// B12: a payload file isn't listed in a payload manifest.
    Unlisted {
        manifest: &'a str,
        path: CowStr<'a, Global>,
    },
    /// B13: `bag-info.txt` is refused.
    InfoText(InfoFault),
    /// B14: a `Payload-Oxum` that isn't two numbers with a full stop between them.
    OxumForm,
    /// B15: more than one `Payload-Oxum`.
    OxumTwice,
    /// B16: a `Payload-Oxum` that isn't the payload's.
    OxumWrong,
    /// B17: a checksum isn't the digest of its file.
    ChecksumWrong {
        manifest: &'a str,
        path: CowStr<'a, Global>,
    },
    /// B18: a growth was refused.
    Memory,
}

impl<'a> From<AllocError> for BagFault<'a> {
    ghost from_gives = { λ _ e. e ≡ Memory };

    fn from(_e: AllocError) -> BagFault<'a> {
        BagFault::Memory
    }
}

impl<'a, T: Drop> From<AllocFailed<T>> for BagFault<'a> {
    ghost from_gives = { λ _ e. e ≡ Memory };

    fn from(_e: AllocFailed<T>) -> BagFault<'a> {
        BagFault::Memory
    }
}
