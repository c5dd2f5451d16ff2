//! What requests are drawn from: names, days, bags and policies.

use test_bags::{BAG, BAG_0_97, NO_PAYLOAD, PERCENT};
use test_sessions::POLICY;

/// Who calls, as often as each is to. The policies list two of them.
pub(crate) static CALLERS: [&str; 8] = ["anna", "anna", "anna", "anna", "anna", "carl", "eve", ""];

/// The collections and classes that are there from the beginning.
pub(crate) static FIRST_COLLECTIONS: [&str; 2] = ["tax", "maps"];

pub(crate) static FIRST_CLASSES: [&str; 2] = ["y1", "y10"];

pub(crate) static COLLECTIONS: [&str; 5] = ["tax", "maps", "maps", "maps", "x"];

pub(crate) static CLASSES: [&str; 5] = ["y1", "y1", "y10", "y10", "z"];

pub(crate) static ACCESSIONS: [&str; 9] = [
    "A-1", "A-2", "A-3", "A-4", "A-5", "A-6", "A-7", "A-8", "A-9",
];

pub(crate) static MATTERS: [&str; 2] = ["Case 7", "Müller ./. \"Land\""];

/// Days of requests.
pub(crate) static DAYS: [&str; 8] = [
    "1969-12-31",
    "2024-02-28",
    "2024-02-29",
    "2024-03-01",
    "2025-02-28",
    "2025-03-01",
    "2034-02-28",
    "9799-12-31",
];

/// Closing days.
pub(crate) static CLOSING_DAYS: [&str; 4] = [
    "1969-12-31",
    "2024-02-28",
    "2024-02-29",
    "2025-03-01",
];

/// Paths that are asked for: two files, a name spelled as in a manifest, and one that is no path.
pub(crate) static PATHS: [&str; 4] = ["data/a", "bagit.txt", "data/a%0Ab", "data/../a"];

/// Four valid bags, one of them three times, each of which has files in common with another; one whose file
/// has other bytes than its manifest says, one that is cut, and none.
pub(crate) static BAGS: [&[u8]; 9] = [
    BAG,
    BAG,
    BAG,
    BAG_0_97,
    PERCENT,
    NO_PAYLOAD,
    b"BAGSET 1\nFILE 9 54\nbagit.txtBagIt-Version: 1.0\nTag-File-Character-Encoding: UTF-8\n\nFILE 6 3\ndata/aabd\nFILE 19 73\nmanifest-sha256.txtba7816bf8f01cfea414140de5dae2223b00361a396177a9cb410ff61f20015ad  data/a\n\nEND\n",
    b"BAGSET 1\nFILE 9 54\nbagit.txtBagIt-Version: 1.0\nTag-File-Character-Encoding: UTF-8\n",
    b"",
];

/// The policies. The first is installed before the first request. The third is that in version 2, where the
/// rules that deny and that let list count on some of the days alone.
pub(crate) static POLICIES: [&str; 3] = [
    POLICY,
    "version = 1\n\n[[rule]]\neffect = \"deny\"\nrole = \"*\"\naction = \"hold\"\ncollection = \"*\"\nclass = \"y1\"\n\n[[rule]]\neffect = \"allow\"\nrole = \"stranger\"\naction = \"*\"\ncollection = \"*\"\nclass = \"*\"\n",
    "version = 2\n\n[callers]\nanna = \"archivist\"\ncarl = \"clerk\"\n\n[[rule]]\neffect = \"deny\"\nrole = \"archivist\"\naction = \"dispose\"\ncollection = \"tax\"\nclass = \"*\"\nlast = \"2024-02-29\"\n\n[[rule]]\neffect = \"deny\"\nrole = \"archivist\"\naction = \"*\"\ncollection = \"*\"\nclass = \"y1\"\nfirst = \"2024-03-01\"\nlast = \"2024-03-01\"\n\n[[rule]]\neffect = \"allow\"\nrole = \"archivist\"\naction = \"*\"\ncollection = \"*\"\nclass = \"*\"\n\n[[rule]]\neffect = \"allow\"\nrole = \"clerk\"\naction = \"list\"\ncollection = \"*\"\nclass = \"y10\"\nfirst = \"2025-02-28\"\n",
];
