//! Small bags, written out, and what `check` says of each; a small policy, and what `explain` says.
#![tactic(auto)]

mod forms;
mod many;
mod marks;

use commands::Ending;
pub use forms::{BAG, BAG_0_97, NO_PAYLOAD, PERCENT};
pub use many::many_files;
pub use marks::{bytes_of, text_of};

/// A name, a transfer form, the line that `check` prints of it, what it prints to standard error, and how it
/// ends.
pub type WorkedBag = (
    &'static str,
    &'static [u8],
    &'static str,
    &'static str,
    Ending,
);

/// Small bags.
pub static BAGS: [WorkedBag; 8] = [
    (
        "a valid bag",
        BAG,
        "valid 1.0 files 1 bytes 3 manifests 1\n",
        "",
        Ending::Accepted,
    ),
    // A percent sign in the name `data/a%0Ab`, which the manifest spells `%25`: in version 0.97 that means
    // itself.
    (
        "a decoded path",
        b"BAGSET 1\nFILE 9 55\nbagit.txtBagIt-Version: 0.97\nTag-File-Character-Encoding: UTF-8\n\nFILE 10 3\ndata/a%0Ababc\nFILE 19 79\nmanifest-sha256.txtba7816bf8f01cfea414140de5dae2223b00361a396177a9cb410ff61f20015ad  data/a%250Ab\n\nEND\n",
        "invalid B11 manifest-sha256.txt data/a%25250Ab\n",
        "manifest-sha256.txt lists data/a%25250Ab, but the bag has no such file (B11)\nin this path %25 is a percent sign; version 1.0 lists %0A, %0D and %25 of a name as %250A, %250D and %2525, and version 0.97 cannot list %0A or %0D\n",
        Ending::Refused,
    ),
    // A payload file that one of two payload manifests lists: bag A and an empty `manifest-sha512.txt`.
    (
        "an unlisted file",
        b"BAGSET 1\nFILE 9 54\nbagit.txtBagIt-Version: 1.0\nTag-File-Character-Encoding: UTF-8\n\nFILE 6 3\ndata/aabc\nFILE 19 73\nmanifest-sha256.txtba7816bf8f01cfea414140de5dae2223b00361a396177a9cb410ff61f20015ad  data/a\n\nFILE 19 0\nmanifest-sha512.txt\nEND\n",
        "invalid B12 manifest-sha512.txt data/a\n",
        "data/a is in the payload, but manifest-sha512.txt does not list it (B12)\n",
        Ending::Refused,
    ),
    // Bag A with the manifest's line twice.
    (
        "two lines for one path",
        b"BAGSET 1\nFILE 9 54\nbagit.txtBagIt-Version: 1.0\nTag-File-Character-Encoding: UTF-8\n\nFILE 6 3\ndata/aabc\nFILE 19 146\nmanifest-sha256.txtba7816bf8f01cfea414140de5dae2223b00361a396177a9cb410ff61f20015ad  data/a\nba7816bf8f01cfea414140de5dae2223b00361a396177a9cb410ff61f20015ad  data/a\n\nEND\n",
        "invalid B6 manifest-sha256.txt L6 2\n",
        "line 2 of manifest-sha256.txt lists a path that an earlier line lists (B6 L6)\n",
        Ending::Refused,
    ),
    // Bag A with the checksum's last digit `e`.
    (
        "a wrong checksum",
        b"BAGSET 1\nFILE 9 54\nbagit.txtBagIt-Version: 1.0\nTag-File-Character-Encoding: UTF-8\n\nFILE 6 3\ndata/aabc\nFILE 19 73\nmanifest-sha256.txtba7816bf8f01cfea414140de5dae2223b00361a396177a9cb410ff61f20015ae  data/a\n\nEND\n",
        "invalid B17 manifest-sha256.txt data/a\n",
        "the digest of data/a is not the checksum in manifest-sha256.txt (B17)\n",
        Ending::Refused,
    ),
    // A payload file whose name has LF, CR, `%`, a blank and bytes past ASCII, and which isn't listed.
    (
        "a strange name",
        b"BAGSET 1\nFILE 9 54\nbagit.txtBagIt-Version: 1.0\nTag-File-Character-Encoding: UTF-8\n\nFILE 11 0\ndata/\n\r% \xC3\xA9\nFILE 6 3\ndata/aabc\nFILE 19 73\nmanifest-sha256.txtba7816bf8f01cfea414140de5dae2223b00361a396177a9cb410ff61f20015ad  data/a\n\nEND\n",
        "invalid B12 manifest-sha256.txt data/%0A%0D%25%20%C3%A9\n",
        "data/%0A%0D%25%20%C3%A9 is in the payload, but manifest-sha256.txt does not list it (B12)\nin this path %0A or %0D is the end of a line, and %25 a percent sign; version 1.0 lists %0A, %0D and %25 of a name as %250A, %250D and %2525, and version 0.97 cannot list %0A or %0D\n",
        Ending::Refused,
    ),
    (
        "a tag manifest",
        NO_PAYLOAD,
        "valid 1.0 files 0 bytes 0 manifests 2\n",
        "",
        Ending::Accepted,
    ),
    // Bag A with a right `Payload-Oxum`, in capitals, among other labels.
    (
        "a counted payload",
        b"BAGSET 1\nFILE 12 34\nbag-info.txtSource: a\n  b\nPAYLOAD-OXUM : 3.1 \n\nFILE 9 54\nbagit.txtBagIt-Version: 1.0\nTag-File-Character-Encoding: UTF-8\n\nFILE 6 3\ndata/aabc\nFILE 19 73\nmanifest-sha256.txtba7816bf8f01cfea414140de5dae2223b00361a396177a9cb410ff61f20015ad  data/a\n\nEND\n",
        "valid 1.0 files 1 bytes 3 manifests 1\n",
        "",
        Ending::Accepted,
    ),
];

/// A policy and what `explain` is asked, the line that it prints, what it prints to standard error, and how
/// it ends.
#[derive(Clone, Copy)]
pub struct WorkedQuestion {
    pub policy: &'static [u8],
    pub caller: &'static str,
    pub action: &'static str,
    pub collection: &'static str,
    pub class: &'static str,
    pub line: &'static str,
    pub reason: &'static str,
    pub ending: Ending,
}

/// The one rule denies everything: a policy of few allocations.
pub const DENIED_EVERYTHING: WorkedQuestion = WorkedQuestion {
    policy: b"version = 1\nrule = [{effect=\"deny\",role=\"*\",action=\"*\",collection=\"*\",class=\"*\"}]\n",
    caller: "eve",
    action: "list",
    collection: "maps",
    class: "y10",
    line: "deny rule 1\n",
    reason: "the caller eve is not in the policy, and has the role stranger\nrule 1 of the policy denies it: any role, any action, any collection, any class\n",
    ending: Ending::Refused,
};
