//! Texts that occur in many runs, worked out by hand from `docs/HTTP.md`, and their names.

use command_line::VERSION;
use std::alloc::{AllocError, Global};

/// Each text after its name. It may have names that come after its own.
static MEANINGS: [(&str, &str); 48] = [
    // Two days of an office: classes, collections, three deposits, what a clerk sees of them, what is
    // due, and a class of which the years are cut.
    (
        "~days~",
        "REQ 2024-03-01 79\n~y1~\nREQ 2024-03-01 81\nPUT /classes/y10~anna sends~12\r\n\r\n{\"years\":10}\nREQ 2024-03-01 53\nPUT /collections/tax~anna~\nREQ 2024-03-01 54\n~maps~\nREQ 2024-03-01 336\nPOST /deposits?collection=maps&class=y10&accession=A-1~closed~\nREQ 2024-03-01 335\nPOST /deposits?collection=tax&class=y10&accession=A-2~closed~\nREQ 2024-03-01 335\nPOST /deposits?collection=maps&class=y1&accession=A-3~closed~\nREQ 2024-03-01 46\nGET /deposits HTTP/1.1\r\nDepot-Caller: carl\r\n\r\n\n~due~REQ 2024-03-05 80\nPUT /classes/y10~anna sends~11\r\n\r\n{\"years\":0}\n",
    ),
    (
        "~days answered~",
        "ANS 114\n~y1 made~\nANS 116\n~ok~26~close~{\"class\":\"y10\",\"years\":10}\nANS 110\n~ok~20~close~{\"collection\":\"tax\"}\nANS 111\n~maps made~\nANS 108\n~deposited~1}\nANS 108\n~deposited~2}\nANS 108\n~deposited~3}\nANS 408\n~ok~317~close~{\"deposits\":[{\"accession\":\"A-1\",\"bytes\":3,\"class\":\"y10~shown~maps\",\"deposit\":1,\"deposited\":\"2024-03-01\",\"due\":\"2034-02-28\",\"files\":1},{\"accession\":\"A-2\",\"bytes\":3,\"class\":\"y10~shown~tax\",\"deposit\":2,\"deposited\":\"2024-03-01\",\"due\":\"2034-02-28\",\"files\":1}]}\nANS 124\n~ok~34~close~{\"day\":\"2024-03-05\",\"deposits\":[]}\nANS 115\n~ok~25~close~{\"class\":\"y10\",\"years\":0}\n",
    ),
    // What is due is asked for.
    ("~due~", "REQ 2024-03-05 41\nGET /due~anna~\n"),
    // A deposit that isn't there, and a collection that a clerk defines, and then an archivist.
    (
        "~records~",
        "REQ 2024-03-01 52\n~asks~\nREQ 2024-03-01 54\nPUT /collections/maps HTTP/1.1\r\nDepot-Caller: carl\r\n\r\n\nREQ 2024-03-01 54\n~maps~\n",
    ),
    (
        "~answers~",
        "~one answer~ANS 132\n~denied~\nANS 111\n~maps made~\n",
    ),
    // A record, and another without its last byte.
    ("~torn records~", "~one record~\n~one record~"),
    // A deposit that isn't there is asked for, without the last byte of the record.
    ("~one record~", "REQ 2024-03-01 48\nGET /deposits/7~anna~"),
    ("~one answer~", "ANS 132\n~no such~\n"),
    // Requests, and what answers them.
    ("~asks~", "GET /deposits/7/bag~anna~"),
    (
        "~no such~",
        "HTTP/1.1 404 Not Found~json~35~close~{\"error\":\"NoSuch\",\"what\":\"deposit\"}",
    ),
    ("~maps~", "PUT /collections/maps~anna~"),
    ("~maps made~", "~ok~21~close~{\"collection\":\"maps\"}"),
    (
        "~denied~",
        "HTTP/1.1 403 Forbidden~json~35~close~{\"error\":\"Denied\",\"rule\":\"default\"}",
    ),
    (
        "~store failed~",
        "HTTP/1.1 503 Service Unavailable~json~17~close~{\"error\":\"Store\"}",
    ),
    ("~y1~", "PUT /classes/y1~anna sends~11\r\n\r\n{\"years\":1}"),
    ("~y1 made~", "~ok~24~close~{\"class\":\"y1\",\"years\":1}"),
    ("~closed~", "&closed=2024-02-29~anna sends~210\r\n\r\n~bag~"),
    (
        "~deposited~",
        "HTTP/1.1 201 Created~json~13~close~{\"deposit\":",
    ),
    ("~shown~", "\",\"closed\":\"2024-02-29\",\"collection\":\""),
    // Parts of requests and of answers.
    ("~anna sends~", "~by anna~Content-Length: "),
    ("~anna~", "~by anna~\r\n"),
    ("~by anna~", " HTTP/1.1\r\nDepot-Caller: anna\r\n"),
    ("~ok~", "HTTP/1.1 200 OK~json~"),
    (
        "~json~",
        "\r\nContent-Type: application/json\r\nContent-Length: ",
    ),
    ("~close~", "\r\nConnection: close\r\n\r\n"),
    // A bag, its parts, and a policy.
    (
        "~bag~",
        "BAGSET 1\nFILE 9 54\nbagit.txt~declared~\nFILE 6 3\ndata/aabc\nFILE 19 73\nmanifest-sha256.txt~listed~\nEND\n",
    ),
    (
        "~declared~",
        "BagIt-Version: 1.0\nTag-File-Character-Encoding: UTF-8\n",
    ),
    (
        "~listed~",
        "ba7816bf8f01cfea414140de5dae2223b00361a396177a9cb410ff61f20015ad  data/a\n",
    ),
    (
        "~policy~",
        "version = 1\n\n[callers]\nanna = \"archivist\"\ncarl = \"clerk\"\n\n~rule~deny\"\nrole = \"archivist\"\naction = \"dispose\"\ncollection = \"tax\"\nclass = \"*\"\n\n~rule~allow\"\nrole = \"archivist\"\naction = \"*\"\ncollection = \"*\"\nclass = \"*\"\n\n~rule~allow\"\nrole = \"clerk\"\naction = \"list\"\ncollection = \"*\"\nclass = \"y10\"\n",
    ),
    ("~rule~", "[[rule]]\neffect = \""),
    ("~installed~", "installed 3 rules 2 callers\n"),
    // What is printed to standard error.
    (
        "~uses~",
        "depot ~version~\nUsage: depot check FILE\n       depot pack DIR FILE\n       depot unpack FILE DIR\n       depot explain [--day DAY] POLICY CALLER ACTION COLLECTION CLASS\n       depot policy STORE POLICY\n       depot ask STORE DAY\n       depot replay [--policy POLICY] STORE\n       depot serve --port P --count N STORE DAY\n\nDepot checks and keeps BagIt bags, serves them by a policy, and destroys them when due.\ndepot COMMAND --help says what each command takes.\n",
    ),
    (
        "~missing~",
        "error: the following required arguments were not provided:\n  ",
    ),
    ("~no day~", "DAY is a date such as 2024-03-01.."),
    ("~no port~", "P is the number of a port, 0 to 65535\n.."),
    (
        "~no count~",
        "N is a number of connections, 1 to 1000000\n..",
    ),
    (
        "~zip~",
        "~S1~this looks like a zip file; a bag's transfer form is wanted, which depot pack makes of a folder\n",
    ),
    ("~version~", VERSION),
    (
        "~S1~",
        "this is no transfer form: it does not begin with the line BAGSET 1 (S1)\n",
    ),
    ("~Y1~", "the policy is no text in TOML (Y1)"),
    (
        "~Y4~",
        "the callers of the policy are no table, or a caller or a role is no name (Y4)",
    ),
    (
        "~Y2~",
        "the policy has no version, or one that is neither the whole number 1 nor 2 (Y2)\n",
    ),
    ("~unread~", "device\ndepot: cannot read "),
    ("~unopened~", "store Q4\ndepot: cannot open "),
    ("~no office~", "store Q1\ndepot: "),
    (
        "~no schema~",
        ": file is not a database that obeys its schema\n",
    ),
    ("~malformed~", ": database disk image is malformed\n"),
    ("~none~", ": No such file or directory (os error 2)\n"),
];

/// The text, with the texts in the place of their names.
pub(crate) fn meant(alloc: Global, text: &str) -> Result<String, AllocError> {
    let mut whole = text.to_string(alloc)?;
    for (name, meaning) in &MEANINGS {
        whole = whole.replace(alloc, *name, meaning)?;
    }
    Ok(whole)
}
