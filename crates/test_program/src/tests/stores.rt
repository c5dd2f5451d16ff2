//! Stores that are no office, or can't be opened: what each command says of them, and that they stay
//! as they are. Offices that other SQL altered: what is answered from them.

use crate::tests::runs::{begin, run_all, run_one};
use os::RangeLock;
use sqlite::{Connection, Unknown};
use std::alloc::{AllocError, Global};
use std::fs;
use std::fs::{File, OpenOptions, Permissions};
use std::os::fd::AsRawFd;
use std::os::unix::fs::PermissionsExt;
use std::test::Fail;

/// A store: the bytes of an office, or of its own, changed.
struct Store {
    path: &'static str,
    /// Bytes of its own, if it has some.
    own: &'static [u8],
    /// Wherever the first of these is, the second comes, which is as long.
    from: &'static [u8],
    to: &'static [u8],
    /// The offset of a byte of which one bit is turned, if there is one.
    turned: usize,
    /// Its length, where it is cut or zeros follow.
    length: Option<usize>,
    /// What is printed to standard error where a command is put to it. Its path is `STORE`.
    told: &'static str,
}

/// An office.
const OFFICE: Store = Store {
    path: "",
    own: b"",
    from: b"S",
    to: b"S",
    turned: usize::MAX,
    length: None,
    told: "",
};

/// The commands that are put to each store.
static COMMANDS: [&str; 5] = [
    "policy,STORE,s/policy.toml||Failed||",
    "replay,--policy,s/policy.toml,STORE|~records~|Failed||",
    "replay,STORE|~records~|Failed||",
    "ask,STORE,2024-03-02|~records~|Failed||",
    "serve,--port,0,--count,1,STORE,2024-03-02||Failed||",
];

/// A policy that is refused comes first, whatever the store is.
static REFUSED: [&str; 2] = [
    "policy,STORE,s/other.toml||Refused|policy Y2\n|~Y2~",
    "replay,--policy,s/other.toml,STORE|~records~|Refused||policy Y2\n~Y2~depot: s/other.toml is no policy\n",
];

static STORES: [Store; 15] = [
    Store {
        path: "s/empty.db",
        length: Some(0),
        told: "~no office~STORE is an empty file, and no office\n",
        ..OFFICE
    },
    // A database without tables, as sqlite3 makes it in pages of 512 bytes.
    Store {
        path: "s/bare.db",
        own: b"SQLite format 3\0\x02\0\x01\x01\0\x40  \0\0\0\x01\0\0\0\x01\0\0\0\0\0\0\0\0\0\0\0\x01\0\0\0\0\0\0\0\0\0\0\0\0\0\0\0\0\0\0\0\0\0\0\0\0\0\0\0\0\0\0\0\0\0\0\0\0\0\0\0\0\0\0\0\0\0\0\0\0\0\0\0\x01\0\x2Ec\x01\x0D\0\0\0\0\x02",
        length: Some(512),
        told: "~no office~STORE is another database, and no office\n",
        ..OFFICE
    },
    // A database of another program: its tables have other names.
    Store {
        path: "s/notes.db",
        from: b"office",
        to: b"notice",
        told: "~no office~STORE is another database, and no office\n",
        ..OFFICE
    },
    // The row of the table `office`, with the version 2 in the place of 5, and with 6; and with 3, where the tables are
    // not those of version 3.
    Store {
        path: "s/earlier.db",
        from: b"\0\x01\x03\x03\x05\x0F\x42\x40\x0F\x42\x40",
        to: b"\0\x01\x03\x03\x02\x0F\x42\x40\x0F\x42\x40",
        told: "store Q2\ndepot: STORE is an office of another version\n",
        ..OFFICE
    },
    Store {
        path: "s/later.db",
        from: b"\0\x01\x03\x03\x05\x0F\x42\x40\x0F\x42\x40",
        to: b"\0\x01\x03\x03\x06\x0F\x42\x40\x0F\x42\x40",
        told: "store Q2\ndepot: STORE is an office of another version\n",
        ..OFFICE
    },
    Store {
        path: "s/mixed.db",
        from: b"\0\x01\x03\x03\x05\x0F\x42\x40\x0F\x42\x40",
        to: b"\0\x01\x03\x03\x03\x0F\x42\x40\x0F\x42\x40",
        told: "store Q4\ndepot: STORE failed\n",
        ..OFFICE
    },
    Store {
        path: "s/text.db",
        own: b"a text and no database\n",
        told: "~unopened~STORE~no schema~",
        ..OFFICE
    },
    // The first letter of a database, the length of its pages, the kind of its first page, a name that
    // an index has otherwise than its row, and what defines the tables.
    Store {
        path: "s/letter.db",
        turned: 0,
        told: "~unopened~STORE~no schema~",
        ..OFFICE
    },
    Store {
        path: "s/length.db",
        turned: 16,
        told: "~unopened~STORE~no schema~",
        ..OFFICE
    },
    Store {
        path: "s/kind.db",
        turned: 100,
        told: "~unopened~STORE~malformed~",
        ..OFFICE
    },
    Store {
        path: "s/name.db",
        turned: 16_383,
        told: "~unopened~STORE~no schema~",
        ..OFFICE
    },
    Store {
        path: "s/definition.db",
        from: b"CREATE TABLE",
        to: b"CREATE FABLE",
        told: "~unopened~STORE~no schema~",
        ..OFFICE
    },
    Store {
        path: "s/two-bytes.db",
        length: Some(2),
        told: "~unopened~STORE~no schema~",
        ..OFFICE
    },
    Store {
        path: "s/one-page.db",
        length: Some(4_096),
        told: "~unopened~STORE~malformed~",
        ..OFFICE
    },
    Store {
        path: "s/torn-page.db",
        length: Some(40_000),
        told: "~unopened~STORE~malformed~",
        ..OFFICE
    },
];

/// An office that SQL alters in its file: its tables are put into those of an older version, or a content is
/// altered.
struct Altered {
    version: u8,
    /// The runs that make it, with the tables of this version.
    made: &'static [&'static str],
    /// The SQL that alters it.
    puts: &'static [&'static str],
    /// Each command, put to a store of its own.
    runs: [&'static str; 4],
}

/// To the tables of version 4, and from those to the tables of version 3.
const TO_FOURTH: &str =
    "INSERT INTO rule (place, effect, role, action, collection, class) SELECT place, effect, role, action, collection, class FROM rule_5; DROP TABLE rule_5; UPDATE office SET version = 4";

const TO_THIRD: &str =
    "INSERT INTO hold (number, deposit, collection, matter, placed, released) SELECT number, deposit, collection, matter, placed, released FROM hold_4; DROP TABLE hold_4; UPDATE office SET version = 3";

/// An office with three deposits that share a content, which has other bytes.
const OTHER_BYTES: Altered = Altered {
    version: 5,
    made: &[
        "policy,STORE,v/policy.toml||Accepted|~installed~|",
        "replay,STORE|~days~|Accepted|~days answered~|",
    ],
    puts: &["UPDATE content SET bytes = x'616264' WHERE bytes = x'616263'"],
    runs: [
        "ask,STORE,2024-03-05|GET /deposits/1/bag~anna~|Accepted|~store failed~|",
        "replay,STORE|REQ 2024-03-05 61\nGET /deposits/1/files/data/a~anna~\nREQ 2024-03-05 52\nGET /deposits/1/bag~anna~\nREQ 2024-03-05 61\nGET /deposits/2/files/data/a~anna~\nREQ 2024-03-05 52\nGET /deposits/2/bag~anna~\nREQ 2024-03-05 54\nGET /deposits/1/audit~anna~\nREQ 2024-03-05 54\nGET /deposits/2/audit~anna~\n|Accepted|ANS 124\n~store failed~\nANS 124\n~store failed~\nANS 124\n~store failed~\nANS 124\n~store failed~\nANS 158\n~ok~68~close~{\"deposit\":1,\"fault\":\"B17 manifest-sha256.txt data/a\",\"valid\":false}\nANS 158\n~ok~68~close~{\"deposit\":2,\"fault\":\"B17 manifest-sha256.txt data/a\",\"valid\":false}\n|",
        "serve,--port,0,--count,3,STORE,2024-03-05|GET /deposits/3/files/data/a~anna~#GET /deposits/3/bag~anna~#GET /deposits/3/audit~anna~|Accepted|~store failed~#~store failed~#~ok~68~close~{\"deposit\":3,\"fault\":\"B17 manifest-sha256.txt data/a\",\"valid\":false}#|depot: connection 1: a reading was answered Store, 1 in a row\ndepot: connection 3: a reading succeeded again, after 2 in a row, the last answered Store\ndepot: serving ended after the connections that were asked for: 3\n",
        "policy,STORE,v/policy.toml||Accepted|~installed~|",
    ],
};

/// Offices with three deposits, and with a hold on one, one on a collection and a released one; in version 4 with
/// one on a class, too. Holds of each kind go on, and are released; a new one on a class is placed. In version 5, this
/// one, a content that all three share has other bytes, or none, or another mark: no download serves it, and an audit
/// reads the bytes that are there.
static ALTERED: [Altered; 5] = [
    Altered {
        version: 3,
        made: &[
            "policy,STORE,v/policy.toml||Accepted|~installed~|",
            "replay,STORE|~days~REQ 2024-03-05 95\nPOST /holds~anna sends~31\r\n\r\n{\"deposit\":1,\"matter\":\"Case 7\"}\nREQ 2024-03-05 102\nPOST /holds~anna sends~38\r\n\r\n{\"collection\":\"tax\",\"matter\":\"Case 8\"}\nREQ 2024-03-05 95\nPOST /holds~anna sends~31\r\n\r\n{\"deposit\":3,\"matter\":\"Case 9\"}\nREQ 2024-03-05 48\nDELETE /holds/3~anna~\n|Accepted|~days answered~ANS 105\nHTTP/1.1 201 Created~json~10~close~{\"hold\":1}\nANS 105\nHTTP/1.1 201 Created~json~10~close~{\"hold\":2}\nANS 105\nHTTP/1.1 201 Created~json~10~close~{\"hold\":3}\nANS 124\n~ok~34~close~{\"hold\":3,\"released\":\"2024-03-05\"}\n|",
        ],
        puts: &[TO_FOURTH, TO_THIRD],
        runs: [
            "ask,STORE,2024-03-05|GET /deposits/2/holds~anna~|Accepted|~ok~80~close~{\"holds\":[{\"hold\":2,\"matter\":\"Case 8\",\"on\":\"collection\",\"placed\":\"2024-03-05\"}]}|",
            "replay,STORE|REQ 2024-03-05 41\nGET /due~anna~\nREQ 2024-03-05 48\nDELETE /holds/3~anna~\nREQ 2024-03-05 51\nDELETE /deposits/1~anna~\nREQ 2024-03-05 48\nDELETE /holds/1~anna~\nREQ 2024-03-05 51\nDELETE /deposits/1~anna~\nREQ 2024-03-05 96\nPOST /holds~anna sends~32\r\n\r\n{\"class\":\"y1\",\"matter\":\"Case 7\"}\nREQ 2024-03-05 54\nGET /deposits/3/holds~anna~\n|Accepted|ANS 124\n~ok~34~close~{\"day\":\"2024-03-05\",\"deposits\":[]}\nANS 135\nHTTP/1.1 409 Conflict~json~39~close~{\"day\":\"2024-03-05\",\"error\":\"Released\"}\nANS 121\nHTTP/1.1 409 Conflict~json~25~close~{\"error\":\"Held\",\"hold\":1}\nANS 124\n~ok~34~close~{\"hold\":1,\"released\":\"2024-03-05\"}\nANS 124\n~ok~34~close~{\"day\":\"2024-03-05\",\"destroyed\":1}\nANS 105\nHTTP/1.1 201 Created~json~10~close~{\"hold\":4}\nANS 165\n~ok~75~close~{\"holds\":[{\"hold\":4,\"matter\":\"Case 7\",\"on\":\"class\",\"placed\":\"2024-03-05\"}]}\n|",
            "serve,--port,0,--count,2,STORE,2024-03-05|GET /deposits/1~anna~#GET /deposits/1/holds~anna~|Accepted|~ok~151~close~{\"accession\":\"A-1\",\"bytes\":3,\"class\":\"y10\",\"closed\":\"2024-02-29\",\"collection\":\"maps\",\"deposit\":1,\"deposited\":\"2024-03-01\",\"due\":\"2024-02-29\",\"files\":1}#~ok~77~close~{\"holds\":[{\"hold\":1,\"matter\":\"Case 7\",\"on\":\"deposit\",\"placed\":\"2024-03-05\"}]}#|depot: serving ended after the connections that were asked for: 2\n",
            "policy,STORE,v/policy.toml||Accepted|~installed~|",
        ],
    },
    Altered {
        version: 4,
        made: &[
            "policy,STORE,v/policy.toml||Accepted|~installed~|",
            "replay,STORE|~days~REQ 2024-03-05 95\nPOST /holds~anna sends~31\r\n\r\n{\"deposit\":1,\"matter\":\"Case 7\"}\nREQ 2024-03-05 102\nPOST /holds~anna sends~38\r\n\r\n{\"collection\":\"tax\",\"matter\":\"Case 8\"}\nREQ 2024-03-05 95\nPOST /holds~anna sends~31\r\n\r\n{\"deposit\":3,\"matter\":\"Case 9\"}\nREQ 2024-03-05 48\nDELETE /holds/3~anna~\nREQ 2024-03-05 98\nPOST /holds~anna sends~34\r\n\r\n{\"class\":\"y10\",\"matter\":\"Case 10\"}\n|Accepted|~days answered~ANS 105\nHTTP/1.1 201 Created~json~10~close~{\"hold\":1}\nANS 105\nHTTP/1.1 201 Created~json~10~close~{\"hold\":2}\nANS 105\nHTTP/1.1 201 Created~json~10~close~{\"hold\":3}\nANS 124\n~ok~34~close~{\"hold\":3,\"released\":\"2024-03-05\"}\nANS 105\nHTTP/1.1 201 Created~json~10~close~{\"hold\":4}\n|",
        ],
        puts: &[TO_FOURTH],
        runs: [
            "ask,STORE,2024-03-05|GET /deposits/2/holds~anna~|Accepted|~ok~145~close~{\"holds\":[{\"hold\":2,\"matter\":\"Case 8\",\"on\":\"collection\",\"placed\":\"2024-03-05\"},{\"hold\":4,\"matter\":\"Case 10\",\"on\":\"class\",\"placed\":\"2024-03-05\"}]}|",
            "replay,STORE|REQ 2024-03-05 41\nGET /due~anna~\nREQ 2024-03-05 48\nDELETE /holds/3~anna~\nREQ 2024-03-05 51\nDELETE /deposits/1~anna~\nREQ 2024-03-05 48\nDELETE /holds/1~anna~\nREQ 2024-03-05 51\nDELETE /deposits/1~anna~\nREQ 2024-03-05 48\nDELETE /holds/4~anna~\nREQ 2024-03-05 51\nDELETE /deposits/1~anna~\nREQ 2024-03-05 96\nPOST /holds~anna sends~32\r\n\r\n{\"class\":\"y1\",\"matter\":\"Case 7\"}\nREQ 2024-03-05 54\nGET /deposits/3/holds~anna~\n|Accepted|ANS 124\n~ok~34~close~{\"day\":\"2024-03-05\",\"deposits\":[]}\nANS 135\nHTTP/1.1 409 Conflict~json~39~close~{\"day\":\"2024-03-05\",\"error\":\"Released\"}\nANS 121\nHTTP/1.1 409 Conflict~json~25~close~{\"error\":\"Held\",\"hold\":1}\nANS 124\n~ok~34~close~{\"hold\":1,\"released\":\"2024-03-05\"}\nANS 121\nHTTP/1.1 409 Conflict~json~25~close~{\"error\":\"Held\",\"hold\":4}\nANS 124\n~ok~34~close~{\"hold\":4,\"released\":\"2024-03-05\"}\nANS 124\n~ok~34~close~{\"day\":\"2024-03-05\",\"destroyed\":1}\nANS 105\nHTTP/1.1 201 Created~json~10~close~{\"hold\":5}\nANS 165\n~ok~75~close~{\"holds\":[{\"hold\":5,\"matter\":\"Case 7\",\"on\":\"class\",\"placed\":\"2024-03-05\"}]}\n|",
            "serve,--port,0,--count,2,STORE,2024-03-05|GET /deposits/1~anna~#GET /deposits/1/holds~anna~|Accepted|~ok~151~close~{\"accession\":\"A-1\",\"bytes\":3,\"class\":\"y10\",\"closed\":\"2024-02-29\",\"collection\":\"maps\",\"deposit\":1,\"deposited\":\"2024-03-01\",\"due\":\"2024-02-29\",\"files\":1}#~ok~142~close~{\"holds\":[{\"hold\":1,\"matter\":\"Case 7\",\"on\":\"deposit\",\"placed\":\"2024-03-05\"},{\"hold\":4,\"matter\":\"Case 10\",\"on\":\"class\",\"placed\":\"2024-03-05\"}]}#|depot: serving ended after the connections that were asked for: 2\n",
            "policy,STORE,v/policy.toml||Accepted|~installed~|",
        ],
    },
    OTHER_BYTES,
    Altered {
        puts: &["UPDATE content SET bytes = x'' WHERE bytes = x'616263'"],
        ..OTHER_BYTES
    },
    Altered {
        puts: &[
            "UPDATE content SET mark = x'0000000000000000000000000000000000000000000000000000000000000000' WHERE bytes = x'616263'",
        ],
        runs: [
            "ask,STORE,2024-03-05|GET /deposits/1/bag~anna~|Accepted|~store failed~|",
            "replay,STORE|REQ 2024-03-05 61\nGET /deposits/1/files/data/a~anna~\nREQ 2024-03-05 52\nGET /deposits/1/bag~anna~\nREQ 2024-03-05 61\nGET /deposits/2/files/data/a~anna~\nREQ 2024-03-05 52\nGET /deposits/2/bag~anna~\nREQ 2024-03-05 54\nGET /deposits/1/audit~anna~\nREQ 2024-03-05 54\nGET /deposits/2/audit~anna~\n|Accepted|ANS 124\n~store failed~\nANS 124\n~store failed~\nANS 124\n~store failed~\nANS 124\n~store failed~\nANS 166\n~ok~76~close~{\"bytes\":3,\"deposit\":1,\"files\":1,\"manifests\":1,\"valid\":true,\"version\":\"1.0\"}\nANS 166\n~ok~76~close~{\"bytes\":3,\"deposit\":2,\"files\":1,\"manifests\":1,\"valid\":true,\"version\":\"1.0\"}\n|",
            "serve,--port,0,--count,3,STORE,2024-03-05|GET /deposits/3/files/data/a~anna~#GET /deposits/3/bag~anna~#GET /deposits/3/audit~anna~|Accepted|~store failed~#~store failed~#~ok~76~close~{\"bytes\":3,\"deposit\":3,\"files\":1,\"manifests\":1,\"valid\":true,\"version\":\"1.0\"}#|depot: connection 1: a reading was answered Store, 1 in a row\ndepot: connection 3: a reading succeeded again, after 2 in a row, the last answered Store\ndepot: serving ended after the connections that were asked for: 3\n",
            "policy,STORE,v/policy.toml||Accepted|~installed~|",
        ],
        ..OTHER_BYTES
    },
];

/// The bytes with the second text wherever the first is, which is as long.
fn replace_bytes(
    alloc: Global,
    bytes: &[u8],
    from: &[u8],
    to: &[u8],
) -> Result<Vec<u8>, AllocError> {
    let mut made = Vec::new(alloc);
    let mut rest = bytes;
    for _ in 0..bytes.len() {
        if let Some(behind) = rest.strip_prefix(from) {
            made.extend_from_slice(to)?;
            rest = behind;
        } else if let Some((first, behind)) = rest.split_first() {
            made.push(*first)?;
            rest = behind;
        }
    }
    Ok(made)
}

/// The bytes of the store, where these are an office's.
fn content(alloc: Global, store: &Store, office: &[u8]) -> Result<Vec<u8>, AllocError> {
    let bytes = if store.own.is_empty() {
        office
    } else {
        store.own
    };
    let mut made = replace_bytes(alloc, bytes, store.from, store.to)?;
    if let Some(byte) = made.get_mut(store.turned) {
        *byte ^= 1;
    }
    if let Some(length) = store.length {
        made.resize(length, 0)?;
    }
    Ok(made)
}

/// Puts each command to the store at that path.
fn refuse(rt: &HostRuntime, path: &str, told: &str) -> Result<(), Fail> {
    for command in &COMMANDS {
        let text = format!(in rt.alloc(); "{command}{told}")?.replace(rt.alloc(), "STORE", path)?;
        run_one(rt, text.as_str())?;
    }
    for text in &REFUSED {
        run_one(rt, text.replace(rt.alloc(), "STORE", path)?.as_str())?;
    }
    Ok(())
}

/// Fails where the store doesn't hold these bytes.
fn compare(rt: &HostRuntime, path: &str, bytes: &[u8]) -> Result<(), Fail> {
    if fs::read(rt, path)?.as_slice() != bytes {
        return Err(Fail::new(path));
    }
    Ok(())
}

/// Makes a store of these bytes, and puts each command to it. Fails where one says something else, or
/// the store doesn't stay as it was.
fn take(rt: &HostRuntime, path: &str, told: &str, bytes: &[u8]) -> Result<(), Fail> {
    fs::write(rt, path, bytes)?;
    refuse(rt, path, told)?;
    compare(rt, path, bytes)
}

/// The same with a file under the lock that each connection to a database takes.
fn take_locked(rt: &HostRuntime, path: &str, told: &str, bytes: &[u8]) -> Result<(), Fail> {
    let file = File::create(rt, path)?;
    if os::try_lock_range(file.as_raw_fd(), RangeLock::Exclusive, 1 << 30, 512) != 0 {
        return Err("no lock".into());
    }
    take(rt, path, told, bytes)
}

/// The same with a file of this mode, which nobody may write. Root may all the same, and it is left out.
fn take_closed(
    rt: &HostRuntime,
    path: &str,
    mode: u32,
    told: &str,
    bytes: &[u8],
) -> Result<(), Fail> {
    fs::write(rt, path, bytes)?;
    fs::set_permissions(rt, path, Permissions::from_mode(mode))?;
    if OpenOptions::new().append(true).open(rt, path).is_err() {
        refuse(rt, path, told)?;
    }
    fs::set_permissions(rt, path, Permissions::from_mode(0o644))?;
    compare(rt, path, bytes)
}

/// The bytes of a new office.
fn new_office(rt: &HostRuntime) -> Result<Vec<u8>, Fail> {
    begin(
        rt,
        "s",
        &[
            ("s/policy.toml", "~policy~"),
            ("s/other.toml", "version = 3\n"),
        ],
    )?;
    run_all(
        rt,
        &["policy,s/office.db,s/policy.toml||Accepted|~installed~|"],
    )?;
    Ok(fs::read(rt, "s/office.db")?)
}

/// Each of the stores, made of the office's bytes.
fn take_all(rt: &HostRuntime, office: &[u8]) -> Result<(), Fail> {
    for store in &STORES {
        let bytes = content(rt.alloc(), store, office)?;
        take(rt, store.path, store.told, bytes.as_slice())?;
    }
    Ok(())
}

/// A folder, and an office that is locked, or that nobody may read, or write.
fn take_unopened(rt: &HostRuntime, office: &[u8]) -> Result<(), Fail> {
    fs::create_dir(rt, "s/folder")?;
    refuse(
        rt,
        "s/folder",
        "~unopened~STORE: Is a directory (os error 21)\n",
    )?;
    take_locked(
        rt,
        "s/locked.db",
        "~unopened~STORE: database is locked\n",
        office,
    )?;
    for mode in [0, 0o444] {
        take_closed(
            rt,
            "s/closed.db",
            mode,
            "~unopened~STORE: Permission denied (os error 13)\n",
            office,
        )?;
    }
    Ok(())
}

/// Takes all of them.
fn take_stores(rt: &HostRuntime) -> Result<(), Fail> {
    let office = new_office(rt)?;
    take_all(rt, office.as_slice())?;
    take_unopened(rt, office.as_slice())
}

#[test]
fn what_is_no_office(rt: HostRuntime) -> Result<(), Fail> {
    take_stores(&rt)?;
    // What can't be opened got no log beside it.
    for path in ["s/folder-wal", "s/locked.db-wal", "s/closed.db-wal"] {
        assert!(rt; !fs::exists(&rt, path)?);
    }
    fs::remove_dir_all(&rt, "s")?;
    Ok(())
}

/// Runs SQL on the store.
fn put(rt: &HostRuntime, path: &str, sql: &str) -> Result<(), Fail> {
    let Ok(mut conn) = Connection::open_from(rt, path, false, Unknown) else {
        return Err("the store is not opened".into());
    };
    let ran = conn.execute_batch(sql);
    let closed = conn.close();
    if ran.is_err() || closed.is_err() {
        return Err(Fail::new(sql));
    }
    Ok(())
}

/// Fails where the row of the table `office` has another version.
fn compare_version(rt: &HostRuntime, path: &str, version: u8) -> Result<(), Fail> {
    let bytes = fs::read(rt, path)?;
    let row = [0, 1, 3, 3, version, 0x0F, 0x42, 0x40, 0x0F, 0x42, 0x40];
    let without = replace_bytes(rt.alloc(), bytes.as_slice(), &row, &[0; 11])?;
    if without.as_slice() == bytes.as_slice() {
        return Err(Fail::new(path));
    }
    Ok(())
}

/// Runs the text over the store at that path.
fn run_over(rt: &HostRuntime, text: &str, path: &str) -> Result<(), Fail> {
    run_one(rt, text.replace(rt.alloc(), "STORE", path)?.as_str())
}

/// The bytes of the altered office.
fn altered_office(rt: &HostRuntime, office: &Altered) -> Result<Vec<u8>, Fail> {
    let version = office.version;
    let path = format!(in rt.alloc(); "v/{version}.db")?;
    for text in office.made {
        run_over(rt, text, path.as_str())?;
    }
    for sql in office.puts {
        put(rt, path.as_str(), sql)?;
    }
    compare_version(rt, path.as_str(), version)?;
    Ok(fs::read(rt, path.as_str())?)
}

/// Puts each command to a store of the altered office, which has the tables of this version afterwards.
fn run_each(rt: &HostRuntime, office: &Altered) -> Result<(), Fail> {
    let bytes = altered_office(rt, office)?;
    let version = office.version;
    for (at, text) in office.runs.iter().enumerate() {
        let path = format!(in rt.alloc(); "v/{version}-{at}.db")?;
        fs::write(rt, path.as_str(), bytes.as_slice())?;
        run_over(rt, text, path.as_str())?;
        compare_version(rt, path.as_str(), 5)?;
    }
    Ok(())
}

#[test]
fn offices_that_other_sql_altered(rt: HostRuntime) -> Result<(), Fail> {
    for office in &ALTERED {
        begin(&rt, "v", &[("v/policy.toml", "~policy~")])?;
        run_each(&rt, office)?;
    }
    fs::remove_dir_all(&rt, "v")?;
    Ok(())
}
