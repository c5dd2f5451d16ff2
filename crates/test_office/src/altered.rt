//! Altered rows: what rests on a row that no accepted change writes is answered by `Store`, and by
//! `Q4` where the due list is called for, and nothing changes. A call for the due list follows rows of
//! which the last asks for it.

use crate::parts::Part;

/// Deposit 1 may be destroyed from 2025-02-28 on, of deposit 2 the rules deny it to `anna`, deposit 3
/// is held by hold 1, deposit 4 was destroyed. Hold 2 is on a collection, hold 3 was released.
pub(crate) static PREPARED: [Part; 2] = [
    ("office", "1000000"),
    (
        "asks",
        "2024-03-01 anna\n\
         deposit maps y1 A-1 > deposit 1\n\
         deposit tax y10 A-2 > deposit 2\n\
         deposit maps y10 A-3 > deposit 3\n\
         deposit maps y1 A-4 > deposit 4\n\
         2024-03-02 anna\n\
         hold 3 > hold 1\n\
         hold-all tax > hold 2\n\
         hold 4 > hold 3\n\
         2024-03-05 anna\n\
         release 3 > released 3 2024-03-05\n\
         2025-02-28 anna\n\
         dispose 4 > destroyed 4 2025-02-28",
    ),
];

/// Nothing is altered that is asked for.
pub(crate) static AS_BEFORE: [Part; 2] = [
    ("alters", "UPDATE office SET max_holds = 999999"),
    (
        "asks",
        "record 1 > record 1 A-1 maps y1 closed 2024-02-29 deposited 2024-03-01 due 2025-02-28 \
         files 1 bytes 3\n\
         record 2 > record 2 A-2 tax y10 closed 2024-02-29 deposited 2024-03-01 due 2034-02-28 \
         files 1 bytes 3\n\
         record 3 > record 3 A-3 maps y10 closed 2024-02-29 deposited 2024-03-01 due 2034-02-28 \
         files 1 bytes 3\n\
         record 4 > Gone 2025-02-28\n\
         bag 1 > whole\n\
         audit 1 > audit 1 valid 1.0 files 1 bytes 3 manifests 1\n\
         list > list: 1 2 3\n\
         2030-01-01 carl\n\
         list > list: 2 3\n\
         2030-01-01 anna\n\
         holds 3 > holds: 1 on deposit placed 2024-03-02 for Case 7;\n\
         holds 1 > holds:\n\
         2040-01-01 anna\n\
         dispose 3 > Held 1\n\
         due > due on 2040-01-01: 1",
    ),
];

/// The bytes of a content are others, which the files `data/a` of all deposits have, or none; two have exchanged
/// their bytes; its mark is another; the bytes of a declaration are others, which a bag has beside its payload; the
/// file of deposit 1 has another content, under no mark of its own or under its own; it is missing; there is one
/// more, whose path is none, or lies below another. No bytes are served that aren't under their SHA-256, and an
/// audit reports on whatever is there. A deposit is downloaded before it is audited, in the first case also after
/// it. The store takes out no content that a file has, and puts no file that has none. Content 1 is the
/// declaration, content 2 is `abc`; all deposits share both.
pub(crate) static FILES: [Part; 14] = [
    (
        "",
        "UPDATE content SET bytes = x'616264' WHERE id = 2\n\
         UPDATE content SET bytes = x'616263' WHERE id = 2\n\
         file 1 data/a > Store\n\
         bag 1 > Store\n\
         file 2 data/a > Store\n\
         bag 2 > Store\n\
         bag 3 > Store\n\
         audit 1 > audit 1 invalid B17 manifest-sha256.txt data/a\n\
         audit 2 > audit 2 invalid B17 manifest-sha256.txt data/a\n\
         file 1 data/a > Store\n\
         bag 2 > Store\n\
         file 1 data/b > NoFile\n\
         record 1 > record 1 A-1 maps y1 closed 2024-02-29 deposited 2024-03-01 due 2025-02-28 \
         files 1 bytes 3\n\
         file 4 data/a > Gone 2025-02-28\n\
         2030-01-01 carl\n\
         file 1 data/a > Denied default",
    ),
    (
        "",
        "UPDATE content SET bytes = x'' WHERE id = 2\n\
         UPDATE content SET bytes = x'616263' WHERE id = 2\n\
         file 1 data/a > Store\n\
         bag 1 > Store\n\
         file 2 data/a > Store\n\
         bag 2 > Store\n\
         audit 1 > audit 1 invalid B17 manifest-sha256.txt data/a\n\
         audit 2 > audit 2 invalid B17 manifest-sha256.txt data/a",
    ),
    // Each has the bytes of the other, and so is under another's mark.
    (
        "",
        "UPDATE content SET bytes = x'616263' WHERE id = 1; UPDATE content SET bytes = x'42616749742d56657273696f6e3a20312e300a5461672d46696c652d4368617261637465722d456e636f64696e673a205554462d380a' WHERE id = 2\n\
         UPDATE content SET bytes = x'42616749742d56657273696f6e3a20312e300a5461672d46696c652d4368617261637465722d456e636f64696e673a205554462d380a' WHERE id = 1; UPDATE content SET bytes = x'616263' WHERE id = 2\n\
         file 1 data/a > Store\n\
         file 1 bagit.txt > Store\n\
         bag 1 > Store\n\
         file 2 data/a > Store\n\
         file 2 bagit.txt > Store\n\
         bag 2 > Store\n\
         audit 1 > audit 1 invalid B2 V3\n\
         audit 2 > audit 2 invalid B2 V3",
    ),
    (
        "",
        "UPDATE content SET mark = x'00' WHERE id = 2\n\
         UPDATE content SET mark = x'ba7816bf8f01cfea414140de5dae2223b00361a396177a9cb410ff61f20015ad' WHERE id = 2\n\
         file 1 data/a > Store\n\
         bag 1 > Store\n\
         file 2 data/a > Store\n\
         bag 2 > Store\n\
         audit 1 > audit 1 valid 1.0 files 1 bytes 3 manifests 1\n\
         audit 2 > audit 2 valid 1.0 files 1 bytes 3 manifests 1",
    ),
    (
        "",
        "UPDATE content SET bytes = x'42616749742d56657273696f6e3a20312e300a5461672d46696c652d4368617261637465722d456e636f64696e673a205554462d390a' WHERE id = 1\n\
         UPDATE content SET bytes = x'42616749742d56657273696f6e3a20312e300a5461672d46696c652d4368617261637465722d456e636f64696e673a205554462d380a' WHERE id = 1\n\
         file 1 data/a > file abc\n\
         file 1 bagit.txt > Store\n\
         bag 1 > Store\n\
         file 2 data/a > file abc\n\
         file 2 bagit.txt > Store\n\
         bag 2 > Store\n\
         audit 1 > audit 1 invalid B2 V7\n\
         audit 2 > audit 2 invalid B2 V7",
    ),
    (
        "",
        "INSERT INTO content (id, mark, size, bytes) VALUES (9, x'', 3, x'616264'); UPDATE file \
         SET content = 9 WHERE deposit = 1 AND path = 'data/a'\n\
         UPDATE file SET content = 2 WHERE deposit = 1 AND path = 'data/a'; DELETE FROM content \
         WHERE id = 9\n\
         file 1 data/a > Store\n\
         bag 1 > Store\n\
         bag 2 > whole\n\
         audit 1 > audit 1 invalid B17 manifest-sha256.txt data/a\n\
         audit 2 > audit 2 valid 1.0 files 1 bytes 3 manifests 1",
    ),
    (
        "",
        "INSERT INTO content (id, mark, size, bytes) VALUES (9, \
         x'a52d159f262b2c6ddb724a61840befc36eb30c88877a4030b65cbe86298449c9', 3, x'616264'); UPDATE file \
         SET content = 9 WHERE deposit = 1 AND path = 'data/a'\n\
         UPDATE file SET content = 2 WHERE deposit = 1 AND path = 'data/a'; DELETE FROM content \
         WHERE id = 9\n\
         file 1 data/a > file abd\n\
         bag 1 > other bytes\n\
         bag 2 > whole\n\
         audit 1 > audit 1 invalid B17 manifest-sha256.txt data/a\n\
         audit 2 > audit 2 valid 1.0 files 1 bytes 3 manifests 1\n\
         record 1 > record 1 A-1 maps y1 closed 2024-02-29 deposited 2024-03-01 due 2025-02-28 \
         files 1 bytes 3",
    ),
    (
        "",
        "DELETE FROM file WHERE deposit = 1 AND path = 'data/a'\n\
         INSERT INTO file (deposit, path, content) VALUES (1, 'data/a', 2)\n\
         file 1 data/a > NoFile\n\
         audit 1 > audit 1 invalid B11 manifest-sha256.txt data/a\n\
         audit 2 > audit 2 valid 1.0 files 1 bytes 3 manifests 1",
    ),
    (
        "",
        "DELETE FROM file WHERE deposit = 1\n\
         INSERT INTO file (deposit, path, content) SELECT 1, path, content FROM file WHERE \
         deposit = 2\n\
         bag 1 > none\n\
         bag 2 > whole\n\
         audit 1 > audit 1 invalid B1",
    ),
    (
        "",
        "INSERT INTO file (deposit, path, content) VALUES (1, 'data/../x', 2)\n\
         DELETE FROM file WHERE path = 'data/../x'\n\
         bag 1 > Store\n\
         file 1 data/../x > NoFile\n\
         file 1 data/a > file abc\n\
         bag 2 > whole\n\
         audit 1 > audit 1 invalid S5 1\n\
         record 1 > record 1 A-1 maps y1 closed 2024-02-29 deposited 2024-03-01 due 2025-02-28 \
         files 1 bytes 3\n\
         2030-01-01 carl\n\
         bag 1 > Denied default",
    ),
    (
        "",
        "INSERT INTO file (deposit, path, content) VALUES (1, 'data/a/b', 2)\n\
         DELETE FROM file WHERE path = 'data/a/b'\n\
         bag 1 > Store\n\
         bag 2 > whole\n\
         audit 1 > audit 1 invalid S8",
    ),
    (
        "",
        "INSERT INTO file (deposit, path, content) VALUES (4, 'data/a', 2)\n\
         DELETE FROM file WHERE deposit = 4\n\
         bag 4 > Gone 2025-02-28\n\
         file 4 data/a > Gone 2025-02-28\n\
         audit 4 > Gone 2025-02-28",
    ),
    (
        "",
        "INSERT INTO file (deposit, path, content) VALUES (5, 'data/a', 2)\n\
         DELETE FROM file WHERE deposit = 5\n\
         audit 5 > NoSuch deposit\n\
         audit 1 > audit 1 valid 1.0 files 1 bytes 3 manifests 1",
    ),
    (
        "steps",
        "run|DELETE FROM content WHERE id = 2 > Q4\n\
         run|UPDATE content SET id = 9 WHERE id = 2 > Q4\n\
         run|UPDATE file SET content = 9 WHERE deposit = 1 > Q4\n\
         run|INSERT INTO file (deposit, path, content) VALUES (1, 'data/b', 9) > Q4\n\
         show|SELECT id, size FROM content ORDER BY id > 1|54;2|3;3|73;",
    ),
];

/// The years of the class of deposits 1 and 4 are none. A new deposit has its due day by them; a record,
/// a disposal and the due list rest on the due day that is stored.
pub(crate) static CLASSES: [Part; 4] = [
    (
        "",
        "UPDATE class SET years = 300 WHERE name = 'y1'\n\
         UPDATE class SET years = 1 WHERE name = 'y1'\n\
         record 1 > record 1 A-1 maps y1 closed 2024-02-29 deposited 2024-03-01 due 2025-02-28 \
         files 1 bytes 3\n\
         list > list: 1 2 3\n\
         list-of maps > list: 1 3\n\
         deposit maps y1 A-5 > Store\n\
         record 2 > record 2 A-2 tax y10 closed 2024-02-29 deposited 2024-03-01 due 2034-02-28 \
         files 1 bytes 3\n\
         list-of tax > list: 2\n\
         2030-01-01 carl\n\
         list > list: 2 3\n\
         2030-01-01 anna\n\
         bag 1 > whole\n\
         audit 1 > audit 1 valid 1.0 files 1 bytes 3 manifests 1\n\
         holds 1 > holds:\n\
         record 4 > Gone 2025-02-28\n\
         2030-01-01 carl\n\
         record 1 > Denied default\n\
         dispose 1 > Denied default\n\
         2024-03-05 anna\n\
         dispose 1 > NotDue 2025-02-28\n\
         2040-01-01 anna\n\
         dispose 3 > Held 1\n\
         2030-01-01 anna\n\
         due > due on 2030-01-01: 1",
    ),
    (
        "",
        "UPDATE class SET years = 201 WHERE name = 'y1'\n\
         UPDATE class SET years = 1 WHERE name = 'y1'\n\
         deposit maps y1 A-5 > Store\n\
         due > due on 2030-01-01: 1",
    ),
    (
        "",
        "UPDATE class SET years = -2 WHERE name = 'y1'\n\
         UPDATE class SET years = 1 WHERE name = 'y1'\n\
         deposit maps y1 A-5 > Store\n\
         2024-03-05 anna\n\
         dispose 1 > NotDue 2025-02-28\n\
         2030-01-01 anna\n\
         due > due on 2030-01-01: 1",
    ),
    (
        "",
        "INSERT INTO class (name, years) VALUES ('z', 300)\n\
         DELETE FROM class WHERE name = 'z'\n\
         record 1 > record 1 A-1 maps y1 closed 2024-02-29 deposited 2024-03-01 due 2025-02-28 \
         files 1 bytes 3\n\
         list > list: 1 2 3\n\
         due > due on 2030-01-01: 1",
    ),
];

/// Days that are none, of deposit 1 as it was closed and deposited, of deposit 4 as it was destroyed; a
/// deposit whose records were closed after it; counts and an accession that no deposit has. Day 2859849
/// would be 9800-01-01 and day -25568 1899-12-31; day 19782 is 2024-02-29, 19783 the next, 20147
/// 2025-02-28. A bag has up to 2,000 files, of up to 16,777,216 bytes each.
pub(crate) static DEPOSITS: [Part; 12] = [
    (
        "",
        "UPDATE deposit SET closed = 2859849 WHERE number = 1\n\
         UPDATE deposit SET closed = 19782 WHERE number = 1\n\
         record 1 > Store\n\
         list > Store\n\
         dispose 1 > Store\n\
         bag 1 > Store\n\
         file 1 data/a > Store\n\
         audit 1 > Store\n\
         holds 1 > Store\n\
         hold 1 > Store\n\
         record 2 > record 2 A-2 tax y10 closed 2024-02-29 deposited 2024-03-01 due 2034-02-28 \
         files 1 bytes 3\n\
         list-of tax > list: 2\n\
         2030-01-01 carl\n\
         list > list: 2 3\n\
         record 1 > Denied default\n\
         2040-01-01 anna\n\
         dispose 3 > Held 1\n\
         2030-01-01 anna\n\
         class y1 2 > Store\n\
         due > due on 2030-01-01: 1",
    ),
    (
        "",
        "UPDATE deposit SET closed = -25568 WHERE number = 1\n\
         UPDATE deposit SET closed = 19782 WHERE number = 1\n\
         record 1 > Store\n\
         due > due on 2030-01-01: 1",
    ),
    (
        "",
        "UPDATE deposit SET closed = 4294987078 WHERE number = 1\n\
         UPDATE deposit SET closed = 19782 WHERE number = 1\n\
         record 1 > Store\n\
         dispose 1 > Store",
    ),
    (
        "",
        "UPDATE deposit SET deposited = 2859849 WHERE number = 1\n\
         UPDATE deposit SET deposited = 19783 WHERE number = 1\n\
         record 1 > Store\n\
         bag 1 > Store\n\
         hold 1 > Store\n\
         list-of maps > Store\n\
         record 3 > record 3 A-3 maps y10 closed 2024-02-29 deposited 2024-03-01 due 2034-02-28 \
         files 1 bytes 3\n\
         list-of tax > list: 2",
    ),
    (
        "",
        "UPDATE deposit SET gone = 2859849 WHERE number = 4\n\
         UPDATE deposit SET gone = 20147 WHERE number = 4\n\
         record 4 > Store\n\
         holds 4 > Store\n\
         bag 4 > Store\n\
         file 4 data/a > Store\n\
         audit 4 > Store\n\
         hold 4 > Store\n\
         dispose 4 > Store\n\
         list > Store\n\
         list-of maps > Store\n\
         list-of tax > list: 2\n\
         record 1 > record 1 A-1 maps y1 closed 2024-02-29 deposited 2024-03-01 due 2025-02-28 \
         files 1 bytes 3\n\
         release 3 > Released 2024-03-05",
    ),
    (
        "",
        "UPDATE deposit SET gone = -25568 WHERE number = 4\n\
         UPDATE deposit SET gone = 20147 WHERE number = 4\n\
         record 4 > Store",
    ),
    (
        "",
        "UPDATE deposit SET files = -1 WHERE number = 1\n\
         UPDATE deposit SET files = 1 WHERE number = 1\n\
         record 1 > Store\n\
         record 2 > record 2 A-2 tax y10 closed 2024-02-29 deposited 2024-03-01 due 2034-02-28 \
         files 1 bytes 3",
    ),
    (
        "",
        "UPDATE deposit SET bytes = -1 WHERE number = 1\n\
         UPDATE deposit SET bytes = 3 WHERE number = 1\n\
         list > Store\n\
         2030-01-01 carl\n\
         list > list: 2 3",
    ),
    (
        "",
        "UPDATE deposit SET closed = 19784 WHERE number = 1\n\
         UPDATE deposit SET closed = 19782 WHERE number = 1\n\
         record 1 > Store\n\
         list > Store\n\
         dispose 1 > Store\n\
         bag 1 > Store\n\
         audit 1 > Store\n\
         hold 1 > Store\n\
         list-of tax > list: 2\n\
         due > due on 2030-01-01: 1",
    ),
    (
        "",
        "UPDATE deposit SET files = 2001 WHERE number = 1\n\
         UPDATE deposit SET files = 1 WHERE number = 1\n\
         record 1 > Store\n\
         list > Store\n\
         bag 1 > whole",
    ),
    (
        "",
        "UPDATE deposit SET bytes = 33554432001 WHERE number = 1\n\
         UPDATE deposit SET bytes = 3 WHERE number = 1\n\
         record 1 > Store\n\
         bag 1 > whole",
    ),
    (
        "",
        "UPDATE deposit SET accession = 'A 1' WHERE number = 1\n\
         UPDATE deposit SET accession = 'A-1' WHERE number = 1\n\
         record 1 > Store\n\
         record 2 > record 2 A-2 tax y10 closed 2024-02-29 deposited 2024-03-01 due 2034-02-28 \
         files 1 bytes 3",
    ),
];

/// The due day of a deposit is another, none, or no day of a deposit; holds are counted that there are
/// not, or those that there are aren't. A disposal and the due list rest on them, and a record on the due
/// day: where a hold is counted and none is found, a disposal is answered by `Store`. A hold of a deposit, and
/// its release, rest on the count that they change; one of a collection fails where a count would leave 64 bits.
/// Day 20512 is 2026-02-28, and day 2932897 would be 10000-01-01.
pub(crate) static DUES: [Part; 9] = [
    (
        "",
        "UPDATE deposit SET due = 20512 WHERE number = 1\n\
         UPDATE deposit SET due = 20147 WHERE number = 1\n\
         2026-02-27 anna\n\
         dispose 1 > NotDue 2026-02-28\n\
         record 1 > record 1 A-1 maps y1 closed 2024-02-29 deposited 2024-03-01 due 2026-02-28 \
         files 1 bytes 3\n\
         due > due on 2026-02-27:",
    ),
    (
        "",
        "UPDATE deposit SET due = NULL WHERE number = 1\n\
         UPDATE deposit SET due = 20147 WHERE number = 1\n\
         dispose 1 > NotDue never\n\
         record 1 > record 1 A-1 maps y1 closed 2024-02-29 deposited 2024-03-01 due never \
         files 1 bytes 3\n\
         due > due on 2030-01-01:",
    ),
    (
        "",
        "UPDATE deposit SET due = 2932897 WHERE number = 1\n\
         UPDATE deposit SET due = 20147 WHERE number = 1\n\
         dispose 1 > Store\n\
         record 1 > Store\n\
         list > Store\n\
         list-of tax > list: 2\n\
         2030-01-01 carl\n\
         dispose 1 > Store\n\
         2030-01-01 anna\n\
         bag 1 > whole\n\
         due > due on 2030-01-01:",
    ),
    (
        "",
        "UPDATE deposit SET due = -25568 WHERE number = 1\n\
         UPDATE deposit SET due = 20147 WHERE number = 1\n\
         dispose 1 > Store\n\
         record 1 > Store\n\
         2030-01-01 carl\n\
         due > Store\n\
         2030-01-01 anna\n\
         due > Store",
    ),
    (
        "",
        "UPDATE deposit SET holds = 1 WHERE number = 1\n\
         UPDATE deposit SET holds = 0 WHERE number = 1\n\
         dispose 1 > Store\n\
         holds 1 > holds:\n\
         due > due on 2030-01-01:",
    ),
    (
        "",
        "UPDATE deposit SET holds = -1 WHERE number = 1\n\
         UPDATE deposit SET holds = 0 WHERE number = 1\n\
         dispose 1 > Store\n\
         hold 1 > Store\n\
         due > due on 2030-01-01:",
    ),
    (
        "",
        "UPDATE deposit SET holds = 0 WHERE number = 3\n\
         UPDATE deposit SET holds = 1 WHERE number = 3\n\
         dispose 3 > NotDue 2034-02-28\n\
         release 1 > Store\n\
         holds 3 > holds: 1 on deposit placed 2024-03-02 for Case 7;\n\
         2040-01-01 anna\n\
         due > due on 2040-01-01: 1 3",
    ),
    (
        "",
        "UPDATE deposit SET holds = 1000001 WHERE number = 3\n\
         UPDATE deposit SET holds = 1 WHERE number = 3\n\
         hold 3 > Store\n\
         release 1 > Store\n\
         2040-01-01 anna\n\
         dispose 3 > Store\n\
         holds 3 > holds: 1 on deposit placed 2024-03-02 for Case 7;\n\
         due > due on 2040-01-01: 1",
    ),
    (
        "",
        "UPDATE deposit SET holds = 9223372036854775807 WHERE number = 1\n\
         UPDATE deposit SET holds = 0 WHERE number = 1\n\
         hold-all maps > Store\n\
         holds 3 > holds: 1 on deposit placed 2024-03-02 for Case 7;\n\
         due > due on 2030-01-01:",
    ),
];

/// What is asked where a text of the third rule isn't UTF-8.
const BESIDE_NO_UTF_8: &str = "list > Store\n\
    list-of tax > Store\n\
    list-class y1 > Store\n\
    record 1 > record 1 A-1 maps y1 closed 2024-02-29 deposited 2024-03-01 due 2025-02-28 \
    files 1 bytes 3\n\
    bag 1 > whole\n\
    dispose 2 > Denied rule 1\n\
    2040-01-01 anna\n\
    dispose 3 > Held 1\n\
    2030-01-01 carl\n\
    list > Store\n\
    due > Store\n\
    record 2 > Denied default\n\
    2030-01-01 eve\n\
    list > Store\n\
    record 1 > Denied default\n\
    2030-01-01 anna\n\
    due > Store";

/// Rules that neither allow nor deny, or that no policy has: one that asks for the empty name, one at
/// a place after the last that a policy may have, and those with a bound that is no day. Then a role that is
/// no name. The second rule lets `anna` do everything, the third lets `carl` list. A rule counts on its first
/// day and on its last, and on none where these are in no order: day 21914 is 2029-12-31, day 21915 the next.
/// The last parts give the third rule, and then the first, a text that isn't UTF-8: lists and due lists fail,
/// whoever asks, and what else is asked is decided by the other rules.
pub(crate) static RULES: [Part; 24] = [
    (
        "",
        "UPDATE rule_5 SET effect = 2 WHERE place = 2\n\
         UPDATE rule_5 SET effect = 1 WHERE place = 2\n\
         record 1 > Store\n\
         class y1 2 > Store\n\
         collection seals > Store\n\
         deposit maps y1 A-1 > Store\n\
         hold-all maps > Store\n\
         release 1 > Store\n\
         dispose 1 > Store\n\
         bag 1 > Store\n\
         audit 1 > Store\n\
         list > Store\n\
         dispose 2 > Denied rule 1\n\
         record 9 > NoSuch deposit\n\
         2030-01-01 carl\n\
         list > list: 2 3\n\
         2030-01-01 eve\n\
         record 1 > Denied default\n\
         2030-01-01 anna\n\
         due > Store",
    ),
    (
        "",
        "UPDATE rule_5 SET effect = -1 WHERE place = 1\n\
         UPDATE rule_5 SET effect = 0 WHERE place = 1\n\
         dispose 2 > Store\n\
         record 2 > record 2 A-2 tax y10 closed 2024-02-29 deposited 2024-03-01 due 2034-02-28 \
         files 1 bytes 3\n\
         2024-03-05 anna\n\
         dispose 1 > NotDue 2025-02-28\n\
         2030-01-01 anna\n\
         due > due on 2030-01-01: 1",
    ),
    (
        "",
        "UPDATE rule_5 SET effect = 2 WHERE place = 3\n\
         UPDATE rule_5 SET effect = 1 WHERE place = 3\n\
         2030-01-01 carl\n\
         list > Store\n\
         record 2 > Denied default\n\
         2030-01-01 anna\n\
         list > list: 1 2 3\n\
         due > due on 2030-01-01: 1",
    ),
    (
        "",
        "INSERT INTO rule_5 (place, effect, role, action, collection, class, first, last) VALUES (4, \
         2, '*', '*', '*', '*', -25567, 2859848)\n\
         DELETE FROM rule_5 WHERE place = 4\n\
         2030-01-01 eve\n\
         record 1 > Store\n\
         list > Store\n\
         2030-01-01 carl\n\
         record 2 > Store\n\
         2030-01-01 anna\n\
         record 1 > record 1 A-1 maps y1 closed 2024-02-29 deposited 2024-03-01 due 2025-02-28 \
         files 1 bytes 3",
    ),
    (
        "",
        "UPDATE rule_5 SET collection = '' WHERE place = 2\n\
         UPDATE rule_5 SET collection = '*' WHERE place = 2\n\
         class y1 2 > Store\n\
         record 1 > Denied default\n\
         dispose 2 > Denied rule 1\n\
         2030-01-01 carl\n\
         list > list: 2 3\n\
         2030-01-01 anna\n\
         due > due on 2030-01-01:",
    ),
    (
        "",
        "UPDATE rule_5 SET place = 201 WHERE place = 3\n\
         UPDATE rule_5 SET place = 3 WHERE place = 201\n\
         2030-01-01 carl\n\
         list > Store\n\
         record 2 > Denied default\n\
         2030-01-01 anna\n\
         list > list: 1 2 3\n\
         due > due on 2030-01-01: 1",
    ),
    (
        "",
        "UPDATE rule_5 SET last = 2859849 WHERE place = 2\n\
         UPDATE rule_5 SET last = 2859848 WHERE place = 2\n\
         record 1 > Store\n\
         class y1 2 > Store\n\
         hold-class y1 > Store\n\
         list > Store\n\
         dispose 2 > Denied rule 1\n\
         2030-01-01 carl\n\
         list > list: 2 3\n\
         2030-01-01 anna\n\
         due > Store",
    ),
    (
        "",
        "UPDATE rule_5 SET first = -25568 WHERE place = 3\n\
         UPDATE rule_5 SET first = -25567 WHERE place = 3\n\
         2030-01-01 carl\n\
         list > Store\n\
         record 2 > Denied default\n\
         2030-01-01 anna\n\
         list > list: 1 2 3\n\
         due > due on 2030-01-01: 1",
    ),
    (
        "",
        "UPDATE rule_5 SET first = 21916, last = 21915 WHERE place = 1\n\
         UPDATE rule_5 SET first = -25567, last = 2859848 WHERE place = 1\n\
         dispose 2 > Held 2\n\
         record 1 > record 1 A-1 maps y1 closed 2024-02-29 deposited 2024-03-01 due 2025-02-28 \
         files 1 bytes 3\n\
         due > due on 2030-01-01: 1",
    ),
    (
        "",
        "UPDATE rule_5 SET first = 21915, last = 21914 WHERE place = 2\n\
         UPDATE rule_5 SET first = -25567, last = 2859848 WHERE place = 2\n\
         record 1 > Denied default\n\
         list > list:\n\
         due > due on 2030-01-01:\n\
         2029-12-31 anna\n\
         record 1 > Denied default\n\
         due > due on 2029-12-31:",
    ),
    (
        "",
        "UPDATE rule_5 SET first = 21915 WHERE place = 2\n\
         UPDATE rule_5 SET first = -25567 WHERE place = 2\n\
         list > list: 1 2 3\n\
         2029-12-31 anna\n\
         list > list:\n\
         record 1 > Denied default\n\
         due > due on 2029-12-31:\n\
         2030-01-01 anna\n\
         due > due on 2030-01-01: 1",
    ),
    (
        "",
        "UPDATE rule_5 SET last = 21914 WHERE place = 2\n\
         UPDATE rule_5 SET last = 2859848 WHERE place = 2\n\
         list > list:\n\
         record 1 > Denied default\n\
         2029-12-31 anna\n\
         list > list: 1 2 3\n\
         2030-01-01 anna\n\
         due > due on 2030-01-01:\n\
         2029-12-31 anna\n\
         due > due on 2029-12-31: 1",
    ),
    (
        "",
        "UPDATE caller SET role = 'Clerk' WHERE name = 'carl'\n\
         UPDATE caller SET role = 'clerk' WHERE name = 'carl'\n\
         2030-01-01 carl\n\
         list > Store\n\
         record 1 > Store\n\
         record 9 > NoSuch deposit\n\
         2030-01-01 anna\n\
         list > list: 1 2 3\n\
         due > due on 2030-01-01: 1",
    ),
    // These are steps: a part that compares what the tables hold can't show such a text.
    (
        "steps",
        "run|UPDATE rule_5 SET role = CAST(x'ff' AS TEXT) WHERE place = 3",
    ),
    ("asks altered", BESIDE_NO_UTF_8),
    (
        "steps",
        "run|UPDATE rule_5 SET role = 'clerk', action = CAST(x'ff' AS TEXT) WHERE place = 3",
    ),
    ("asks altered", BESIDE_NO_UTF_8),
    (
        "steps",
        "run|UPDATE rule_5 SET action = 'list', collection = CAST(x'ff' AS TEXT) WHERE place = 3",
    ),
    ("asks altered", BESIDE_NO_UTF_8),
    (
        "steps",
        "run|UPDATE rule_5 SET collection = '*', class = CAST(x'ff' AS TEXT) WHERE place = 3",
    ),
    ("asks altered", BESIDE_NO_UTF_8),
    (
        "steps",
        "run|UPDATE rule_5 SET class = 'y10' WHERE place = 3; UPDATE rule_5 SET collection = \
         CAST(x'ff' AS TEXT) WHERE place = 1",
    ),
    (
        "asks altered",
        "dispose 2 > Held 2\n\
         record 2 > record 2 A-2 tax y10 closed 2024-02-29 deposited 2024-03-01 due 2034-02-28 \
         files 1 bytes 3\n\
         list > Store\n\
         due > Store",
    ),
    (
        "steps",
        "run|UPDATE rule_5 SET collection = 'tax' WHERE place = 1\n\
         show|SELECT place, effect, role, action, collection, class, first, last FROM rule_5 ORDER \
         BY place > 1|0|archivist|dispose|tax|*|-25567|2859848;\
         2|1|archivist|*|*|*|-25567|2859848;3|1|clerk|list|*|y10|-25567|2859848;",
    ),
];

/// A hold names nothing, two things or three, or what isn't there; its days, its matter and its number are
/// none. The row of a hold that refuses a disposal is read, too; of the others that cover the deposit
/// only the day of release is, and a hold that names nothing covers none. The due list reads no hold:
/// holds are counted with the deposits.
pub(crate) static HOLDS: [Part; 15] = [
    (
        "",
        "UPDATE hold_4 SET deposit = NULL WHERE number = 1\n\
         UPDATE hold_4 SET deposit = 3 WHERE number = 1\n\
         release 1 > Store\n\
         release 3 > Released 2024-03-05\n\
         holds 2 > holds: 2 on collection placed 2024-03-02 for Case 7;\n\
         record 3 > record 3 A-3 maps y10 closed 2024-02-29 deposited 2024-03-01 due 2034-02-28 \
         files 1 bytes 3\n\
         2040-01-01 anna\n\
         dispose 3 > Store\n\
         due > due on 2040-01-01: 1",
    ),
    (
        "",
        "UPDATE hold_4 SET collection = 'tax' WHERE number = 1\n\
         UPDATE hold_4 SET collection = NULL WHERE number = 1\n\
         release 1 > Store\n\
         holds 3 > Store\n\
         holds 2 > Store\n\
         holds 1 > holds:\n\
         record 3 > record 3 A-3 maps y10 closed 2024-02-29 deposited 2024-03-01 due 2034-02-28 \
         files 1 bytes 3\n\
         2040-01-01 anna\n\
         dispose 3 > Store\n\
         due > due on 2040-01-01: 1",
    ),
    (
        "",
        "UPDATE hold_4 SET class = 'y10' WHERE number = 1\n\
         UPDATE hold_4 SET class = NULL WHERE number = 1\n\
         release 1 > Store\n\
         holds 3 > Store\n\
         holds 2 > Store\n\
         holds 1 > holds:\n\
         2040-01-01 anna\n\
         dispose 3 > Store\n\
         due > due on 2040-01-01: 1",
    ),
    (
        "",
        "UPDATE hold_4 SET class = 'y1' WHERE number = 2\n\
         UPDATE hold_4 SET class = NULL WHERE number = 2\n\
         release 2 > Store\n\
         holds 2 > Store\n\
         holds 1 > Store\n\
         holds 3 > holds: 1 on deposit placed 2024-03-02 for Case 7;\n\
         2024-03-05 anna\n\
         dispose 1 > NotDue 2025-02-28\n\
         2030-01-01 anna\n\
         due > due on 2030-01-01: 1",
    ),
    (
        "",
        "UPDATE hold_4 SET deposit = 2, class = 'y10' WHERE number = 2\n\
         UPDATE hold_4 SET deposit = NULL, class = NULL WHERE number = 2\n\
         release 2 > Store\n\
         holds 2 > Store\n\
         holds 3 > Store\n\
         2040-01-01 anna\n\
         dispose 3 > Held 1",
    ),
    (
        "",
        "UPDATE hold_4 SET deposit = NULL, class = 'z' WHERE number = 1\n\
         UPDATE hold_4 SET deposit = 3, class = NULL WHERE number = 1\n\
         release 1 > Store\n\
         holds 3 > holds:\n\
         2040-01-01 anna\n\
         dispose 3 > Store\n\
         due > due on 2040-01-01: 1",
    ),
    (
        "",
        "UPDATE hold_4 SET collection = NULL, class = 'y10' WHERE number = 2\n\
         UPDATE hold_4 SET collection = 'tax', class = NULL WHERE number = 2\n\
         holds 2 > holds: 2 on class placed 2024-03-02 for Case 7;\n\
         holds 3 > holds: 1 on deposit placed 2024-03-02 for Case 7; 2 on class placed \
         2024-03-02 for Case 7;\n\
         holds 1 > holds:\n\
         2040-01-01 anna\n\
         dispose 3 > Held 1\n\
         due > due on 2040-01-01: 1",
    ),
    (
        "",
        "UPDATE hold_4 SET deposit = 99 WHERE number = 1\n\
         UPDATE hold_4 SET deposit = 3 WHERE number = 1\n\
         release 1 > Store\n\
         holds 99 > NoSuch deposit\n\
         holds 2 > holds: 2 on collection placed 2024-03-02 for Case 7;",
    ),
    (
        "",
        "UPDATE hold_4 SET collection = 'seals' WHERE number = 2\n\
         UPDATE hold_4 SET collection = 'tax' WHERE number = 2\n\
         release 2 > Store\n\
         holds 2 > holds:",
    ),
    (
        "",
        "UPDATE hold_4 SET placed = 2859849 WHERE number = 1\n\
         UPDATE hold_4 SET placed = 19784 WHERE number = 1\n\
         holds 3 > Store\n\
         holds 1 > holds:\n\
         bag 3 > whole\n\
         release 1 > Store\n\
         2030-01-01 carl\n\
         release 1 > Denied default\n\
         2040-01-01 anna\n\
         dispose 3 > Store\n\
         due > due on 2040-01-01: 1",
    ),
    (
        "",
        "UPDATE hold_4 SET released = 2859849 WHERE number = 3\n\
         UPDATE hold_4 SET released = 19787 WHERE number = 3\n\
         release 3 > Store\n\
         2030-01-01 carl\n\
         release 2 > Denied default",
    ),
    (
        "",
        "UPDATE hold_4 SET released = 2859849 WHERE number = 1\n\
         UPDATE hold_4 SET released = NULL WHERE number = 1\n\
         holds 3 > Store\n\
         holds 1 > holds:\n\
         holds 2 > holds: 2 on collection placed 2024-03-02 for Case 7;\n\
         release 1 > Store\n\
         2040-01-01 anna\n\
         dispose 3 > Store\n\
         due > due on 2040-01-01: 1",
    ),
    (
        "",
        "UPDATE hold_4 SET released = -25568 WHERE number = 2\n\
         UPDATE hold_4 SET released = NULL WHERE number = 2\n\
         holds 2 > Store\n\
         holds 3 > holds: 1 on deposit placed 2024-03-02 for Case 7;\n\
         release 2 > Store\n\
         deposit tax y10 A-5 > Store",
    ),
    (
        "",
        "UPDATE hold_4 SET matter = '' WHERE number = 1\n\
         UPDATE hold_4 SET matter = 'Case 7' WHERE number = 1\n\
         holds 3 > Store\n\
         release 1 > Store\n\
         2040-01-01 anna\n\
         dispose 3 > Store\n\
         due > due on 2040-01-01: 1",
    ),
    (
        "",
        "UPDATE hold_4 SET number = -1 WHERE number = 1\n\
         UPDATE hold_4 SET number = 1 WHERE number = -1\n\
         holds 3 > Store\n\
         2040-01-01 anna\n\
         dispose 3 > Store\n\
         2030-01-01 anna\n\
         release 1 > NoSuch hold\n\
         holds 1 > holds:\n\
         2040-01-01 anna\n\
         due > due on 2040-01-01: 1",
    ),
];

/// A bag is served as deposited beside altered ones: the other deposit has the same files, and a
/// content is reused only where its bytes and its mark are the same. The stock is what the sizes of the
/// contents tell, where they are sizes. A deposit is taken in beside a hold that names two things.
pub(crate) static BESIDE: [&[Part]; 6] = [
    &[
        ("office", "1000000"),
        (
            "asks",
            "2024-03-01 anna\n\
             deposit maps y1 A-1 > deposit 1\n\
             deposit tax y10 A-2 > deposit 2",
        ),
        (
            "alters",
            "UPDATE content SET bytes = x'616264' WHERE id = 2",
        ),
        (
            "asks altered",
            "file 1 data/a > Store\n\
             bag 1 > Store\n\
             file 2 data/a > Store\n\
             bag 2 > Store\n\
             audit 1 > audit 1 invalid B17 manifest-sha256.txt data/a\n\
             audit 2 > audit 2 invalid B17 manifest-sha256.txt data/a\n\
             2024-03-01 anna\n\
             deposit maps y10 A-3 > deposit 3\n\
             bag 3 > whole\n\
             bag 1 > Store",
        ),
    ],
    // Content 2 has no bytes: it isn't found for those under its mark.
    &[
        ("office", "1000000"),
        (
            "asks",
            "2024-03-01 anna\n\
             deposit maps y1 A-1 > deposit 1\n\
             deposit tax y10 A-2 > deposit 2",
        ),
        ("alters", "UPDATE content SET bytes = x'' WHERE id = 2"),
        (
            "asks altered",
            "file 1 data/a > Store\n\
             bag 1 > Store\n\
             file 2 data/a > Store\n\
             bag 2 > Store\n\
             audit 1 > audit 1 invalid B17 manifest-sha256.txt data/a\n\
             audit 2 > audit 2 invalid B17 manifest-sha256.txt data/a\n\
             2024-03-01 anna\n\
             deposit maps y10 A-3 > deposit 3\n\
             bag 3 > whole\n\
             bag 1 > Store",
        ),
        (
            "steps",
            "show|SELECT id, size FROM content ORDER BY id > 1|54;2|3;3|73;4|3;",
        ),
    ],
    // Content 2 is under no mark of its own: it isn't found for the same bytes.
    &[
        ("office", "1000000"),
        (
            "asks",
            "2024-03-01 anna\n\
             deposit maps y1 A-1 > deposit 1",
        ),
        ("steps", "run|UPDATE content SET mark = x'00' WHERE id = 2"),
        ("found", "content 2 has a mark that isn't its digest"),
        (
            "asks altered",
            "2024-03-01 anna\n\
             deposit maps y10 A-3 > deposit 2\n\
             bag 2 > whole\n\
             audit 2 > audit 2 valid 1.0 files 1 bytes 3 manifests 1\n\
             file 1 data/a > Store\n\
             bag 1 > Store\n\
             audit 1 > audit 1 valid 1.0 files 1 bytes 3 manifests 1",
        ),
        (
            "steps",
            "show|SELECT id, size FROM content ORDER BY id > 1|54;2|3;3|73;4|3;",
        ),
        (
            "asks altered",
            "dispose 1 > destroyed 1 2030-01-01\n\
             bag 2 > whole",
        ),
        (
            "steps",
            "show|SELECT id, size FROM content ORDER BY id > 1|54;3|73;4|3;",
        ),
    ],
    // Content 1 is under the mark of the declaration of another version, and isn't taken for that.
    &[
        ("office", "1000000"),
        (
            "asks",
            "2024-03-01 anna\n\
             deposit maps y1 A-1 > deposit 1",
        ),
        (
            "steps",
            "run|UPDATE content SET mark = x'e91f941be5973ff71f1dccbdd1a32d598881893a7f21be516aca743da38b1689' WHERE id = 1",
        ),
        (
            "asks altered",
            "2024-03-01 anna\n\
             deposit maps y10 A-3 2024-02-29 0.97 > deposit 2\n\
             bag 2 > whole 0.97\n\
             file 1 data/a > file abc\n\
             bag 1 > Store",
        ),
        (
            "steps",
            "show|SELECT id, size FROM content ORDER BY id > 1|54;2|3;3|73;4|55;",
        ),
    ],
    // Sizes that are others, and one that is none.
    &[
        ("office", "1000000"),
        (
            "asks",
            "2024-03-01 anna\n\
             deposit maps y1 A-1 > deposit 1",
        ),
        ("alters", "UPDATE content SET size = 5 WHERE id = 2"),
        ("found", "content 2 has another size"),
        ("stock", "3 contents, 132 bytes"),
        ("alters", "UPDATE content SET size = -1 WHERE id = 2"),
        ("stock", "Q4"),
        ("asks altered", "bag 1 > whole"),
        ("alters", "UPDATE content SET size = 3 WHERE id = 2"),
        ("stock", "3 contents, 130 bytes"),
    ],
    // A hold that names a collection and a class counts once on a deposit that comes later.
    &[
        ("office", "1000000"),
        (
            "asks",
            "2024-03-01 anna\n\
             deposit maps y1 A-1 > deposit 1\n\
             hold-all maps > hold 1",
        ),
        ("alters", "UPDATE hold_4 SET class = 'y1' WHERE number = 1"),
        (
            "asks altered",
            "2024-03-01 anna\n\
             deposit maps y1 A-2 > deposit 2\n\
             holds 2 > Store\n\
             2030-01-01 anna\n\
             dispose 2 > Store",
        ),
        (
            "steps",
            "show|SELECT number, holds FROM deposit ORDER BY number > 1|1;2|1;",
        ),
    ],
];

/// What a look at the tables after a request finds: each of what is stored beside the rows, where it is
/// another.
pub(crate) static FOUND: [Part; 21] = [
    ("office", "1000000"),
    (
        "asks",
        "2024-03-01 anna\n\
         deposit maps y1 A-1 > deposit 1\n\
         deposit tax y1 A-2 > deposit 2\n\
         hold-all tax > hold 1\n\
         keep y10 > class y10 permanent\n\
         hold-class y10 > hold 2\n\
         deposit tax y10 A-3 > deposit 3\n\
         2025-02-28 anna\n\
         dispose 1 > destroyed 1 2025-02-28",
    ),
    ("alters", "UPDATE deposit SET holds = 1 WHERE number = 3"),
    ("found", "deposit 3 has another count of holds"),
    ("alters", "UPDATE deposit SET holds = 2 WHERE number = 3"),
    ("alters", "UPDATE deposit SET due = 20148 WHERE number = 1"),
    ("found", "deposit 1 has another due day"),
    ("alters", "UPDATE deposit SET due = 20147 WHERE number = 1"),
    ("found", ""),
    ("alters", "UPDATE deposit SET due = 20147 WHERE number = 3"),
    ("found", "deposit 3 has another due day"),
    ("alters", "UPDATE deposit SET due = NULL WHERE number = 3"),
    ("alters", "UPDATE deposit SET holds = 0 WHERE number = 2"),
    ("found", "deposit 2 has another count of holds"),
    ("alters", "UPDATE hold_4 SET released = 19783"),
    ("found", "deposit 3 has another count of holds"),
    ("alters", "UPDATE deposit SET holds = 0 WHERE number = 3"),
    (
        "alters",
        "INSERT INTO content (id, mark, size, bytes) SELECT 9, mark, size, bytes FROM content \
         WHERE id = 2; UPDATE file SET content = 9 WHERE deposit = 3 AND path = 'data/a'",
    ),
    ("found", "content 9 has the bytes of another"),
    (
        "alters",
        "UPDATE content SET bytes = x'00', size = 1, mark = \
         x'6e340b9cffb37a989ca544e6bb780a2c78901d3fb33738768511a30617afa01d' WHERE id = 9; UPDATE \
         file SET content = 2 WHERE content = 9",
    ),
    ("found", "content 9 has no file"),
];

/// Which databases are taken for an office: none that is empty, has no row of an office, has one of
/// another version, or limits that no office has. Nothing is lost of what the office held.
pub(crate) static OPENINGS: [Part; 13] = [
    ("refused", "Q1"),
    ("office", "1000000"),
    (
        "Q1",
        "DELETE FROM office\n\
         INSERT INTO office (id, version, max_deposits, max_holds) VALUES (1, 5, 1000000, \
         1000000)",
    ),
    (
        "Q2",
        "UPDATE office SET version = 9\n\
         UPDATE office SET version = 5",
    ),
    (
        "Q2",
        "UPDATE office SET version = 4\n\
         UPDATE office SET version = 5",
    ),
    (
        "Q2",
        "UPDATE office SET version = 3\n\
         UPDATE office SET version = 5",
    ),
    (
        "Q2",
        "UPDATE office SET version = 2\n\
         UPDATE office SET version = 5",
    ),
    (
        "Q2",
        "UPDATE office SET version = 1\n\
         UPDATE office SET version = 5",
    ),
    (
        "Q2",
        "UPDATE office SET version = 0\n\
         UPDATE office SET version = 5",
    ),
    (
        "Q1",
        "UPDATE office SET max_deposits = 0\n\
         UPDATE office SET max_deposits = 1000000",
    ),
    (
        "Q1",
        "UPDATE office SET max_holds = 1000001\n\
         UPDATE office SET max_holds = 1000000",
    ),
    ("alters", "UPDATE class SET years = 2 WHERE name = 'y1'"),
    (
        "asks",
        "2024-03-01 anna\n\
         hold-all maps > hold 1\n\
         hold-all seals > NoSuch collection",
    ),
];
