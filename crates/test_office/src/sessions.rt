//! Sessions with an office, worked out by hand from `docs/OFFICE.md`.

use crate::parts::Part;

/// What rules, holds and dates decide.
pub(crate) static DECIDING: [&[Part]; 12] = [
    // A file is served at its own path alone.
    &[
        ("office", "1000000"),
        (
            "asks",
            "2024-03-01 anna\n\
             deposit maps y1 A-1 2024-02-29 percent > deposit 1\n\
             file 1 data/a%0Ab > file abc\n\
             file 1 data/b > NoFile\n\
             2024-03-01 carl\n\
             file 1 data/a%0Ab > Denied default\n\
             2024-03-01 anna\n\
             file 2 data/b > NoSuch deposit",
        ),
        ("stock", "3 contents, 136 bytes"),
    ],
    // A disposal asks the rules, then holds, then the date.
    &[
        ("office", "1000000"),
        (
            "asks",
            "2024-03-01 anna\n\
             deposit tax y1 A-1 > deposit 1\n\
             deposit maps y1 A-2 > deposit 2\n\
             hold 1 > hold 1\n\
             hold 2 > hold 2\n\
             2024-03-05 anna\n\
             dispose 1 > Denied rule 1\n\
             dispose 2 > Held 2\n\
             release 2 > released 2 2024-03-05\n\
             dispose 2 > NotDue 2025-02-28\n\
             class y1 0 > class y1 0\n\
             dispose 2 > destroyed 2 2024-03-05\n\
             dispose 2 > Gone 2024-03-05\n\
             2024-03-05 eve\n\
             dispose 9 > NoSuch deposit\n\
             release 2 > Denied default\n\
             2024-03-05 anna\n\
             release 2 > Released 2024-03-05",
        ),
        ("stock", "3 contents, 130 bytes"),
    ],
    // What is absent is said first, and what is denied next.
    &[
        ("office", "1000000"),
        (
            "asks",
            "2024-03-01 anna\n\
             deposit maps y1 A-1 > deposit 1\n\
             hold 1 > hold 1\n\
             2024-03-05 eve\n\
             dispose 9 > NoSuch deposit\n\
             2024-03-05 anna\n\
             release 1 > released 1 2024-03-05\n\
             2024-03-05 eve\n\
             release 1 > Denied default\n\
             2024-03-05 anna\n\
             release 1 > Released 2024-03-05\n\
             hold-all x > NoSuch collection\n\
             hold-class x > NoSuch class\n\
             2024-03-05 eve\n\
             hold-class x > NoSuch class\n\
             hold-class y1 > Denied default",
        ),
        ("stock", "3 contents, 130 bytes"),
    ],
    // Records, audits and holds are told to whom the rules allow.
    &[
        ("office", "1000000"),
        (
            "asks",
            "2024-03-01 anna\n\
             deposit maps y1 A-1 > deposit 1\n\
             record 1 > record 1 A-1 maps y1 closed 2024-02-29 deposited 2024-03-01 due \
             2025-02-28 files 1 bytes 3\n\
             audit 1 > audit 1 valid 1.0 files 1 bytes 3 manifests 1\n\
             holds 1 > holds:\n\
             2024-03-01 carl\n\
             record 1 > Denied default\n\
             audit 1 > Denied default\n\
             holds 1 > Denied default\n\
             2024-03-01 anna\n\
             list-of x > list:\n\
             2024-03-02 anna\n\
             hold-all maps > hold 1\n\
             holds 1 > holds: 1 on collection placed 2024-03-02 for Case 7;",
        ),
        ("stock", "3 contents, 130 bytes"),
    ],
    // Due lists follow holds, disposals and years.
    &[
        ("office", "1000000"),
        (
            "asks",
            "2024-03-01 anna\n\
             deposit maps y1 A-1 > deposit 1\n\
             deposit maps y1 A-2 > deposit 2\n\
             hold 2 > hold 1\n\
             hold-all maps > hold 2\n\
             2025-02-28 anna\n\
             due > due on 2025-02-28:\n\
             2024-03-01 anna\n\
             release 2 > released 2 2024-03-01\n\
             2025-02-28 anna\n\
             due > due on 2025-02-28: 1\n\
             2024-03-01 anna\n\
             release 1 > released 1 2024-03-01\n\
             2025-02-28 anna\n\
             due > due on 2025-02-28: 1 2",
        ),
        (
            "asks",
            "2025-02-27 anna\n\
             due > due on 2025-02-27:",
        ),
        (
            "asks",
            "2025-02-27 anna\n\
             due > due on 2025-02-27:\n\
             2025-02-28 anna\n\
             dispose 1 > destroyed 1 2025-02-28\n\
             due > due on 2025-02-28: 2\n\
             keep y1 > class y1 permanent\n\
             due > due on 2025-02-28:\n\
             class y1 1 > class y1 1\n\
             due > due on 2025-02-28: 2",
        ),
        // It rests on the due day that is stored: 20512 is 2026-02-28.
        ("alters", "UPDATE deposit SET due = 20512 WHERE number = 2"),
        (
            "asks altered",
            "2025-02-28 anna\n\
             due > due on 2025-02-28:",
        ),
        ("stock", "3 contents, 130 bytes"),
    ],
    // Years that change, and holds, on deposits that are destroyed, too; what comes later is covered.
    &[
        ("office", "1000000"),
        (
            "asks",
            "2024-03-01 anna\n\
             deposit maps y1 A-1 > deposit 1\n\
             deposit tax y1 A-2 2023-02-28 > deposit 2\n\
             deposit maps y10 A-3 > deposit 3\n\
             class y1 0 > class y1 0\n\
             dispose 1 > destroyed 1 2024-03-01\n\
             class y1 4 > class y1 4\n\
             hold-all maps > hold 1\n\
             hold-all maps > hold 2\n\
             hold 3 > hold 3\n\
             deposit maps y1 A-4 > deposit 4\n\
             release 1 > released 1 2024-03-01\n\
             keep y1 > class y1 permanent\n\
             hold-all tax > hold 4\n\
             release 3 > released 3 2024-03-01\n\
             class y1 200 > class y1 200\n\
             record 2 > record 2 A-2 tax y1 closed 2023-02-28 deposited 2024-03-01 due 2223-02-28 \
             files 1 bytes 3",
        ),
        ("stock", "3 contents, 130 bytes"),
    ],
    // The rules decide lists and due lists.
    &[
        ("office", "1000000"),
        (
            "asks",
            "2024-03-01 anna\n\
             deposit maps y10 A-1 > deposit 1\n\
             deposit tax y10 A-2 > deposit 2\n\
             deposit maps y1 A-3 > deposit 3\n\
             2024-03-01 carl\n\
             list > list: 1 2\n\
             2024-03-01 anna\n\
             list-of maps > list: 1 3\n\
             list-class y10 > list: 1 2\n\
             2024-03-05 anna\n\
             due > due on 2024-03-05:\n\
             class y10 0 > class y10 0\n\
             due > due on 2024-03-05: 1",
        ),
        ("stock", "3 contents, 130 bytes"),
    ],
    // A hold of a class covers what comes later, too; of the live holds the least is named.
    &[
        ("office", "1000000"),
        (
            "asks",
            "2024-03-02 anna\n\
             hold-class y1 > hold 1\n\
             2024-03-03 anna\n\
             deposit maps y1 A-1 > deposit 1\n\
             holds 1 > holds: 1 on class placed 2024-03-02 for Case 7;\n\
             hold-all maps > hold 2\n\
             2030-01-01 anna\n\
             dispose 1 > Held 1\n\
             2030-01-02 anna\n\
             release 1 > released 1 2030-01-02\n\
             dispose 1 > Held 2\n\
             hold-class z > NoSuch class",
        ),
        ("stock", "3 contents, 130 bytes"),
    ],
    // A hold of a class counts beside one of the collection and one of the deposit.
    &[
        ("office", "1000000"),
        (
            "asks",
            "2024-03-01 anna\n\
             deposit maps y1 A-1 > deposit 1\n\
             deposit tax y10 A-2 > deposit 2\n\
             hold-class y1 > hold 1\n\
             hold-class y10 > hold 2\n\
             hold-all maps > hold 3\n\
             deposit maps y1 A-3 > deposit 3\n\
             deposit maps y10 A-4 > deposit 4\n\
             deposit tax y1 A-5 > deposit 5\n\
             hold 4 > hold 4\n\
             holds 4 > holds: 2 on class placed 2024-03-01 for Case 7; 3 on collection placed \
             2024-03-01 for Case 7; 4 on deposit placed 2024-03-01 for Case 7;",
        ),
        (
            "asks",
            "due > due on 2030-01-01:\n\
             dispose 3 > Held 1\n\
             dispose 5 > Denied rule 1\n\
             release 1 > released 1 2030-01-01\n\
             dispose 3 > Held 3\n\
             due > due on 2030-01-01:\n\
             release 3 > released 3 2030-01-01\n\
             due > due on 2030-01-01: 1 3\n\
             dispose 3 > destroyed 3 2030-01-01\n\
             hold-class y1 > hold 5\n\
             due > due on 2030-01-01:\n\
             release 5 > released 5 2030-01-01\n\
             release 1 > Released 2030-01-01\n\
             due > due on 2030-01-01: 1",
        ),
        ("stock", "3 contents, 130 bytes"),
    ],
    // The rules are asked for a hold of a class, and for its release, with the class alone.
    &[
        ("office", "1000000"),
        (
            "asks",
            "2024-03-01 anna\n\
             deposit maps y1 A-1 > deposit 1\n\
             hold-class y1 > hold 1\n\
             hold-all maps > hold 2",
        ),
        ("policy", "y1 stays as it is held"),
        (
            "asks",
            "2024-03-02 anna\n\
             hold-class y1 > Denied rule 1\n\
             hold-class y10 > hold 3\n\
             hold-all maps > hold 4\n\
             hold 1 > Denied rule 1\n\
             release 1 > Denied rule 2\n\
             release 2 > released 2 2024-03-02\n\
             release 3 > released 3 2024-03-02\n\
             holds 1 > holds: 1 on class placed 2024-03-01 for Case 7; 4 on collection placed \
             2024-03-02 for Case 7;",
        ),
        ("stock", "3 contents, 130 bytes"),
    ],
    // A rule counts up to its last day; a due list and a disposal are asked on theirs.
    &[
        ("office", "1000000"),
        ("policy", "nothing of tax is destroyed in 2024"),
        (
            "asks",
            "2024-03-01 anna\n\
             deposit tax y10 A-1 > deposit 1\n\
             class y10 0 > class y10 0\n\
             2024-12-31 anna\n\
             due > due on 2024-12-31:\n\
             2025-01-01 anna\n\
             due > due on 2025-01-01: 1",
        ),
        (
            "asks",
            "2025-01-01 anna\n\
             due > due on 2025-01-01: 1\n\
             2024-12-31 anna\n\
             dispose 1 > Denied rule 1\n\
             due > due on 2024-12-31:",
        ),
        (
            "asks",
            "2025-01-01 anna\n\
             dispose 1 > destroyed 1 2025-01-01",
        ),
        ("stock", "0 contents, 0 bytes"),
    ],
    // A rule counts from its first day to its last; a list is asked on its day.
    &[
        ("office", "1000000"),
        ("policy", "lists in January 2025"),
        (
            "asks",
            "2024-03-01 anna\n\
             deposit maps y10 A-1 > deposit 1\n\
             2024-12-31 carl\n\
             list > list:\n\
             2025-01-01 carl\n\
             list > list: 1\n\
             record 1 > Denied default\n\
             2025-01-31 carl\n\
             list > list: 1\n\
             2025-02-01 carl\n\
             list > list:\n\
             2025-02-01 anna\n\
             list > list: 1",
        ),
        ("stock", "3 contents, 130 bytes"),
    ],
];

/// What is deposited, kept and listed.
pub(crate) static KEEPING: [&[Part]; 6] = [
    // A deposit is destroyed from its due day on.
    &[
        ("office", "1000000"),
        (
            "asks",
            "2024-03-01 anna\n\
             deposit maps y1 A-1 > deposit 1\n\
             2025-02-27 anna\n\
             dispose 1 > NotDue 2025-02-28\n\
             2025-02-28 anna\n\
             dispose 1 > destroyed 1 2025-02-28\n\
             dispose 1 > Gone 2025-02-28",
        ),
        ("stock", "0 contents, 0 bytes"),
    ],
    // A hold of a collection covers what comes later.
    &[
        ("office", "1000000"),
        (
            "asks",
            "2024-03-02 anna\n\
             hold-all maps > hold 1\n\
             2024-03-03 anna\n\
             deposit maps y1 A-1 > deposit 1\n\
             2030-01-01 anna\n\
             dispose 1 > Held 1\n\
             hold 1 > hold 2\n\
             2030-01-02 anna\n\
             release 1 > released 1 2030-01-02\n\
             dispose 1 > Held 2\n\
             2030-01-03 anna\n\
             release 2 > released 2 2030-01-03\n\
             dispose 1 > destroyed 1 2030-01-03\n\
             hold 1 > Gone 2030-01-03\n\
             release 2 > Released 2030-01-03",
        ),
        ("stock", "0 contents, 0 bytes"),
    ],
    // An accession is used once.
    &[
        ("office", "1000000"),
        (
            "asks",
            "2024-03-01 anna\n\
             deposit maps y1 A-1 > deposit 1\n\
             deposit maps y1 A-1 > Taken 1\n\
             deposit maps y1 A-1 2024-02-29 nothing > Taken 1\n\
             deposit maps y1 A-2 2024-02-29 nothing > BadBag S3\n\
             2025-02-28 anna\n\
             dispose 1 > destroyed 1 2025-02-28\n\
             deposit maps y1 A-1 > Taken 1\n\
             deposit maps y1 A-1 2024-02-29 nothing > Taken 1\n\
             deposit maps y1 A-2 2024-02-29 nothing > BadBag S3",
        ),
        ("stock", "0 contents, 0 bytes"),
    ],
    // Records are closed before they come.
    &[
        ("office", "1000000"),
        (
            "asks",
            "2024-03-01 anna\n\
             deposit maps y1 A-1 2024-03-02 > ClosedAhead",
        ),
        ("stock", "0 contents, 0 bytes"),
    ],
    // The first refusal of each request is answered.
    &[
        ("office", "1000000"),
        (
            "asks",
            "2024-03-01 anna\n\
             deposit maps y1 A-1 > deposit 1\n\
             deposit x z A-2 > NoSuch collection\n\
             deposit maps z A-2 > NoSuch class\n\
             deposit maps y1 A-1 2024-03-02 > Taken 1\n\
             2024-03-01 eve\n\
             deposit maps y1 A-1 2024-03-02 > Denied default",
        ),
        ("stock", "3 contents, 130 bytes"),
    ],
    // A full office takes no more.
    &[
        ("office", "1"),
        (
            "asks",
            "2024-03-01 anna\n\
             deposit maps y1 A-1 > deposit 1\n\
             deposit maps y1 A-2 > Full\n\
             deposit maps y1 A-2 2024-02-29 nothing > BadBag S3\n\
             hold 1 > hold 1\n\
             hold-all maps > Full\n\
             hold-class y1 > Full\n\
             release 1 > released 1 2024-03-01\n\
             hold 1 > Full",
        ),
        ("stock", "3 contents, 130 bytes"),
    ],
];

/// A content counts once, and while it is stored.
pub(crate) static CONTENTS: [&[Part]; 3] = [
    // Two bags have two of their files alike.
    &[
        ("office", "1000000"),
        ("stock", "0 contents, 0 bytes"),
        (
            "asks",
            "2024-03-01 anna\n\
             deposit maps y1 A-1 > deposit 1\n\
             deposit maps y1 A-2 2024-02-29 0.97 > deposit 2",
        ),
        ("stock", "4 contents, 185 bytes"),
        (
            "asks",
            "dispose 1 > destroyed 1 2030-01-01\n\
             bag 2 > whole 0.97",
        ),
        ("stock", "3 contents, 131 bytes"),
        ("asks", "dispose 2 > destroyed 2 2030-01-01"),
        ("stock", "0 contents, 0 bytes"),
    ],
    // A content of no byte counts, too.
    &[
        ("office", "1000000"),
        (
            "asks",
            "2024-03-01 anna\n\
             deposit maps y1 A-1 2024-02-29 empty > deposit 1\n\
             audit 1 > audit 1 valid 1.0 files 0 bytes 0 manifests 2",
        ),
        ("stock", "3 contents, 140 bytes"),
    ],
    // The same bag again is no further content, and goes with the last deposit that has it.
    &[
        ("office", "1000000"),
        (
            "asks",
            "2024-03-01 anna\n\
             deposit maps y1 A-1 > deposit 1\n\
             deposit maps y1 A-2 > deposit 2\n\
             deposit maps y10 A-3 > deposit 3",
        ),
        ("stock", "3 contents, 130 bytes"),
        (
            "asks",
            "dispose 2 > destroyed 2 2030-01-01\n\
             bag 1 > whole\n\
             dispose 1 > destroyed 1 2030-01-01\n\
             bag 3 > whole",
        ),
        ("stock", "3 contents, 130 bytes"),
        (
            "asks",
            "class y10 0 > class y10 0\n\
             dispose 3 > destroyed 3 2030-01-01",
        ),
        ("stock", "0 contents, 0 bytes"),
        (
            "asks",
            "2024-03-01 anna\n\
             deposit maps y10 A-4 > deposit 4\n\
             bag 4 > whole",
        ),
        ("stock", "3 contents, 130 bytes"),
    ],
];
