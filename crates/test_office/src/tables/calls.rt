//! Each call once, where what it wrote is there when the files are opened again.

use crate::parts::Part;

/// Each call once.
pub(crate) static CALLS: [&[Part]; 11] = [
    // An office lasts.
    &[
        (
            "steps",
            "open > Q1\n\
             create",
        ),
        (
            "steps",
            "open\n\
             read|limits > OfficeLimits { max_deposits: 10, max_holds: 20 }\n\
             held > 1|5|10|20;--;--;--;--;--;--;--;--;--;\n\
             create > Q4\n\
             open",
        ),
    ],
    // Classes and collections last.
    &[
        (
            "steps",
            "create\n\
             do|class|y2|2\n\
             do|class|kept|-1\n\
             do|class|y2|3\n\
             do|collection|maps\n\
             do|collection|maps",
        ),
        (
            "steps",
            "read|years|y2 > Some(3)\n\
             read|years|kept > Some(-1)\n\
             read|collection|maps > true\n\
             held > 1|5|10|20;--;--;--;kept|-1;y2|3;--;maps;--;--;--;--;--;",
        ),
    ],
    // A policy lasts.
    &[
        (
            "steps",
            "create\n\
             do|policy|ada keeper|3 0 keeper list * y2\n\
             do|policy|ben reader,cy reader|7 1 * list * y2,1 0 keeper list * y2",
        ),
        (
            "steps",
            "read|role|ben > Some(\"reader\")\n\
             read|role|ada > None\n\
             read|rules > [RuleRow { place: 1, effect: 0, role: \"keeper\", action: \"list\", \
             collection: \"*\", class: \"y2\", first: -25567, last: 2859848 }, RuleRow { place: 7, effect: 1, role: \"*\", \
             action: \"list\", collection: \"*\", class: \"y2\", first: -25567, last: 2859848 }]\n\
             held > 1|5|10|20;--;ben|reader;cy|reader;--;1|0|keeper|list|*|y2|-25567|2859848;\
             7|1|*|list|*|y2|-25567|2859848;--;\
             --;--;--;--;--;--;",
        ),
    ],
    // Deposits last.
    &[
        (
            "steps",
            "create\n\
             do|class|y2|2\n\
             do|collection|maps\n\
             do|deposit|1|2026/1|maps|y2\n\
             do|deposit|9|2026/9|maps|y2\n\
             do|deposit|4|2026/4|maps|y2\n\
             do|gone|4|900",
        ),
        (
            "steps",
            "read|last deposit > Some(9)\n\
             read|deposit|4 > Some(DepositRow { number: 4, accession: \"2026/4\", collection: \
             \"maps\", class: \"y2\", closed: 10, deposited: 11, files: 2, bytes: 300, gone: \
             Some(900) })\n\
             read|accession|2026/9 > Some(DepositRow { number: 9, accession: \"2026/9\", \
             collection: \"maps\", class: \"y2\", closed: 10, deposited: 11, files: 2, bytes: \
             300, gone: None })\n\
             read|deposits > [DepositRow { number: 1, accession: \"2026/1\", collection: \
             \"maps\", class: \"y2\", closed: 10, deposited: 11, files: 2, bytes: 300, gone: \
             None }, DepositRow { number: 4, accession: \"2026/4\", collection: \"maps\", class: \
             \"y2\", closed: 10, deposited: 11, files: 2, bytes: 300, gone: Some(900) }, \
             DepositRow { number: 9, accession: \"2026/9\", collection: \"maps\", class: \"y2\", \
             closed: 10, deposited: 11, files: 2, bytes: 300, gone: None }]\n\
             held > 1|5|10|20;--;--;--;y2|2;--;maps;--;1|2026/1|maps|y2|10|11|2|300|||0;\
             4|2026/4|maps|y2|10|11|2|300|900||0;9|2026/9|maps|y2|10|11|2|300|||0;--;--;--;--;",
        ),
    ],
    // Deposits last that are put with a due day and a count of holds.
    &[
        (
            "steps",
            "create\n\
             do|class|y2|2;class|kept|-1;collection|maps;collection|tax\n\
             do|deposit and due|9|2026/9|maps|y2|740|2\n\
             do|deposit and due|4|2026/4|tax|kept||1\n\
             do|deposit and due|6|2026/6|tax|y2|739|0",
        ),
        (
            "steps",
            "read|due|9 > Some(DueRow { number: 9, due: Some(740), holds: 2 })\n\
             read|due|4 > Some(DueRow { number: 4, due: None, holds: 1 })\n\
             read|deposit|9 > Some(DepositRow { number: 9, accession: \"2026/9\", collection: \
             \"maps\", class: \"y2\", closed: 10, deposited: 11, files: 2, bytes: 300, gone: None })\n\
             read|due rows|740 > [DisposableRow { number: 6, collection: \"tax\", class: \"y2\", due: \
             Some(739) }]\n\
             held > 1|5|10|20;--;--;--;kept|-1;y2|2;--;maps;tax;--;\
             4|2026/4|tax|kept|10|11|2|300|||1;6|2026/6|tax|y2|10|11|2|300||739|0;\
             9|2026/9|maps|y2|10|11|2|300||740|2;--;--;--;--;",
        ),
    ],
    // Files last.
    &[
        (
            "steps",
            "create\n\
             do|file|2|data/b|bb\n\
             do|file|2|bagit.txt|text\n\
             do|file|1|data/b|one\n\
             do|file|3|data/b|three\n\
             do|drop files|3",
        ),
        (
            "steps",
            "read|content|2|data/b > Some([98, 98])\n\
             read|intact content|2|data/b > Some([98, 98])\n\
             read|intact content|2|data/c > None\n\
             read|intact files|1 > [FileRow { deposit: 1, path: \"data/b\", content: [111, 110, 101] }]\n\
             read|intact files|3 > []\n\
             read|files|2 > [FileRow { deposit: 2, path: \"bagit.txt\", content: [116, 101, 120, \
             116] }, FileRow { deposit: 2, path: \"data/b\", content: [98, 98] }]\n\
             held > 1|5|10|20;--;--;--;--;--;--;1|data/b|3|one;2|bagit.txt|2|text;2|data/b|1|bb;--;--;\
             1|3B64DB95CB55C763391C707108489AE18B4112D783300DE38E033B4C98C3DEAF|2;\
             2|982D9E3EB996F559E633F4D194DEF3761D909F5A3B647D1A851FEAD67C32C9D1|4;\
             3|7692C3AD3540BB803C020B3AEE66CD8887123234EA0C6E7143C0ADD73FF431ED|3;--;",
        ),
    ],
    // Holds last.
    &[
        (
            "steps",
            "create\n\
             do|hold on deposit|1|7|tax 1\n\
             do|hold on collection|2|maps|suit\n\
             do|hold on deposit|5|8|audit\n\
             do|hold on deposit|3|7|audit\n\
             do|hold on class|7|y2|suit\n\
             do|end hold|1|150",
        ),
        (
            "steps",
            "read|last hold > Some(7)\n\
             read|live holds|7|maps|y2 > [2, 3, 7]\n\
             read|live holds|7|maps|y9 > [2, 3]\n\
             read|live holds|8|plans|y9 > [5]\n\
             read|live holds|9|plans|y2 > [7]\n\
             read|released outside|7|plans|y9 > true\n\
             read|released outside|8|maps|y2 > false\n\
             read|hold|1 > Some(HoldRow { number: 1, deposit: Some(7), collection: None, class: \
             None, matter: \"tax 1\", placed: 100, released: Some(150) })\n\
             read|hold|7 > Some(HoldRow { number: 7, deposit: None, collection: None, class: \
             Some(\"y2\"), matter: \"suit\", placed: 100, released: None })\n\
             held > 1|5|10|20;--;--;--;--;--;--;--;1|7|||tax 1|100|150;2||maps||suit|100|;\
             3|7|||audit|100|;5|8|||audit|100|;7|||y2|suit|100|;--;--;",
        ),
        (
            "steps",
            "do|end hold|7|90\n\
             read|live holds|7|maps|y2 > [2, 3]\n\
             read|released outside|9|plans|y2 > true\n\
             read|released outside|9|plans|y9 > false",
        ),
    ],
    // Contents of one mark are side by side, each with its own bytes.
    &[
        (
            "steps",
            "create\n\
             do|class|y2|2;collection|maps;deposit|1|2026/1|maps|y2;deposit|2|2026/2|maps|y2\n\
             do|marked|1|data/a|m|abc\n\
             do|marked|1|data/b|m|abd\n\
             do|marked|2|data/c|m|abc\n\
             do|marked|2|data/c|m|abd > Q4",
        ),
        (
            "steps",
            "read|contents > [ContentSize { id: 1, size: 3 }, ContentSize { id: 2, size: 3 }]\n\
             read|content|1|data/a > Some([97, 98, 99])\n\
             read|content|1|data/b > Some([97, 98, 100])\n\
             read|content|2|data/c > Some([97, 98, 99])\n\
             read|intact content|1|data/a > Q4\n\
             read|intact files|2 > Q4\n\
             do|drop files|1\n\
             read|contents > [ContentSize { id: 1, size: 3 }]\n\
             read|content|1|data/a > None\n\
             read|content|2|data/c > Some([97, 98, 99])\n\
             do|drop files|2\n\
             read|contents > []",
        ),
    ],
    // A content that another program left without a file stays where files are dropped, its own deposit's too.
    &[
        (
            "steps",
            "create\n\
             do|file|1|data/a|abc\n\
             do|file|3|data/c|one\n\
             do|file|2|data/b|bb\n\
             run|DELETE FROM file WHERE deposit = 3\n\
             do|drop files|1\n\
             do|drop files|3\n\
             held > 1|5|10|20;--;--;--;--;--;--;2|data/b|3|bb;--;--;\
             2|7692C3AD3540BB803C020B3AEE66CD8887123234EA0C6E7143C0ADD73FF431ED|3;\
             3|3B64DB95CB55C763391C707108489AE18B4112D783300DE38E033B4C98C3DEAF|2;--;",
        ),
        (
            "steps",
            "do|drop files|2\n\
             read|contents > [ContentSize { id: 2, size: 3 }]",
        ),
    ],
    // Due days and counts of holds last.
    &[
        (
            "steps",
            "create\n\
             do|class|y2|2;class|kept|-1;collection|maps;collection|tax\n\
             do|deposit|1|2026/1|maps|y2;deposit|2|2026/2|tax|y2;deposit|3|2026/3|maps|y2\n\
             do|deposit|4|2026/4|maps|kept;deposit|5|2026/5|maps|y2\n\
             do|due|1|740;due|2|741;due|3|740;due|4|9;due|5|739;holds|2|1;holds|3|2\n\
             do|due|4|\n\
             do|more holds|maps|3\n\
             do|more holds|maps|-3\n\
             do|more holds of class|y2|4\n\
             do|more holds of class|y2|-4\n\
             do|holds|2|0\n\
             do|gone|5|800",
        ),
        (
            "steps",
            "read|due|1 > Some(DueRow { number: 1, due: Some(740), holds: 0 })\n\
             read|due|3 > Some(DueRow { number: 3, due: Some(740), holds: 2 })\n\
             read|due|4 > Some(DueRow { number: 4, due: None, holds: 0 })\n\
             read|due|9 > None\n\
             read|due rows|739 > []\n\
             read|due rows|740 > [DisposableRow { number: 1, collection: \"maps\", class: \"y2\", due: \
             Some(740) }]\n\
             read|due rows|741 > [DisposableRow { number: 1, collection: \"maps\", class: \"y2\", due: \
             Some(740) }, DisposableRow { number: 2, collection: \"tax\", class: \"y2\", due: Some(741) \
             }]\n\
             read|closings|y2 > [ClosingRow { number: 1, closed: 10 }, ClosingRow { number: 2, \
             closed: 10 }, ClosingRow { number: 3, closed: 10 }, ClosingRow { number: 5, closed: \
             10 }]\n\
             read|closings|Y2 > []",
        ),
        (
            "steps",
            "do|more holds|maps|2\n\
             do|more holds|plans|2\n\
             do|more holds of class|kept|2\n\
             do|more holds of class|y9|2\n\
             do|due|1|;due|9|5;holds|9|5\n\
             read|due|1 > Some(DueRow { number: 1, due: None, holds: 2 })\n\
             read|due|2 > Some(DueRow { number: 2, due: Some(741), holds: 0 })\n\
             read|due|3 > Some(DueRow { number: 3, due: Some(740), holds: 4 })\n\
             read|due|4 > Some(DueRow { number: 4, due: None, holds: 4 })\n\
             read|due|5 > Some(DueRow { number: 5, due: Some(739), holds: 2 })\n\
             read|due rows|741 > [DisposableRow { number: 2, collection: \"tax\", class: \"y2\", due: \
             Some(741) }]\n\
             do|drop files|1",
        ),
        // Those from the first number to the last, and none where the last is lower.
        (
            "steps",
            "do|dues|2|4|742\n\
             do|dues|5|9|\n\
             do|dues|2|1|9\n\
             read|due|1 > Some(DueRow { number: 1, due: None, holds: 2 })\n\
             read|due|2 > Some(DueRow { number: 2, due: Some(742), holds: 0 })\n\
             read|due|3 > Some(DueRow { number: 3, due: Some(742), holds: 4 })\n\
             read|due|4 > Some(DueRow { number: 4, due: Some(742), holds: 4 })\n\
             read|due|5 > Some(DueRow { number: 5, due: None, holds: 2 })",
        ),
    ],
    // The rule of the least place that fits on the day decides; a name that is absent fits `*` alone.
    &[(
        "steps",
        "create\n\
         do|policy|anna archivist,carl clerk|3 1 clerk list * y10,2 1 archivist * * *,1 0 archivist \
         dispose tax *\n\
         read|rule|archivist|dispose|tax|y1 > Some(RuleRow { place: 1, effect: 0, role: \
         \"archivist\", action: \"dispose\", collection: \"tax\", class: \"*\", first: -25567, last: 2859848 })\n\
         read|rule|archivist|dispose|maps|y1 > Some(RuleRow { place: 2, effect: 1, role: \
         \"archivist\", action: \"*\", collection: \"*\", class: \"*\", first: -25567, last: 2859848 })\n\
         read|rule|stranger|list|maps|y10 > None\n\
         read|rule|archivist|class||y1 > Some(RuleRow { place: 2, effect: 1, role: \"archivist\", \
         action: \"*\", collection: \"*\", class: \"*\", first: -25567, last: 2859848 })\n\
         read|rule|archivist|dispose||y1 > Some(RuleRow { place: 2, effect: 1, role: \
         \"archivist\", action: \"*\", collection: \"*\", class: \"*\", first: -25567, last: 2859848 })\n\
         read|rule|clerk|list|maps|y10 > Some(RuleRow { place: 3, effect: 1, role: \"clerk\", \
         action: \"list\", collection: \"*\", class: \"y10\", first: -25567, last: 2859848 })\n\
         read|rule|clerk|list|maps| > None\n\
         read|rule|Clerk|list|maps|y10 > None\n\
         do|policy|anna archivist|1 0 archivist * tax * 100 200,2 1 archivist * * * 99 201\n\
         read|rule|archivist|dispose|tax|y1|98 > None\n\
         read|rule|archivist|dispose|tax|y1|99 > Some(RuleRow { place: 2, effect: 1, role: \
         \"archivist\", action: \"*\", collection: \"*\", class: \"*\", first: 99, last: 201 })\n\
         read|rule|archivist|dispose|tax|y1|100 > Some(RuleRow { place: 1, effect: 0, role: \
         \"archivist\", action: \"*\", collection: \"tax\", class: \"*\", first: 100, last: 200 \
         })\n\
         read|rule|archivist|dispose|tax|y1|200 > Some(RuleRow { place: 1, effect: 0, role: \
         \"archivist\", action: \"*\", collection: \"tax\", class: \"*\", first: 100, last: 200 \
         })\n\
         read|rule|archivist|dispose|tax|y1|201 > Some(RuleRow { place: 2, effect: 1, role: \
         \"archivist\", action: \"*\", collection: \"*\", class: \"*\", first: 99, last: 201 })\n\
         read|rule|archivist|dispose|tax|y1|202 > None",
    )],
];
