//! Calls that are refused, and reads of what isn't there: no row changes.

use crate::parts::Part;

/// What is in no office of these sessions.
const ABSENT: &str = "read|role|eve > None\n\
    read|years|Y2 > None\n\
    read|collection|map > false\n\
    read|deposit|3 > None\n\
    read|accession|2026/ > None\n\
    read|files|3 > []\n\
    read|content|1|data/A > None\n\
    read|content|3|data/a > None\n\
    read|hold|3 > None\n\
    read|live holds|3|plans|y9 > []";

/// A change that goes before another in one transaction is rolled back with it.
pub(crate) static REFUSALS: [&[Part]; 4] = [
    // Of an office with one deposit, a file of it and a hold.
    &[
        (
            "steps",
            "create\n\
             do|class|y2|2\n\
             do|collection|maps\n\
             do|deposit|1|2026/1|maps|y2\n\
             do|file|1|data/a|abc\n\
             do|hold on deposit|1|1|suit",
        ),
        (
            "steps",
            "do|class|new|5;deposit|2|2026/1|maps|y2 > Q4\n\
             do|class|new|5;deposit|1|2026/2|maps|y2 > Q4\n\
             do|class|new|5;deposit|2|2026/2|plans|y2 > Q4\n\
             do|class|new|5;deposit|2|2026/2|maps|y9 > Q4\n\
             do|class|new|5;deposit|2|2026/2|MAPS|y2 > Q4\n\
             do|class|new|5;deposit|2|2026/2|| > Q4\n\
             do|class|new|5;deposit and due|2|2026/1|maps|y2|740|1 > Q4\n\
             do|class|new|5;deposit and due|1|2026/2|maps|y2|740|1 > Q4\n\
             do|class|new|5;deposit and due|2|2026/2|plans|y2|740|1 > Q4\n\
             do|class|new|5;deposit and due|2|2026/2|maps|y9|740|1 > Q4\n\
             do|class|new|5;file|1|data/a| > Q4\n\
             do|class|new|5;hold on deposit|1|1|other > Q4\n\
             do|gone|3|9\n\
             do|drop files|3\n\
             do|end hold|3|9\n\
             held > 1|5|10|20;--;--;--;y2|2;--;maps;--;1|2026/1|maps|y2|10|11|2|300|||0;--;\
             1|data/a|1|abc;--;1|1|||suit|100|;--;\
             1|BA7816BF8F01CFEA414140DE5DAE2223B00361A396177A9CB410FF61F20015AD|3;--;",
        ),
        (
            "steps",
            "held > 1|5|10|20;--;--;--;y2|2;--;maps;--;1|2026/1|maps|y2|10|11|2|300|||0;--;\
             1|data/a|1|abc;--;1|1|||suit|100|;--;\
             1|BA7816BF8F01CFEA414140DE5DAE2223B00361A396177A9CB410FF61F20015AD|3;--;",
        ),
        ("steps", ABSENT),
        (
            "steps",
            "read|rules > []\n\
             read|deposits > [DepositRow { number: 1, accession: \"2026/1\", collection: \
             \"maps\", class: \"y2\", closed: 10, deposited: 11, files: 2, bytes: 300, gone: \
             None }]\n\
             read|last deposit > Some(1)\n\
             read|last hold > Some(1)",
        ),
        (
            "steps",
            "do|policy|ada keeper,ben keeper|1 1 keeper * * *,2 1 keeper * * *\n\
             do|class|new|5;policy|cy keeper,dan keeper,cy keeper|1 1 keeper * * *,2 1 keeper * \
             * * > Q4\n\
             do|class|new|5;policy|ada keeper,ben keeper|3 1 keeper * * *,4 1 keeper * * *,4 1 \
             keeper * * * > Q4\n\
             held > 1|5|10|20;--;ada|keeper;ben|keeper;--;1|1|keeper|*|*|*|-25567|2859848;\
             2|1|keeper|*|*|*|-25567|2859848;--;\
             y2|2;--;maps;--;1|2026/1|maps|y2|10|11|2|300|||0;--;1|data/a|1|abc;--;1|1|||suit|100|;\
             --;1|BA7816BF8F01CFEA414140DE5DAE2223B00361A396177A9CB410FF61F20015AD|3;--;",
        ),
        (
            "steps",
            "do|class|new|5;deposit|2|2026/2|maps|y2\n\
             read|years|new > Some(5)\n\
             do|class|new|5;file|77|data/a|\n\
             do|class|new|5;hold on deposit|2|1|other\n\
             do|hold on deposit|3|77|no such deposit\n\
             do|hold on collection|4|plans|no such collection\n\
             do|hold on class|5|y9|no such class\n\
             read|last hold > Some(5)",
        ),
    ],
    // Nothing is found in an empty office.
    &[
        ("steps", "create"),
        ("steps", ABSENT),
        (
            "steps",
            "read|rules > []\n\
             read|deposits > []\n\
             read|last deposit > None\n\
             read|last hold > None",
        ),
    ],
    // No tables are a fault of the store.
    &[(
        "steps",
        "read|limits > Q4\n\
             read|years|y2 > Q4\n\
             do|class|y2|2 > Q4\n\
             read|last deposit > Q4\n\
             read|contents > Q4\n\
             read|due rows|9 > Q4\n\
             read|rule|keeper|list|maps|y2 > Q4\n\
             do|deposit and due|1|2026/1|maps|y2|740|1 > Q4\n\
             do|due|1|9 > Q4\n\
             do|dues|1|2|9 > Q4\n\
             do|more holds|maps|1 > Q4\n\
             do|more holds of class|y2|1 > Q4\n\
             do|file|1|data/a| > Q4",
    )],
    // Strange rows are refused: those that the schema takes and no row of the office can be.
    &[(
        "steps",
        "create\n\
             run|INSERT INTO hold_4 VALUES (-1, 1, NULL, NULL, 'suit', 1, NULL)\n\
             read|last hold > Q4\n\
             read|live holds|1|maps|y2 > Q4\n\
             run|INSERT INTO hold_4 VALUES (4294967296, 1, NULL, NULL, 'suit', 1, NULL)\n\
             read|last hold > Q4\n\
             run|INSERT INTO hold_4 VALUES (5, -1, NULL, NULL, 'suit', 1, NULL)\n\
             read|hold|5 > Q4\n\
             run|INSERT INTO caller VALUES ('anna', CAST(x'ff' AS TEXT))\n\
             read|role|anna > Q4\n\
             run|INSERT INTO class VALUES ('y2', 2); INSERT INTO collection VALUES ('maps')\n\
             run|INSERT INTO deposit VALUES (4294967296, 'A-1', 'maps', 'y2', 1, 2, 3, 4, NULL, \
             NULL, 0)\n\
             read|last deposit > Q4\n\
             read|accession|A-1 > Q4\n\
             read|deposits > Q4\n\
             run|UPDATE office SET max_deposits = -1\n\
             read|limits > Q4\n\
             run|DELETE FROM office\n\
             read|limits > Q4\n\
             open > Q1",
    )],
];
