//! Offices whose tables are of an older version, made by SQL and upgraded, and what they go on as.

use crate::parts::Part;

/// An office of version 3: a deposit is held by itself and in its collection.
const THIRD: &str = "BEGIN;\n\
     CREATE TABLE office (id INTEGER PRIMARY KEY, version INTEGER NOT NULL, max_deposits INTEGER NOT NULL, max_holds INTEGER NOT NULL) STRICT;\n\
     CREATE TABLE caller (name TEXT NOT NULL PRIMARY KEY, role TEXT NOT NULL) STRICT;\n\
     CREATE TABLE rule (place INTEGER PRIMARY KEY, effect INTEGER NOT NULL, role TEXT NOT NULL, action TEXT NOT NULL, collection TEXT NOT NULL, class TEXT NOT NULL) STRICT;\n\
     CREATE TABLE class (name TEXT NOT NULL PRIMARY KEY, years INTEGER NOT NULL) STRICT;\n\
     CREATE TABLE collection (name TEXT NOT NULL PRIMARY KEY) STRICT;\n\
     CREATE TABLE deposit (number INTEGER PRIMARY KEY, accession TEXT NOT NULL UNIQUE, collection TEXT NOT NULL REFERENCES collection (name), class TEXT NOT NULL REFERENCES class (name), closed INTEGER NOT NULL, deposited INTEGER NOT NULL, files INTEGER NOT NULL, bytes INTEGER NOT NULL, gone INTEGER, due INTEGER, holds INTEGER NOT NULL) STRICT;\n\
     CREATE TABLE file (deposit INTEGER NOT NULL, path TEXT NOT NULL, content INTEGER NOT NULL REFERENCES content (id), PRIMARY KEY (deposit, path)) STRICT;\n\
     CREATE TABLE hold (number INTEGER PRIMARY KEY, deposit INTEGER, collection TEXT, matter TEXT NOT NULL, placed INTEGER NOT NULL, released INTEGER) STRICT;\n\
     CREATE TABLE content (id INTEGER PRIMARY KEY, mark BLOB NOT NULL, size INTEGER NOT NULL, bytes BLOB NOT NULL) STRICT;\n\
     CREATE INDEX hold_deposit ON hold (deposit);\n\
     CREATE INDEX hold_collection ON hold (collection);\n\
     CREATE INDEX file_content ON file (content);\n\
     CREATE INDEX content_mark ON content (mark);\n\
     CREATE INDEX deposit_due ON deposit (due);\n\
     INSERT INTO office VALUES(1,3,1000000,1000000);\n\
     INSERT INTO caller VALUES('anna','archivist');\n\
     INSERT INTO caller VALUES('carl','clerk');\n\
     INSERT INTO rule VALUES(1,0,'archivist','dispose','tax','*');\n\
     INSERT INTO rule VALUES(2,1,'archivist','*','*','*');\n\
     INSERT INTO rule VALUES(3,1,'clerk','list','*','y10');\n\
     INSERT INTO class VALUES('y1',1);\n\
     INSERT INTO class VALUES('y10',10);\n\
     INSERT INTO collection VALUES('tax');\n\
     INSERT INTO collection VALUES('maps');\n\
     INSERT INTO deposit VALUES(1,'A-1','maps','y1',19782,19785,1,3,NULL,20147,2);\n\
     INSERT INTO hold VALUES(1,NULL,'maps','Case 7',19784,NULL);\n\
     INSERT INTO hold VALUES(2,1,NULL,'Case 8',21915,NULL);\n\
     INSERT INTO content VALUES(1,X'1712ecfb074bf29c4188ad3421032509159a09739fd604f8fe57038b4ddefcc9',54,X'42616749742d56657273696f6e3a20312e300a5461672d46696c652d4368617261637465722d456e636f64696e673a205554462d380a');\n\
     INSERT INTO content VALUES(2,X'ba7816bf8f01cfea414140de5dae2223b00361a396177a9cb410ff61f20015ad',3,X'616263');\n\
     INSERT INTO content VALUES(3,X'229b690bb74c455dcf323fbf029f56af1d20b126231aa2b2047923926e7d99fe',73,X'626137383136626638663031636665613431343134306465356461653232323362303033363161333936313737613963623431306666363166323030313561642020646174612f610a');\n\
     INSERT INTO file VALUES(1,'bagit.txt',1);\n\
     INSERT INTO file VALUES(1,'data/a',2);\n\
     INSERT INTO file VALUES(1,'manifest-sha256.txt',3);\n\
     COMMIT";

/// One of version 4: the deposit is held in its class, too, and another hold on the class was released.
const FOURTH: &str = "BEGIN;\n\
     CREATE TABLE office (id INTEGER PRIMARY KEY, version INTEGER NOT NULL, max_deposits INTEGER NOT NULL, max_holds INTEGER NOT NULL) STRICT;\n\
     CREATE TABLE caller (name TEXT NOT NULL PRIMARY KEY, role TEXT NOT NULL) STRICT;\n\
     CREATE TABLE rule (place INTEGER PRIMARY KEY, effect INTEGER NOT NULL, role TEXT NOT NULL, action TEXT NOT NULL, collection TEXT NOT NULL, class TEXT NOT NULL) STRICT;\n\
     CREATE TABLE class (name TEXT NOT NULL PRIMARY KEY, years INTEGER NOT NULL) STRICT;\n\
     CREATE TABLE collection (name TEXT NOT NULL PRIMARY KEY) STRICT;\n\
     CREATE TABLE deposit (number INTEGER PRIMARY KEY, accession TEXT NOT NULL UNIQUE, collection TEXT NOT NULL REFERENCES collection (name), class TEXT NOT NULL REFERENCES class (name), closed INTEGER NOT NULL, deposited INTEGER NOT NULL, files INTEGER NOT NULL, bytes INTEGER NOT NULL, gone INTEGER, due INTEGER, holds INTEGER NOT NULL) STRICT;\n\
     CREATE TABLE file (deposit INTEGER NOT NULL, path TEXT NOT NULL, content INTEGER NOT NULL REFERENCES content (id), PRIMARY KEY (deposit, path)) STRICT;\n\
     CREATE TABLE hold (number INTEGER PRIMARY KEY, deposit INTEGER, collection TEXT, matter TEXT NOT NULL, placed INTEGER NOT NULL, released INTEGER) STRICT;\n\
     CREATE TABLE content (id INTEGER PRIMARY KEY, mark BLOB NOT NULL, size INTEGER NOT NULL, bytes BLOB NOT NULL) STRICT;\n\
     CREATE INDEX hold_deposit ON hold (deposit);\n\
     CREATE INDEX hold_collection ON hold (collection);\n\
     CREATE INDEX file_content ON file (content);\n\
     CREATE INDEX content_mark ON content (mark);\n\
     CREATE INDEX deposit_due ON deposit (due);\n\
     CREATE TABLE hold_4 (number INTEGER PRIMARY KEY, deposit INTEGER, collection TEXT, class TEXT, matter TEXT NOT NULL, placed INTEGER NOT NULL, released INTEGER) STRICT;\n\
     CREATE INDEX hold_4_deposit ON hold_4 (deposit);\n\
     CREATE INDEX hold_4_collection ON hold_4 (collection);\n\
     CREATE INDEX hold_4_class ON hold_4 (class);\n\
     INSERT INTO office VALUES(1,4,1000000,1000000);\n\
     INSERT INTO caller VALUES('anna','archivist');\n\
     INSERT INTO caller VALUES('carl','clerk');\n\
     INSERT INTO rule VALUES(1,0,'archivist','dispose','tax','*');\n\
     INSERT INTO rule VALUES(2,1,'archivist','*','*','*');\n\
     INSERT INTO rule VALUES(3,1,'clerk','list','*','y10');\n\
     INSERT INTO class VALUES('y1',1);\n\
     INSERT INTO class VALUES('y10',10);\n\
     INSERT INTO collection VALUES('tax');\n\
     INSERT INTO collection VALUES('maps');\n\
     INSERT INTO deposit VALUES(1,'A-1','maps','y1',19782,19785,1,3,NULL,20147,3);\n\
     INSERT INTO content VALUES(1,X'1712ecfb074bf29c4188ad3421032509159a09739fd604f8fe57038b4ddefcc9',54,X'42616749742d56657273696f6e3a20312e300a5461672d46696c652d4368617261637465722d456e636f64696e673a205554462d380a');\n\
     INSERT INTO content VALUES(2,X'ba7816bf8f01cfea414140de5dae2223b00361a396177a9cb410ff61f20015ad',3,X'616263');\n\
     INSERT INTO content VALUES(3,X'229b690bb74c455dcf323fbf029f56af1d20b126231aa2b2047923926e7d99fe',73,X'626137383136626638663031636665613431343134306465356461653232323362303033363161333936313737613963623431306666363166323030313561642020646174612f610a');\n\
     INSERT INTO file VALUES(1,'bagit.txt',1);\n\
     INSERT INTO file VALUES(1,'data/a',2);\n\
     INSERT INTO file VALUES(1,'manifest-sha256.txt',3);\n\
     INSERT INTO hold_4 VALUES(1,NULL,'maps',NULL,'Case 7',19784,NULL);\n\
     INSERT INTO hold_4 VALUES(2,1,NULL,NULL,'Case 8',21915,NULL);\n\
     INSERT INTO hold_4 VALUES(3,NULL,NULL,'y1','Case 9',21915,NULL);\n\
     INSERT INTO hold_4 VALUES(4,NULL,NULL,'y1','Case 10',21915,21916);\n\
     COMMIT";

/// What the office of version 3 holds.
const THIRD_ROWS: &str = "open > Q2\n\
     show|SELECT id, version, max_deposits, max_holds FROM office ORDER BY id > 1|3|1000000|1000000;\n\
     show|SELECT name, role FROM caller ORDER BY name > anna|archivist;carl|clerk;\n\
     show|SELECT place, effect, role, action, collection, class FROM rule ORDER BY place > \
     1|0|archivist|dispose|tax|*;2|1|archivist|*|*|*;3|1|clerk|list|*|y10;\n\
     show|SELECT name, years FROM class ORDER BY name > y1|1;y10|10;\n\
     show|SELECT name FROM collection ORDER BY name > maps;tax;\n\
     show|SELECT number, accession, collection, class, closed, deposited, files, bytes, gone, due, holds FROM deposit \
     ORDER BY number > 1|A-1|maps|y1|19782|19785|1|3||20147|2;\n\
     show|SELECT deposit, path, content FROM file ORDER BY deposit, path > \
     1|bagit.txt|1;1|data/a|2;1|manifest-sha256.txt|3;\n\
     show|SELECT number, deposit, collection, matter, placed, released FROM hold ORDER BY number > \
     1||maps|Case 7|19784|;2|1||Case 8|21915|;\n\
     show|SELECT id, size, bytes FROM content ORDER BY id > \
     1|54|BagIt-Version: 1.0;Tag-File-Character-Encoding: UTF-8;;2|3|abc;\
     3|73|ba7816bf8f01cfea414140de5dae2223b00361a396177a9cb410ff61f20015ad  data/a;;\n\
     show|SELECT name FROM sqlite_schema > office;caller;sqlite_autoindex_caller_1;rule;class;\
     sqlite_autoindex_class_1;collection;sqlite_autoindex_collection_1;deposit;sqlite_autoindex_deposit_1;\
     file;sqlite_autoindex_file_1;hold;content;hold_deposit;hold_collection;file_content;content_mark;deposit_due;";

/// What it holds once it is upgraded: its holds and its rules are in the tables of this version, and nowhere else.
const THIRD_RENEWED: &str = "open\n\
     held > 1|5|1000000|1000000;--;anna|archivist;carl|clerk;--;\
     1|0|archivist|dispose|tax|*|-25567|2859848;2|1|archivist|*|*|*|-25567|2859848;\
     3|1|clerk|list|*|y10|-25567|2859848;--;y1|1;y10|10;--;maps;tax;--;\
     1|A-1|maps|y1|19782|19785|1|3||20147|2;--;\
     1|bagit.txt|1|BagIt-Version: 1.0;Tag-File-Character-Encoding: UTF-8;;1|data/a|2|abc;\
     1|manifest-sha256.txt|3|ba7816bf8f01cfea414140de5dae2223b00361a396177a9cb410ff61f20015ad  data/a;;--;\
     1||maps||Case 7|19784|;2|1|||Case 8|21915|;--;\
     1|1712ECFB074BF29C4188AD3421032509159A09739FD604F8FE57038B4DDEFCC9|54;\
     2|BA7816BF8F01CFEA414140DE5DAE2223B00361A396177A9CB410FF61F20015AD|3;\
     3|229B690BB74C455DCF323FBF029F56AF1D20B126231AA2B2047923926E7D99FE|73;--;\n\
     show|SELECT place FROM rule > \n\
     show|SELECT number FROM hold > \n\
     show|SELECT name FROM sqlite_schema > office;caller;sqlite_autoindex_caller_1;rule;class;\
     sqlite_autoindex_class_1;collection;sqlite_autoindex_collection_1;deposit;sqlite_autoindex_deposit_1;\
     file;sqlite_autoindex_file_1;hold;content;hold_deposit;hold_collection;file_content;content_mark;deposit_due;\
     hold_4;hold_4_deposit;hold_4_collection;hold_4_class;rule_5;";

/// What the office of version 4 holds.
const FOURTH_ROWS: &str = "open > Q2\n\
     show|SELECT id, version, max_deposits, max_holds FROM office ORDER BY id > 1|4|1000000|1000000;\n\
     show|SELECT name, role FROM caller ORDER BY name > anna|archivist;carl|clerk;\n\
     show|SELECT place, effect, role, action, collection, class FROM rule ORDER BY place > \
     1|0|archivist|dispose|tax|*;2|1|archivist|*|*|*;3|1|clerk|list|*|y10;\n\
     show|SELECT name, years FROM class ORDER BY name > y1|1;y10|10;\n\
     show|SELECT name FROM collection ORDER BY name > maps;tax;\n\
     show|SELECT number, accession, collection, class, closed, deposited, files, bytes, gone, due, holds FROM deposit \
     ORDER BY number > 1|A-1|maps|y1|19782|19785|1|3||20147|3;\n\
     show|SELECT deposit, path, content FROM file ORDER BY deposit, path > \
     1|bagit.txt|1;1|data/a|2;1|manifest-sha256.txt|3;\n\
     show|SELECT number FROM hold > \n\
     show|SELECT number, deposit, collection, class, matter, placed, released FROM hold_4 ORDER BY number > \
     1||maps||Case 7|19784|;2|1|||Case 8|21915|;3|||y1|Case 9|21915|;4|||y1|Case 10|21915|21916;\n\
     show|SELECT id, size, bytes FROM content ORDER BY id > \
     1|54|BagIt-Version: 1.0;Tag-File-Character-Encoding: UTF-8;;2|3|abc;\
     3|73|ba7816bf8f01cfea414140de5dae2223b00361a396177a9cb410ff61f20015ad  data/a;;\n\
     show|SELECT name FROM sqlite_schema > office;caller;sqlite_autoindex_caller_1;rule;class;\
     sqlite_autoindex_class_1;collection;sqlite_autoindex_collection_1;deposit;sqlite_autoindex_deposit_1;\
     file;sqlite_autoindex_file_1;hold;content;hold_deposit;hold_collection;file_content;content_mark;deposit_due;\
     hold_4;hold_4_deposit;hold_4_collection;hold_4_class;";

/// What it holds once it is upgraded: the released hold, too.
const FOURTH_RENEWED: &str = "open\n\
     held > 1|5|1000000|1000000;--;anna|archivist;carl|clerk;--;\
     1|0|archivist|dispose|tax|*|-25567|2859848;2|1|archivist|*|*|*|-25567|2859848;\
     3|1|clerk|list|*|y10|-25567|2859848;--;y1|1;y10|10;--;maps;tax;--;\
     1|A-1|maps|y1|19782|19785|1|3||20147|3;--;\
     1|bagit.txt|1|BagIt-Version: 1.0;Tag-File-Character-Encoding: UTF-8;;1|data/a|2|abc;\
     1|manifest-sha256.txt|3|ba7816bf8f01cfea414140de5dae2223b00361a396177a9cb410ff61f20015ad  data/a;;--;\
     1||maps||Case 7|19784|;2|1|||Case 8|21915|;3|||y1|Case 9|21915|;4|||y1|Case 10|21915|21916;--;\
     1|1712ECFB074BF29C4188AD3421032509159A09739FD604F8FE57038B4DDEFCC9|54;\
     2|BA7816BF8F01CFEA414140DE5DAE2223B00361A396177A9CB410FF61F20015AD|3;\
     3|229B690BB74C455DCF323FBF029F56AF1D20B126231AA2B2047923926E7D99FE|73;--;\n\
     show|SELECT place FROM rule > \n\
     show|SELECT number FROM hold > \n\
     show|SELECT name FROM sqlite_schema > office;caller;sqlite_autoindex_caller_1;rule;class;\
     sqlite_autoindex_class_1;collection;sqlite_autoindex_collection_1;deposit;sqlite_autoindex_deposit_1;\
     file;sqlite_autoindex_file_1;hold;content;hold_deposit;hold_collection;file_content;content_mark;deposit_due;\
     hold_4;hold_4_deposit;hold_4_collection;hold_4_class;rule_5;";

/// The sessions: each begins with an office of an older version, the rows that it holds, and what a call says that
/// takes no older one; then it is upgraded, and has the rows that follow.
pub(crate) static UPGRADES: [&[Part]; 2] = [
    // Holds on a deposit and on a collection go on, and are released.
    &[
        ("made", THIRD),
        ("steps", THIRD_ROWS),
        ("refused", "Q2"),
        ("upgraded", ""),
        ("steps", THIRD_RENEWED),
        (
            "asks",
            "2030-01-02 anna\n\
             release 1 > released 1 2030-01-02\n\
             dispose 1 > Held 2\n\
             2030-01-03 anna\n\
             release 2 > released 2 2030-01-03\n\
             dispose 1 > destroyed 1 2030-01-03\n\
             hold 1 > Gone 2030-01-03\n\
             release 2 > Released 2030-01-03",
        ),
        ("stock", "0 contents, 0 bytes"),
        ("upgraded", ""),
        (
            "asks",
            "2030-01-04 anna\n\
             release 2 > Released 2030-01-03\n\
             deposit maps y1 A-1 > Taken 1",
        ),
    ],
    // So do holds on a class, live and released ones.
    &[
        ("made", FOURTH),
        ("steps", FOURTH_ROWS),
        ("refused", "Q2"),
        ("upgraded", ""),
        ("steps", FOURTH_RENEWED),
        (
            "asks",
            "2030-01-02 anna\n\
             holds 1 > holds: 1 on collection placed 2024-03-02 for Case 7; \
             2 on deposit placed 2030-01-01 for Case 8; 3 on class placed 2030-01-01 for Case 9;\n\
             release 4 > Released 2030-01-02\n\
             release 1 > released 1 2030-01-02\n\
             release 2 > released 2 2030-01-02\n\
             dispose 1 > Held 3\n\
             deposit maps y1 A-2 > deposit 2\n\
             2031-01-02 anna\n\
             dispose 2 > Held 3\n\
             release 3 > released 3 2031-01-02\n\
             dispose 1 > destroyed 1 2031-01-02\n\
             dispose 2 > destroyed 2 2031-01-02",
        ),
        ("stock", "0 contents, 0 bytes"),
        ("upgraded", ""),
        (
            "asks",
            "2031-01-03 anna\n\
             release 3 > Released 2031-01-02\n\
             deposit maps y1 A-2 > Taken 2",
        ),
    ],
];

/// Sessions of every request, and a policy with days, with what an office of an older version has become.
pub(crate) static WHOLE_SESSIONS: [&[Part]; 2] = [
    // One of version 3, whose holds cover what comes later, too.
    &[
        ("made", THIRD),
        ("upgraded", ""),
        (
            "asks",
            "2030-01-01 anna\n\
             class y5 5 > class y5 5\n\
             collection acts > collection acts\n\
             deposit acts y5 B-1 2024-02-29 percent > deposit 2\n\
             deposit tax y5 B-2 > deposit 3\n\
             deposit maps y10 B-3 > deposit 4\n\
             list > list: 1 2 3 4\n\
             list-of acts > list: 2\n\
             list-class y5 > list: 2 3\n\
             record 1 > record 1 A-1 maps y1 closed 2024-02-29 deposited 2024-03-03 due \
             2025-02-28 files 1 bytes 3\n\
             record 4 > record 4 B-3 maps y10 closed 2024-02-29 deposited 2030-01-01 due \
             2034-02-28 files 1 bytes 3\n\
             bag 1 > whole\n\
             file 1 data/a > file abc\n\
             file 2 data/a > NoFile\n\
             audit 1 > audit 1 valid 1.0 files 1 bytes 3 manifests 1\n\
             holds 1 > holds: 1 on collection placed 2024-03-02 for Case 7; \
             2 on deposit placed 2030-01-01 for Case 8;\n\
             holds 4 > holds: 1 on collection placed 2024-03-02 for Case 7;\n\
             hold-class y5 > hold 3\n\
             hold-all acts > hold 4\n\
             hold 2 > hold 5\n\
             holds 2 > holds: 3 on class placed 2030-01-01 for Case 7; \
             4 on collection placed 2030-01-01 for Case 7; 5 on deposit placed 2030-01-01 for Case 7;\n\
             holds 3 > holds: 3 on class placed 2030-01-01 for Case 7;\n\
             due > due on 2030-01-01:\n\
             dispose 2 > Held 3\n\
             dispose 3 > Denied rule 1\n\
             2030-01-01 carl\n\
             list > list: 4\n\
             bag 1 > Denied default\n\
             hold-class y5 > Denied default\n\
             2030-01-02 anna\n\
             release 3 > released 3 2030-01-02\n\
             dispose 2 > Held 4\n\
             release 4 > released 4 2030-01-02\n\
             release 5 > released 5 2030-01-02\n\
             due > due on 2030-01-02: 2\n\
             keep y5 > class y5 permanent\n\
             due > due on 2030-01-02:\n\
             dispose 2 > NotDue never\n\
             class y5 5 > class y5 5\n\
             dispose 2 > destroyed 2 2030-01-02\n\
             bag 2 > Gone 2030-01-02",
        ),
        ("stock", "3 contents, 130 bytes"),
        ("policy", "tax is destroyed in January 2031"),
        (
            "asks",
            "2030-12-31 anna\n\
             due > due on 2030-12-31:\n\
             dispose 3 > Denied rule 2\n\
             2030-12-31 carl\n\
             list > list:\n\
             2031-01-01 carl\n\
             list > list: 1 3 4\n\
             2031-01-01 anna\n\
             due > due on 2031-01-01: 3\n\
             2031-01-31 anna\n\
             due > due on 2031-01-31: 3\n\
             2031-02-01 anna\n\
             dispose 3 > Denied rule 2\n\
             due > due on 2031-02-01:",
        ),
        ("upgraded", ""),
        (
            "asks",
            "2031-02-01 anna\n\
             dispose 3 > Denied rule 2\n\
             2031-01-31 anna\n\
             dispose 3 > destroyed 3 2031-01-31\n\
             due > due on 2031-01-31:",
        ),
        ("stock", "3 contents, 130 bytes"),
    ],
    // One of version 4, whose hold on a class covers what comes later, too.
    &[
        ("made", FOURTH),
        ("upgraded", ""),
        (
            "asks",
            "2030-01-02 anna\n\
             class y5 5 > class y5 5\n\
             collection acts > collection acts\n\
             deposit acts y5 B-1 2024-02-29 percent > deposit 2\n\
             deposit tax y1 B-2 > deposit 3\n\
             deposit maps y10 B-3 > deposit 4\n\
             list > list: 1 2 3 4\n\
             list-of acts > list: 2\n\
             list-class y1 > list: 1 3\n\
             record 1 > record 1 A-1 maps y1 closed 2024-02-29 deposited 2024-03-03 due \
             2025-02-28 files 1 bytes 3\n\
             record 3 > record 3 B-2 tax y1 closed 2024-02-29 deposited 2030-01-02 due \
             2025-02-28 files 1 bytes 3\n\
             bag 1 > whole\n\
             file 1 data/a > file abc\n\
             file 2 data/a > NoFile\n\
             audit 1 > audit 1 valid 1.0 files 1 bytes 3 manifests 1\n\
             holds 1 > holds: 1 on collection placed 2024-03-02 for Case 7; \
             2 on deposit placed 2030-01-01 for Case 8; 3 on class placed 2030-01-01 for Case 9;\n\
             holds 3 > holds: 3 on class placed 2030-01-01 for Case 9;\n\
             holds 4 > holds: 1 on collection placed 2024-03-02 for Case 7;\n\
             release 4 > Released 2030-01-02\n\
             hold-class y5 > hold 5\n\
             hold-all acts > hold 6\n\
             hold 2 > hold 7\n\
             holds 2 > holds: 5 on class placed 2030-01-02 for Case 7; \
             6 on collection placed 2030-01-02 for Case 7; 7 on deposit placed 2030-01-02 for Case 7;\n\
             due > due on 2030-01-02:\n\
             dispose 2 > Held 5\n\
             dispose 3 > Denied rule 1\n\
             2030-01-02 carl\n\
             list > list: 4\n\
             bag 1 > Denied default\n\
             release 3 > Denied default\n\
             2030-01-03 anna\n\
             release 5 > released 5 2030-01-03\n\
             dispose 2 > Held 6\n\
             release 6 > released 6 2030-01-03\n\
             release 7 > released 7 2030-01-03\n\
             due > due on 2030-01-03: 2\n\
             keep y5 > class y5 permanent\n\
             due > due on 2030-01-03:\n\
             dispose 2 > NotDue never\n\
             class y5 5 > class y5 5\n\
             dispose 2 > destroyed 2 2030-01-03\n\
             bag 2 > Gone 2030-01-03",
        ),
        ("stock", "3 contents, 130 bytes"),
        ("policy", "tax is destroyed in January 2031"),
        (
            "asks",
            "2031-01-01 anna\n\
             dispose 3 > Held 3\n\
             due > due on 2031-01-01:\n\
             release 3 > released 3 2031-01-01\n\
             holds 3 > holds:\n\
             2030-12-31 anna\n\
             due > due on 2030-12-31:\n\
             dispose 3 > Denied rule 2\n\
             2030-12-31 carl\n\
             list > list:\n\
             2031-01-01 carl\n\
             list > list: 1 3 4\n\
             2031-01-01 anna\n\
             due > due on 2031-01-01: 3\n\
             2031-01-31 anna\n\
             due > due on 2031-01-31: 3\n\
             2031-02-01 anna\n\
             dispose 3 > Denied rule 2\n\
             due > due on 2031-02-01:",
        ),
        ("upgraded", ""),
        (
            "asks",
            "2031-02-01 anna\n\
             dispose 3 > Denied rule 2\n\
             2031-01-31 anna\n\
             dispose 3 > destroyed 3 2031-01-31\n\
             release 2 > released 2 2031-01-31\n\
             dispose 1 > Held 1\n\
             release 1 > released 1 2031-01-31\n\
             due > due on 2031-01-31: 1",
        ),
        ("stock", "3 contents, 130 bytes"),
    ],
];

/// What is not upgraded: an empty database, an office of a version that never was one, or limits that no office has, and
/// one whose tables are not those of its version. It is as before, and an office again once its row is.
pub(crate) static NOT_UPGRADED: [Part; 23] = [
    ("upgraded", "Q1"),
    ("office", "1000000"),
    ("alters", "UPDATE office SET version = 2"),
    ("upgraded", "Q2"),
    ("alters", "UPDATE office SET version = 1"),
    ("upgraded", "Q2"),
    ("alters", "UPDATE office SET version = 0"),
    ("upgraded", "Q2"),
    ("alters", "UPDATE office SET version = -5"),
    ("upgraded", "Q2"),
    ("alters", "UPDATE office SET version = 6"),
    ("upgraded", "Q2"),
    ("alters", "UPDATE office SET max_holds = 0"),
    ("upgraded", "Q1"),
    (
        "alters",
        "UPDATE office SET version = 3; UPDATE office SET max_holds = 1000000",
    ),
    ("upgraded", "Q4"),
    ("alters", "UPDATE office SET version = 4"),
    ("upgraded", "Q4"),
    (
        "steps",
        "held > 1|4|1000000|1000000;--;anna|archivist;carl|clerk;--;\
         1|0|archivist|dispose|tax|*|-25567|2859848;2|1|archivist|*|*|*|-25567|2859848;\
         3|1|clerk|list|*|y10|-25567|2859848;--;y1|1;y10|10;--;maps;tax;--;--;--;--;--;",
    ),
    ("alters", "UPDATE office SET version = 5"),
    ("upgraded", ""),
    ("asks", "hold-class y1 > hold 1"),
    ("stock", "0 contents, 0 bytes"),
];
