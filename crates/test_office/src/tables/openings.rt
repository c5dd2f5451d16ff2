//! Which databases are taken for an office.

use crate::parts::Part;

/// A step that makes a database, a step that asks whether it is an office when it is opened again, and
/// steps of which each fills a database of its own in between.
pub(crate) static OPENINGS: [(&str, &str, &str); 9] = [
    // Other tables are no office.
    (
        "run|",
        "open > Q1",
        "run|\n\
         run|CREATE TABLE note (id INTEGER PRIMARY KEY, text TEXT) STRICT; INSERT INTO note \
         VALUES (1, 'a')\n\
         run|CREATE TABLE office_of (id INTEGER, version INTEGER, max_deposits INTEGER, \
         max_holds INTEGER)\n\
         run|CREATE TABLE office (id INTEGER PRIMARY KEY, version INTEGER NOT NULL, max_deposits \
         INTEGER NOT NULL) STRICT; INSERT INTO office VALUES (1, 5, 1)\n\
         run|CREATE TABLE office (version INTEGER NOT NULL, max_deposits INTEGER NOT NULL, \
         max_holds INTEGER NOT NULL) STRICT; INSERT INTO office VALUES (5, 1, 1)\n\
         run|CREATE TABLE office (id INTEGER PRIMARY KEY, edition INTEGER, max_deposits INTEGER, \
         max_holds INTEGER); INSERT INTO office VALUES (1, 5, 1, 1)\n\
         run|CREATE VIEW office AS SELECT 1 AS id, 5 AS version, 1 AS max_deposits, 1 AS \
         max_holds\n\
         run|CREATE TABLE class (name TEXT NOT NULL PRIMARY KEY, years INTEGER NOT NULL) STRICT",
    ),
    // Only row 1 makes an office; its limits are in range; it has this version, and no earlier one.
    (
        "run|CREATE TABLE office (id INTEGER PRIMARY KEY, version INTEGER NOT NULL, max_deposits \
         INTEGER NOT NULL, max_holds INTEGER NOT NULL) STRICT",
        "open > Q1",
        "run|\n\
         run|INSERT INTO office VALUES (2, 5, 10, 20)\n\
         run|INSERT INTO office VALUES (0, 5, 10, 20)\n\
         run|INSERT INTO office VALUES (1, 5, 0, 20)\n\
         run|INSERT INTO office VALUES (1, 5, -1, 20)\n\
         run|INSERT INTO office VALUES (1, 5, 10, 0)\n\
         run|INSERT INTO office VALUES (1, 5, 1000001, 20)\n\
         run|INSERT INTO office VALUES (1, 5, 10, 1000001)\n\
         run|INSERT INTO office VALUES (1, 2, 0, 20)",
    ),
    (
        "run|CREATE TABLE office (id INTEGER PRIMARY KEY, version INTEGER NOT NULL, max_deposits \
         INTEGER NOT NULL, max_holds INTEGER NOT NULL) STRICT",
        "open > Q2",
        "run|INSERT INTO office VALUES (1, 1, 10, 20)\n\
         run|INSERT INTO office VALUES (1, 2, 10, 20)\n\
         run|INSERT INTO office VALUES (1, 3, 10, 20)\n\
         run|INSERT INTO office VALUES (1, 4, 10, 20)\n\
         run|INSERT INTO office VALUES (1, 6, 10, 20)\n\
         run|INSERT INTO office VALUES (1, 0, 10, 20)\n\
         run|INSERT INTO office VALUES (1, -1, 10, 20)\n\
         run|INSERT INTO office VALUES (1, -5, 10, 20)",
    ),
    (
        "run|CREATE TABLE office (id INTEGER PRIMARY KEY, version INTEGER NOT NULL, max_deposits \
         INTEGER NOT NULL, max_holds INTEGER NOT NULL) STRICT",
        "open",
        "run|INSERT INTO office VALUES (1, 5, 10, 20), (2, 2, 0, 0)\n\
         run|INSERT INTO office VALUES (0, 2, 10, 20), (1, 5, 10, 20)\n\
         run|INSERT INTO office VALUES (1, 5, 1, 1000000)\n\
         run|INSERT INTO office VALUES (1, 5, 1000000, 1)",
    ),
    // Only whole numbers make an office. Of several rows 1 that are an office's the lowest
    // version counts.
    (
        "run|CREATE TABLE office (id, version, max_deposits, max_holds)",
        "open > Q1",
        "run|INSERT INTO office VALUES ('1', 5, 10, 20)\n\
         run|INSERT INTO office VALUES (1, 'five', 10, 20)\n\
         run|INSERT INTO office VALUES (1, '5', 10, 20)\n\
         run|INSERT INTO office VALUES (1, NULL, 10, 20)\n\
         run|INSERT INTO office VALUES (1, 5.0, 10, 20)\n\
         run|INSERT INTO office VALUES (1, 5, x'0a', 20)\n\
         run|INSERT INTO office VALUES (1, 5, 10.0, 20)\n\
         run|INSERT INTO office VALUES (1, 5, 10, NULL)\n\
         run|INSERT INTO office VALUES (1, 5, 10, '20')",
    ),
    (
        "run|CREATE TABLE office (id, version, max_deposits, max_holds)",
        "open > Q2",
        "run|INSERT INTO office VALUES (1, 1, 10, 20)\n\
         run|INSERT INTO office VALUES (1, 2, 10, 20)\n\
         run|INSERT INTO office VALUES (1, 5, 10, 20), (1, 2, 10, 20)\n\
         run|INSERT INTO office VALUES (2, 5, 10, 20), (1, 6, 10, 20)",
    ),
    (
        "run|CREATE TABLE office (id, version, max_deposits, max_holds)",
        "open",
        "run|INSERT INTO office VALUES (1, 5, 10, 20)\n\
         run|INSERT INTO office VALUES (1, 6, 10, 20), (1, 5, 10, 20)\n\
         run|INSERT INTO office VALUES (1, 5, 10, 20), (1, 6, 10, 20)\n\
         run|INSERT INTO office VALUES (1, 2, 0, 20), (1, 5, 10, 20)\n\
         run|INSERT INTO office VALUES (1, 'five', 10, 20), (1, 5, 10, 20)",
    ),
    // An office has its columns, in any order, and may have more.
    (
        "run|CREATE TABLE office (max_holds, max_deposits, version, id, name)",
        "open > Q2",
        "run|INSERT INTO office VALUES (20, 10, 1, 1, 'a')\n\
         run|INSERT INTO office VALUES (20, 10, 2, 1, 'a')",
    ),
    (
        "run|CREATE TABLE office (max_holds, max_deposits, version, id, name)",
        "open",
        "run|INSERT INTO office VALUES (20, 10, 5, 1, 'a')",
    ),
];

/// An office is made only in an empty database.
pub(crate) static IN_USE: [&[Part]; 4] = [
    // A database with a table is not empty.
    &[
        (
            "steps",
            "run|CREATE TABLE note (id INTEGER PRIMARY KEY)\n\
             create > Q4",
        ),
        (
            "steps",
            "show|SELECT type, name FROM sqlite_schema > table|note;",
        ),
    ],
    // A database with a view is not empty.
    &[
        (
            "steps",
            "run|CREATE VIEW one AS SELECT 1 AS n\n\
             create > Q4",
        ),
        (
            "steps",
            "show|SELECT type, name FROM sqlite_schema > view|one;",
        ),
    ],
    // A database with another table office is not empty.
    &[
        (
            "steps",
            "run|CREATE TABLE office (id INTEGER PRIMARY KEY)\n\
             create > Q4",
        ),
        (
            "steps",
            "show|SELECT type, name FROM sqlite_schema > table|office;",
        ),
    ],
    // An office is made where all was dropped.
    &[
        (
            "steps",
            "run|CREATE TABLE note (id INTEGER PRIMARY KEY); DROP TABLE note\n\
             create",
        ),
        ("steps", "open"),
    ],
];
