//! Sessions are put to each office, and cases of altered rows to offices in memory and in files.

use crate::altered::{
    AS_BEFORE, BESIDE, CLASSES, DEPOSITS, DUES, FILES, FOUND, HOLDS, OPENINGS, PREPARED, RULES,
};
use crate::bodies::BODIES;
use crate::offices::Way;
use crate::parts::Part;
use crate::sessions::{CONTENTS, DECIDING, KEEPING};
use crate::stores::{in_memory, over_tables, to_both_in_memory, to_offices};
use crate::upgrades::{NOT_UPGRADED, UPGRADES, WHOLE_SESSIONS};
use std::alloc::Global;
use std::test::Fail;

/// Answers have the bodies that a peer gets, of the plain office and of one over its tables.
pub fn answers_have_their_bodies(alloc: Global) -> Result<(), Fail> {
    to_both_in_memory(alloc, &BODIES)
}

/// Each session is answered alike by each office, by steps and in one run; answers have their bodies.
pub fn each_office_answers_alike(alloc: Global) -> Result<(), Fail> {
    to_offices(alloc, &DECIDING)?;
    to_offices(alloc, &KEEPING)?;
    answers_have_their_bodies(alloc)
}

/// What an office has in stock, the plain one and the one over its tables: a content counts once, and as long
/// as a deposit that has it is kept.
pub fn a_content_counts_once_and_while_it_is_kept(alloc: Global) -> Result<(), Fail> {
    to_offices(alloc, &CONTENTS)
}

/// The cases, after the parts that prepare an office for them, and before those that find it as before.
fn parts_around(alloc: Global, cases: &[Part]) -> Option<Vec<Part>> {
    let mut parts = Vec::new(alloc);
    parts.extend_from_slice(&PREPARED).ok()?;
    parts.extend_from_slice(cases).ok()?;
    parts.extend_from_slice(&AS_BEFORE).ok()?;
    Some(parts)
}

/// Takes the cases over an office that is prepared for them, which is as before in the end.
fn alter(alloc: Global, cases: &[Part]) -> Result<(), Fail> {
    let parts = parts_around(alloc, cases).ok_or("memory")?;
    in_memory(alloc, Way::Steps, &parts)
}

/// An answer that rests on a row that was altered is a failure.
pub fn altered_rows_are_met_where_an_answer_rests_on_them(alloc: Global) -> Result<(), Fail> {
    alter(alloc, &FILES)?;
    alter(alloc, &CLASSES)?;
    alter(alloc, &DEPOSITS)?;
    alter(alloc, &DUES)?;
    alter(alloc, &RULES)?;
    alter(alloc, &HOLDS)?;
    over_tables(alloc, Way::Steps, &BESIDE)?;
    in_memory(alloc, Way::Steps, &FOUND)
}

/// A database that is no office of this version isn't taken for one, and only one of an older version is upgraded.
pub fn only_an_office_of_this_version_is_taken_up(alloc: Global) -> Result<(), Fail> {
    in_memory(alloc, Way::Steps, &OPENINGS)?;
    over_tables(alloc, Way::Steps, &[&NOT_UPGRADED])
}

/// An office of an older version isn't taken for one of this version; once it is upgraded it goes on, in memory and in
/// files that are closed in between.
pub fn an_older_office_goes_on_once_it_is_upgraded(alloc: Global) -> Result<(), Fail> {
    for way in [Way::Steps, Way::OneRun] {
        over_tables(alloc, way, &UPGRADES)?;
        over_tables(alloc, way, &WHOLE_SESSIONS)?;
    }
    Ok(())
}
