//! The sessions with the tables are taken over each store.

use crate::offices::Way;
use crate::stores::{in_files, over_tables};
use crate::tables::calls::CALLS;
use crate::tables::openings::{IN_USE, OPENINGS};
use crate::tables::refusals::REFUSALS;
use crate::tables::sizes::SIZES;
use office_tables::TableFault;
use std::alloc::Global;
use std::test::Fail;

/// What a call changed is there when the files are opened again, and a call that is refused changes
/// nothing.
pub fn calls_last_and_what_is_refused_changes_nothing(alloc: Global) -> Result<(), Fail> {
    over_tables(alloc, Way::Steps, &CALLS)?;
    over_tables(alloc, Way::Steps, &REFUSALS)?;
    over_tables(alloc, Way::Steps, &IN_USE)
}

/// Each database that is no office is refused with its code.
pub fn only_an_office_is_taken_for_one(alloc: Global) -> Result<(), Fail> {
    for (made, asked, fillings) in OPENINGS.iter() {
        for filled in fillings.lines() {
            let parts = [("steps", *made), ("steps", filled), ("steps", *asked)];
            over_tables(alloc, Way::Steps, &[&parts])?;
        }
    }
    Ok(())
}

/// Contents of each size, and paths of each kind, are there when the files are opened again.
pub fn files_of_each_size_are_found_again(alloc: Global) -> Result<(), Fail> {
    for parts in SIZES.iter() {
        let _files = in_files(alloc, Way::Steps, parts)?;
    }
    Ok(())
}

static CODES: [(TableFault, &str); 4] = [
    (TableFault::NotAnOffice, "Q1"),
    (TableFault::OtherVersion, "Q2"),
    (TableFault::Memory, "Q3"),
    (TableFault::Store, "Q4"),
];

/// Each fault of the tables is written as its code.
pub fn each_fault_has_its_code(alloc: Global) -> Result<(), Fail> {
    for (fault, code) in CODES.iter() {
        if format!(in alloc; "{fault}")?.as_str() != *code {
            return Err(Fail::new(*code));
        }
    }
    Ok(())
}
