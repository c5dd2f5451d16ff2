//! Every SQL statement of the office, each by a typed call.
#![tactic(auto)]

mod classes;
mod creating;
mod deposits;
mod dues;
mod holds;
pub mod laws;
mod moving;
mod opening;
mod policy;
mod recovery;
mod rows;

pub use classes::{class_of, has_collection, put_class, put_collection};
pub use creating::create;
pub use deposits::{
    DepositRow, NewDeposit, by_accession, deposit_row, deposit_rows, last_deposit, mark_gone,
    put_deposit, put_deposit_and_due,
};
pub use dues::{
    ClosingRow, DepositAndDue, DisposableRow, DueRow, add_holds, add_holds_class,
    deposits_and_dues, due_row, due_rows, rows_of_class, set_due, set_dues, set_holds,
};
pub use holds::{
    HoldRow, HoldTarget, end_hold, has_release_outside, hold_row, last_hold, live_holds, put_hold,
};
pub use moving::{move_holds, renew};
pub use office_contents::{
    ContentSize, FileRow, Result, TableFault, TableVersion, contents, drop_files, file_of,
    files_of, intact_file_of, intact_files_of, put_file, put_marked, rows_of_contents, size_in,
};
pub use opening::{OfficeLimits, has_office, limits, open_tables, version_told};
pub use policy::{CallerRow, RuleRow, match_rule, put_policy, role_of, rules};
pub use recovery::adopt;
