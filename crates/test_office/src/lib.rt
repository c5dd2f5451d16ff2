//! Worked sessions, put to the plain office and to the office over its tables, also where rows of the
//! tables are altered by another program; and the calls of the tables themselves.
#![tactic(auto)]

mod altered;
mod altering;
mod bodies;
mod files;
mod offices;
mod parts;
mod policies;
mod rows;
mod sessions;
mod stores;
mod tables;
mod tests;
mod tests_stops;
mod upgrade_stops;
mod upgrades;

pub use tables::tests::{
    calls_last_and_what_is_refused_changes_nothing, each_fault_has_its_code,
    files_of_each_size_are_found_again, only_an_office_is_taken_for_one,
};
pub use tables::tests_stops::each_stop_leaves_an_office_or_none;
pub use tests::{
    a_content_counts_once_and_while_it_is_kept, altered_rows_are_met_where_an_answer_rests_on_them,
    an_older_office_goes_on_once_it_is_upgraded, answers_have_their_bodies,
    each_office_answers_alike, only_an_office_of_this_version_is_taken_up,
};
pub use tests_stops::{
    a_stop_leaves_the_office_after_its_last_request, a_stop_leaves_the_office_after_the_run,
};
pub use upgrade_stops::each_stop_in_an_upgrade_leaves_an_office_that_goes_on;
