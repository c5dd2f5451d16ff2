//! Requests as bytes, put to an office over its tables, and the bytes that answer them, by calls
//! and over sockets; and an office whose files stop.
#![tactic(auto)]

mod accepts;
mod answers;
mod day;
mod desk;
mod files;
mod limits;
mod listening;
mod offices;
mod peers;
mod replays;
mod sessions;
mod stops;
mod tests;
mod troubles;

pub use tests::{
    an_office_is_found_again_where_its_files_stop, offices_are_served, the_patience_of_an_office,
    what_still_comes_is_dropped,
};
