//! The file of an office, with as many of its pages in memory as it has, up to a limit.
#![tactic(auto)]

mod opening;
mod pages;

pub use opening::open_file;
