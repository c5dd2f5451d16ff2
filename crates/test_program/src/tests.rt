//! A file for each subcommand, or for what several of them share.

mod bags;
mod codes;
mod failures;
mod folders;
mod offices;
mod output;
mod questions;
mod rows;
mod runs;
mod sessions;
mod stores;
mod texts;
mod words;
