//! A file for each crate, or for what several of them share.

mod bags;
mod command_lines;
mod devices;
mod failing;
mod folder_devices;
mod folder_limits;
mod folders;
mod limits;
mod policies;
mod readers;
mod rows;
mod texts;
mod whole_streams;
mod words;
