//! The files of deposits and their contents: their SQL statements, each by a typed call.
#![tactic(auto)]

mod content;
mod fault;
mod files;
mod run;
mod version;

pub use content::{ContentSize, contents, rows_of_contents, size_in};
pub use fault::{Result, TableFault};
pub use files::{
    FileRow, drop_files, file_of, files_of, intact_file_of, intact_files_of, put_file, put_marked,
};
pub use run::{ask, change};
pub use version::{NEWEST_VERSION, TableVersion};
