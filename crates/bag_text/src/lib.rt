//! The texts of a bag (RFC 8493, section 2): paths, lines, tag files and the transfer form.
#![tactic(auto)]

mod bag_info;
mod bag_list;
mod causes;
mod checksum;
mod clash;
mod declaration;
mod display;
mod header;
mod info;
pub mod laws;
mod lines;
mod listing;
mod manifest;
mod order;
mod path;
mod report;
mod set;
mod set_fault;
mod text;
mod transfer;
mod write;

pub use bag_info::{BagInfo, InfoFault};
pub use causes::{PathCause, path_cause};
pub use checksum::{Algorithm, Checksum};
pub use declaration::{DeclFault, Version, read_declaration};
pub use info::read_bag_info;
pub use lines::line_at;
pub use listing::{LineFault, Listing, Manifest};
pub use manifest::{has_coded, read_manifest};
pub use path::{BagPath, MAX_PATH, PathFault};
pub use report::BagReport;
pub use set::{BagSet, read_bagset};
pub use set_fault::SetFault;
pub use text::{as_text, has_digits_alone};
pub use transfer::{MAX_CONTENT, MAX_FILES, MAX_FORM};
pub use write::write_bagset;
