//! Folders and transfer forms: a folder's files become one form, and the files of a form become a folder.
#![tactic(auto)]

mod failed;
mod folders;
mod form;
pub mod laws;
mod listed;
mod listing;
mod loading;
mod making;
mod order;
mod pack_fault;
mod packing;
mod planning;
mod putting;
mod reading;
mod said;
mod sizes;
mod unpack_fault;
mod unpacking;

pub use failed::{Failed, Tried, Trouble};
pub use folders::Folders;
pub use form::form_of;
pub use listed::{Entry, Found, Kind, Listed, Odd};
pub use listing::found_under;
pub use making::{Maker, folders_of};
pub use pack_fault::PackFault;
pub use packing::{Packed, pack};
pub use planning::plan;
pub use reading::{bag_of, read_form};
pub use said::{Said, pack_said, unpack_said};
pub use unpack_fault::UnpackFault;
pub use unpacking::{Unpacked, unpack, unpack_from};
