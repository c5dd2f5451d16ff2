//! Why a form, a bag or a policy is refused, in words: a sentence for each fault, with its code at
//! the end.
#![tactic(auto)]

mod bag;
mod bag_reason;
mod denial;
mod escaped;
mod folder;
mod form;
mod in_words;
pub mod laws;
mod location;
mod manifest_line;
mod number;
mod other_file;
mod path_note;
mod policy;
mod reason;
mod rule_location;
mod tag_files;
mod toml_line;

pub use bag_reason::bag_lines;
pub use denial::{DenyingRule, undecided_words};
pub use escaped::Escaped;
pub use folder::{FolderWords, OddCause, OddEntry, TooLarge, exists_words, undeclared_words};
pub use form::{TooLong, form_lines, hint_for};
pub use in_words::InWords;
pub use other_file::OtherFile;
pub use policy::{Unlisted, missing_day_words};
pub use reason::policy_reason;
