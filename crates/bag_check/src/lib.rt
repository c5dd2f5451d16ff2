//! Whether a bag is complete and valid (RFC 8493, section 3), and why it isn't.
#![tactic(auto)]

mod breach;
mod check;
mod digest;
mod digests;
mod display;
mod fault;
mod info;
pub mod laws;
mod listed;
mod names;
mod oxum;
mod payload;
mod report;
mod rule;

pub use bag_text::BagReport;
pub use check::{check_and_digest, check_bag};
pub use digest::digest_matches;
pub use fault::BagFault;
pub use payload::{PayloadCounts, count_payload};
pub use report::DigestedReport;
