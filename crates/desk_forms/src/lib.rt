//! What queries, bodies and paths say: each is read into values of its own, which own their text.
#![tactic(auto)]

mod body;
pub mod laws;
mod path;
mod query;

pub use body::{BodyFault, HoldBody, check_no_body, read_hold, read_years};
pub use path::{OwnedPath, decode_path};
pub use query::{Listing, QueryFault, check_no_query, read_deposit_query, read_listing};
