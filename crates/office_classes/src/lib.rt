//! What an office is set up with, over its tables: classes, collections and the policy.
#![tactic(auto)]

mod classes;
mod collections;
mod policy;

pub use classes::define_class;
pub use collections::define_collection;
pub use policy::install;
