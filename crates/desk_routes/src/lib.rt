//! The routes of the desk: what a path names, which methods it takes, and what the desk refuses.
#![tactic(auto)]

mod file_path;
pub mod laws;
mod method;
mod number;
mod refusal;
mod resource;
mod route;
mod routes;
mod target;

pub use file_path::FilePath;
pub use method::Method;
pub use refusal::DeskRefusal;
pub use resource::{PathPattern, Resource};
pub use route::Route;
pub use routes::Routes;
pub use target::split_target;
