//! An office that is stopped, and found again in its files.
#![tactic(auto)]

mod stops;

pub use stops::{StoppedRun, reopen, stop_in, stop_in_run};
