//! What the program does with a store: it installs a policy, answers one request, replays
//! records, and serves connections.
#![tactic(auto)]

mod laws;
mod listening;
mod policy_file;
mod printing;
mod running;
mod stores;
mod task;
mod work;
mod working;

pub use laws::{answers_are_runs, deeds_lead_on, files_lead_on, memory_leads_on};
pub use running::perform;
pub use work::Work;
