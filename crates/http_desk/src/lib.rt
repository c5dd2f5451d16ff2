//! The desk: bytes of HTTP in, exact bytes of answers out, over an office. Here are replays: records of requests, each
//! answered in turn by the record of its answer. The calls on one request are in the crates `desk_*`, and those on a
//! whole request are handed on.
#![tactic(auto)]

mod answer;
mod answering;
mod digits;
pub mod laws;
mod record;
mod replaying;

pub use answer::answer_record;
pub use desk_answers::answer_bytes;
pub use desk_devices::{Counted, FailAt, Portion};
pub use desk_hearing::{Heard, HeardFault, read_request};
pub use desk_routes::DeskRefusal;
pub use desk_serving::{DeskFault, serve_one, serve_with_routes};
pub use digits::MAX_REQUEST;
pub use record::{Found, record_at};
pub use replaying::{ReplayFault, ReplayStop, replay};
