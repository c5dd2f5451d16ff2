//! Offices are served, and stopped.

use crate::listening::drop_all;
use crate::offices::{Part, Task, perform};
use crate::stops::take_stops;
use desk_listening::Patience;
use sqlite::Options;
use std::test::Fail;
use std::time::Duration;
use test_sessions::{MANY, empty};

/// Each part is put to an office of its own, in files that don't stop, with caches that hold all
/// pages.
pub fn offices_are_served(rt: &HostRuntime) -> Result<(), Fail> {
    let parts = [
        Part::Requests,
        Part::Records,
        Part::Peers,
        Part::Holds,
        Part::Rules,
    ];
    for part in parts {
        let files = empty(rt.alloc(), MANY, MANY);
        let (visit, _) = perform(rt, files, Options::new(7), Task::Make(part))?;
        visit.ok_or("no office is served")?;
    }
    Ok(())
}

/// The session is taken over files that stop at each of their calls.
pub fn an_office_is_found_again_where_its_files_stop(rt: &HostRuntime) -> Result<(), Fail> {
    take_stops(rt)
}

/// How long an office waits, and how much it drops.
pub fn the_patience_of_an_office() -> Result<(), Fail> {
    let patience = Patience::default();
    if patience.talk != Duration::from_secs(30)
        || patience.rest != Duration::from_secs(1)
        || patience.rest_bytes != 16_777_216
    {
        return Err("an office has another patience".into());
    }
    Ok(())
}

/// What still comes after a request is read and dropped, up to a limit.
pub fn what_still_comes_is_dropped() -> Result<(), Fail> {
    drop_all()
}
