//! Records of requests, replayed.

ghost use Rattle.std.specs.Prelude.{◌≡◌, ◌≢◌, ◌≤◌, ◌<◌, ◌+◌, ℕ, List, length, Err, Ok, IfErr, OnOk, MatchResult};
ghost use Rattle.desk_devices.specs.Devices.{HasFailed, device_of, failures_of};
ghost use Rattle.http_desk.specs.RecordLists.{max_records};
ghost use Rattle.http_desk.specs.Replaying.{Replayed, moment_of};
ghost use Rattle.http_desk.specs.ReplaySteps.{FoundAfter, ReadsMore, fault_after};

use crate::answering::{Unwritten, answer_next};
use crate::record::{Found, record_at};
use desk_devices::Counted;
use desk_routes::Routes;
use office_engine::Office;
use sqlite::Alter;
use std::alloc::Global;
use std::io::{Read, Write};

/// The most records of an input.
const MAX_RECORDS: u64 = 1_000_000;

/// Why a replay did not come to the end of its input.
#[derive(Clone, Copy, Debug, PartialEq, Eq)]
pub enum ReplayStop {
    /// What is where a record may begin is no record, or follows as many as there may be.
    BadRecord {
        /// The record's number, counted from 1.
        index: u64,
    },
    /// The reader failed.
    Read,
    /// The writer failed. A beginning of the next answer's record may have been written.
    Write,
    /// There was no memory.
    Memory,
}

/// A replay that did not come to the end of its input.
#[derive(Clone, Copy, Debug, PartialEq, Eq)]
pub struct ReplayFault {
    /// Why it stopped.
    pub stop: ReplayStop,
    /// How many requests were served by the office, or refused by the desk.
    pub done: u64,
    /// How many answers' records were written whole.
    pub answered: u64,
}

impl ReplayFault {
    /// A stop between two records, after this number of answered ones.
    fn between(stop: ReplayStop, count: u64) -> ReplayFault
        ensures { result ≡ record { stop = stop; done = count; answered = count } }
    {
        ReplayFault {
            stop,
            done: count,
            answered: count,
        }
    }

    /// A stop where no record follows this number of records.
    fn bad_record(count: u64) -> ReplayFault
        requires { count ≤ max_records }
        ensures { result
            ≡ record { stop = ReplayStop.BadRecord (count + 1); done = count; answered = count } }
    {
        ReplayFault::between(ReplayStop::BadRecord { index: count + 1 }, count)
    }

    /// A stop at the record after this number of them.
    fn after(count: u64, unwritten: Unwritten) -> ReplayFault
        requires { count < max_records }
        ensures { result ≡ fault_after count unwritten }
    {
        let next = ReplayFault {
            stop: ReplayStop::Memory,
            done: count + 1,
            answered: count,
        };
        match unwritten {
            Unwritten::Write => ReplayFault {
                stop: ReplayStop::Write,
                ..next
            },
            Unwritten::Memory { done: true } => next,
            Unwritten::Memory { done: false } => ReplayFault {
                done: count,
                ..next
            },
        }
    }
}

/// What follows this number of records. After as many as there may be, anything is no record.
fn found_after(count: u64, pending: &[u8]) -> Found<'_>
    requires { count ≤ max_records }
    ensures { FoundAfter count result pending.now }
{
    if pending.is_empty() {
        Found::More
    } else if count == MAX_RECORDS {
        Found::Bad
    } else {
        record_at(pending)
    }
}

/// Reads on, by one call of the reader, and adds what it gives. Whether it gave anything: it gives
/// nothing at the end of the input.
fn read_more<R: Read>(reader: &mut Counted<R>, pending: &mut Vec<u8>) -> Result<bool, ReplayStop>
    ensures more { ReadsMore (R.remaining (device_of reader.old))
        (R.remaining (device_of reader.new)) pending.old.items pending.new.items result }
    ensures failed { result ≡ Err ReplayStop.Read
        → HasFailed (failures_of reader.old) (failures_of reader.new) }
    ensures calm { result ≢ Err ReplayStop.Read
        → failures_of reader.new ≡ failures_of reader.old }
{
    let mut chunk = [0u8; 4096];
    match reader.read(&mut chunk) {
        Ok(0) => Ok(false),
        Ok(n) => match pending.extend_from_slice(&chunk[..n]) {
            Ok(()) => Ok(true),
            Err(_) => Err(ReplayStop::Memory),
        },
        Err(_) => Err(ReplayStop::Read),
    }
}

/// Answers the records of requests that the reader gives, one after the other, until its end: the
/// number of records. Each request is served on the day of its record, and its answer is written
/// before the reader is called again.
pub fn replay<S: Alter, R: Read, W: Write>(
    alloc: Global,
    office: &mut Office<S>,
    reader: &mut Counted<R>,
    writer: &mut Counted<W>,
) -> Result<u64, ReplayFault>
    ensures replayed { Replayed S.Store
        (moment_of R.Read W.Write office.old reader.old writer.old)
        (moment_of R.Read W.Write office.new reader.new writer.new) result }
    ensures read { IfErr result (λ fault.
        fault.stop ≡ ReplayStop.Read
        → HasFailed (failures_of reader.old) (failures_of reader.new)) }
    ensures written { IfErr result (λ fault.
        fault.stop ≡ ReplayStop.Write
        → HasFailed (failures_of writer.old) (failures_of writer.new)) }
    ensures calm_reader { MatchResult result (λ _.
        failures_of reader.new ≡ failures_of reader.old)
        (λ fault. fault.stop ≢ ReplayStop.Read
        → failures_of reader.new ≡ failures_of reader.old) }
    ensures calm_writer { MatchResult result (λ _.
        failures_of writer.new ≡ failures_of writer.old)
        (λ fault. fault.stop ≢ ReplayStop.Write
        → failures_of writer.new ≡ failures_of writer.old) }
{
    let Ok(routes) = Routes::new(alloc) else {
        return Err(ReplayFault::between(ReplayStop::Memory, 0));
    };
    let mut pending = Vec::new(alloc);
    let mut count = 0;
    'records: loop {
        match found_after(count, &pending) {
            Found::Whole { day, bytes, rest } => {
                let Ok(following) = Vec::from_slice(alloc, rest) else {
                    return Err(ReplayFault::between(ReplayStop::Memory, count));
                };
                match answer_next(alloc, &routes, office, writer, day, bytes) {
                    Ok(()) => {}
                    Err(unwritten) => return Err(ReplayFault::after(count, unwritten)),
                }
                pending = following;
                count += 1;
            }
            Found::More => match read_more(reader, &mut pending) {
                Ok(true) => {}
                Ok(false) if pending.is_empty() => return Ok(count),
                Ok(false) => return Err(ReplayFault::bad_record(count)),
                Err(stop) => return Err(ReplayFault::between(stop, count)),
            },
            Found::Bad => return Err(ReplayFault::bad_record(count)),
        }
    }
}
