//! One record, answered.

ghost use Rattle.std.specs.Prelude.{◌≡◌, ◌≢◌, Err};
ghost use Rattle.std.specs.Io.KnownBytes.{Appends};
ghost use Rattle.desk_devices.specs.Devices.{HasFailed, device_of, failures_of};
ghost use Rattle.http_desk.specs.Replaying.{AnswersRecord};
ghost use Rattle.http_desk.specs.ReplaySteps.{AnswersNext};

use crate::answer::answer_record;
use desk_devices::{Counted, write_whole};
use desk_routes::Routes;
use desk_serving::{Unanswered, respond};
use office_core::Day;
use office_engine::Office;
use sqlite::Alter;
use std::alloc::Global;
use std::io::Write;

/// Why the record of an answer isn't written.
#[derive(Clone, Copy, Debug, PartialEq, Eq)]
pub(crate) enum Unwritten {
    /// The writer failed.
    Write,
    /// There was no memory.
    Memory {
        /// Whether the request was served, or refused by the desk.
        done: bool,
    },
}

/// Answers the request of a record, and writes the record of the answer. The request is heard as an
/// input of its own, which ends with its bytes.
pub(crate) fn answer_next<S: Alter, W: Write>(
    alloc: Global,
    routes: &Routes,
    office: &mut Office<S>,
    writer: &mut Counted<W>,
    day: Day,
    bytes: &[u8],
) -> Result<(), Unwritten>
    ensures answered { AnswersNext
        (AnswersRecord S.Store (record { day = day; bytes = bytes.now }) office.old office.new)
        (office.new ≡ office.old)
        (Appends (W.contents (device_of writer.old)) (W.contents (device_of writer.new))) result }
    ensures failed { result ≡ Err Unwritten.Write
        → HasFailed (failures_of writer.old) (failures_of writer.new) }
    ensures calm { result ≢ Err Unwritten.Write
        → failures_of writer.new ≡ failures_of writer.old }
{
    let mut request = Counted::new(bytes);
    match respond(alloc, routes, office, day, &mut request) {
        Ok(response) => match answer_record(alloc, &response.bytes) {
            Ok(record) => match write_whole(writer, &record) {
                Ok(()) => Ok(()),
                Err(_) => Err(Unwritten::Write),
            },
            Err(_) => Err(Unwritten::Memory { done: true }),
        },
        Err(Unanswered::Memory { done }) => Err(Unwritten::Memory { done }),
        // The bytes are in memory, of which no read fails.
        Err(Unanswered::Read) => Err(Unwritten::Memory { done: false }),
    }
}
