//! One request, heard, served and answered.

ghost use Rattle.std.specs.Prelude.{◌≡◌, ◌≢◌, ◌<◌, ℕ, Bool, List, length, take, true, false, None, Err, OnOk, IfOk, IfSome};
ghost use Rattle.std.specs.Io.KnownBytes.{Appends, Consumes, IsAtEnd};
ghost use Rattle.sqlite.specs.Held.{state};
ghost use Rattle.office_core.specs.declared.answer.Answer.{Answer};
ghost use Rattle.desk_devices.specs.Devices.{HasFailed, device_of, failures_of};
ghost use Rattle.desk_answers.specs.Answers.{answer_text};
ghost use Rattle.desk_hearing.specs.Hearing.{Hears};
ghost use Rattle.desk_log.specs.Notes.{note_of};
ghost use Rattle.desk_serving.specs.Serving.{IsAnswered, IsHeardServed, IsNoted, ServesBytes, ServesNoted};

use crate::telling::bytes_and_note;
use desk_answers::refusal_bytes;
use desk_devices::{Counted, write_whole};
use desk_hearing::{Heard, HeardFault, hear_request};
use desk_log::OfficeNote;
use desk_routes::{DeskRefusal, Routes};
use office_core::Day;
use office_engine::Office;
use sqlite::Alter;
use std::alloc::{AllocError, Global};
use std::io::{Read, Write};

/// Why a request is not answered, or not to its end.
#[derive(Clone, Copy, Debug, PartialEq, Eq)]
pub enum DeskFault {
    /// The reader failed before the bytes decided what is asked. Nothing was done.
    Read,
    /// The writer failed. A beginning of the answer may have been written.
    Write {
        /// Whether the office served the request.
        done: bool,
    },
    /// There was no memory. Nothing was written.
    Memory {
        /// Whether the office served the request.
        done: bool,
    },
}

/// The bytes that answer a request.
#[derive(Debug, Drop)]
pub struct Response {
    /// The answer, or the desk's refusal.
    pub bytes: Vec<u8>,
    /// Whether the office served the request: the desk may have refused it.
    pub done: bool,
}

/// Why there are no bytes that answer a request.
#[derive(Clone, Copy, Debug, PartialEq, Eq)]
pub enum Unanswered {
    /// The reader failed.
    Read,
    /// There was no memory.
    Memory {
        /// Whether the office served the request.
        done: bool,
    },
}

/// Has the office serve what was heard, and lets go of that: the bytes of the answer, and what is noted of it.
fn answer_heard<S: Alter>(
    alloc: Global,
    office: &mut Office<S>,
    day: Day,
    heard: Heard,
) -> (Result<Vec<u8>, AllocError>, OfficeNote)
    ensures { (answer : Answer)
        × (it : IsHeardServed day heard (state S.Store office.old) (state S.Store office.new)
        answer)
        × IfOk result.0 (λ bytes. bytes.items ≡ answer_text answer)
        × (result.1 ≡ note_of it.item.2 answer) }
{
    let request = heard.request();
    let answer = office.step(alloc, day, heard.caller(), &request);
    let told = bytes_and_note(alloc, &request, answer);
    // A call: let go at the brace, it would be let go here part by part, for each kind of request.
    drop(heard);
    told
}

/// Hears a request, and has the office serve it: the bytes that answer, and what is noted of the office's
/// answer.
fn respond_noting<S: Alter, R: Read>(
    alloc: Global,
    routes: &Routes,
    office: &mut Office<S>,
    day: Day,
    reader: &mut Counted<R>,
) -> (Result<Response, Unanswered>, Option<OfficeNote>)
    ensures answered { IfOk result.0 (λ response.
        (given : List ℕ)
        × Consumes (R.remaining (device_of reader.old)) (R.remaining (device_of reader.new)) given
        × IsNoted S.Store (record { day = day; bytes = given })
        (record { text = response.bytes.items; done = response.done; note = result.1 })
        office.old office.new
        × (Hears given (Err DeskRefusal.Truncated)
        → IsAtEnd (R.remaining (device_of reader.new)))) }
    ensures read { result.0 ≡ Err Unanswered.Read
        → (given : List ℕ)
        × Consumes (R.remaining (device_of reader.old)) (R.remaining (device_of reader.new)) given
        × Hears given (Err DeskRefusal.Truncated)
        × HasFailed (failures_of reader.old) (failures_of reader.new)
        × (office.new ≡ office.old) × (result.1 ≡ None) }
    ensures served { result.0 ≡ Err (Unanswered.Memory true)
        → (given : List ℕ) × (answer : Answer)
        × Consumes (R.remaining (device_of reader.old)) (R.remaining (device_of reader.new)) given
        × ServesNoted (record { day = day; bytes = given }) result.1
        (state S.Store office.old) (state S.Store office.new) answer }
    ensures not_served { result.0 ≡ Err (Unanswered.Memory false)
        → (office.new ≡ office.old) × (result.1 ≡ None) }
    ensures calm { result.0 ≢ Err Unanswered.Read
        → failures_of reader.new ≡ failures_of reader.old }
    // Where all that the reader has is known, it is all that is heard.
    ensures whole { IfSome (R.remaining (device_of reader.old)) (λ input. IfOk result.0 (λ response.
        IsNoted S.Store (record { day = day; bytes = input })
        (record { text = response.bytes.items; done = response.done; note = result.1 })
        office.old office.new)) }
    ensures whole_served { result.0 ≡ Err (Unanswered.Memory true)
        → IfSome (R.remaining (device_of reader.old)) (λ input.
        (answer : Answer)
        × ServesNoted (record { day = day; bytes = input }) result.1
        (state S.Store office.old) (state S.Store office.new) answer) }
{
    match hear_request(alloc, routes, reader) {
        Ok(heard) => {
            let (bytes, note) = answer_heard(alloc, office, day, heard);
            match bytes {
                Ok(bytes) => (Ok(Response { bytes, done: true }), Some(note)),
                Err(_) => (Err(Unanswered::Memory { done: true }), Some(note)),
            }
        }
        Err(HeardFault::Refused(refusal)) => match refusal_bytes(alloc, &refusal) {
            Ok(bytes) => (Ok(Response { bytes, done: false }), None),
            Err(_) => (Err(Unanswered::Memory { done: false }), None),
        },
        Err(HeardFault::Read) => (Err(Unanswered::Read), None),
        Err(HeardFault::Memory) => (Err(Unanswered::Memory { done: false }), None),
    }
}

/// Hears a request, and has the office serve it: the bytes that answer.
pub fn respond<S: Alter, R: Read>(
    alloc: Global,
    routes: &Routes,
    office: &mut Office<S>,
    day: Day,
    reader: &mut Counted<R>,
) -> Result<Response, Unanswered>
    ensures answered { IfOk result (λ response.
        (given : List ℕ)
        × Consumes (R.remaining (device_of reader.old)) (R.remaining (device_of reader.new)) given
        × IsAnswered S.Store (record { day = day; bytes = given })
        (record { text = response.bytes.items; done = response.done }) office.old office.new
        × (Hears given (Err DeskRefusal.Truncated)
        → IsAtEnd (R.remaining (device_of reader.new)))) }
    ensures read { result ≡ Err Unanswered.Read
        → (given : List ℕ)
        × Consumes (R.remaining (device_of reader.old)) (R.remaining (device_of reader.new)) given
        × Hears given (Err DeskRefusal.Truncated)
        × HasFailed (failures_of reader.old) (failures_of reader.new)
        × (office.new ≡ office.old) }
    ensures served { result ≡ Err (Unanswered.Memory true)
        → (given : List ℕ) × (answer : Answer)
        × Consumes (R.remaining (device_of reader.old)) (R.remaining (device_of reader.new)) given
        × ServesBytes day given (state S.Store office.old) (state S.Store office.new) answer }
    ensures not_served { result ≡ Err (Unanswered.Memory false) → office.new ≡ office.old }
    ensures calm { result ≢ Err Unanswered.Read
        → failures_of reader.new ≡ failures_of reader.old }
    // Where all that the reader has is known, it is all that is heard.
    ensures whole { IfSome (R.remaining (device_of reader.old)) (λ input. IfOk result (λ response.
        IsAnswered S.Store (record { day = day; bytes = input })
        (record { text = response.bytes.items; done = response.done }) office.old office.new)) }
    ensures whole_served { result ≡ Err (Unanswered.Memory true)
        → IfSome (R.remaining (device_of reader.old)) (λ input.
        (answer : Answer)
        × ServesBytes day input (state S.Store office.old) (state S.Store office.new) answer) }
{
    let (answered, _) = respond_noting(alloc, routes, office, day, reader);
    answered
}

/// As `serve_one`, by this table of the routes, which serves any number of requests; and hands on what is noted of
/// the office's answer, where there was one, whether or not it was written.
pub fn serve_with_routes<S: Alter, R: Read, W: Write>(
    alloc: Global,
    routes: &Routes,
    office: &mut Office<S>,
    day: Day,
    reader: &mut Counted<R>,
    writer: &mut Counted<W>,
) -> (Result<(), DeskFault>, Option<OfficeNote>)
    // The whole answer was written. What was given is cut short only at the end of the input.
    ensures answered { OnOk result.0
        ((given text : List ℕ) × (done : Bool)
        × Consumes (R.remaining (device_of reader.old)) (R.remaining (device_of reader.new)) given
        × IsNoted S.Store (record { day = day; bytes = given })
        (record { text = text; done = done; note = result.1 }) office.old office.new
        × Appends (W.contents (device_of writer.old)) (W.contents (device_of writer.new)) text
        × (Hears given (Err DeskRefusal.Truncated)
        → IsAtEnd (R.remaining (device_of reader.new)))) }
    // The reader failed in this call, and what it gave is no whole request.
    ensures read { result.0 ≡ Err DeskFault.Read
        → (given : List ℕ)
        × Consumes (R.remaining (device_of reader.old)) (R.remaining (device_of reader.new)) given
        × Hears given (Err DeskRefusal.Truncated)
        × HasFailed (failures_of reader.old) (failures_of reader.new)
        × (office.new ≡ office.old)
        × (writer.new ≡ writer.old) × (result.1 ≡ None) }
    // The writer failed in this call, and has a beginning of the answer.
    ensures write { (done : Bool) → result.0 ≡ Err (DeskFault.Write done)
        → (given text : List ℕ) × (count : ℕ)
        × Consumes (R.remaining (device_of reader.old)) (R.remaining (device_of reader.new)) given
        × IsNoted S.Store (record { day = day; bytes = given })
        (record { text = text; done = done; note = result.1 }) office.old office.new
        × (count < length text)
        × Appends (W.contents (device_of writer.old)) (W.contents (device_of writer.new))
        (take count text) × HasFailed (failures_of writer.old) (failures_of writer.new)
        × (Hears given (Err DeskRefusal.Truncated)
        → IsAtEnd (R.remaining (device_of reader.new))) }
    // Memory ran out after the office's answer, or before the office was asked.
    ensures memory_done { result.0 ≡ Err (DeskFault.Memory true)
        → (given : List ℕ) × (answer : Answer)
        × Consumes (R.remaining (device_of reader.old)) (R.remaining (device_of reader.new)) given
        × ServesNoted (record { day = day; bytes = given }) result.1
        (state S.Store office.old) (state S.Store office.new) answer
        × (writer.new ≡ writer.old) }
    ensures memory { result.0 ≡ Err (DeskFault.Memory false)
        → (office.new ≡ office.old) × (writer.new ≡ writer.old) × (result.1 ≡ None) }
    // Where all that the reader has is known, it is all that is answered.
    ensures whole { OnOk result.0
        (IfSome (R.remaining (device_of reader.old)) (λ input.
        (text : List ℕ) × (done : Bool)
        × IsNoted S.Store (record { day = day; bytes = input })
        (record { text = text; done = done; note = result.1 }) office.old office.new
        × Appends (W.contents (device_of writer.old)) (W.contents (device_of writer.new)) text)) }
    ensures whole_write { (done : Bool) → result.0 ≡ Err (DeskFault.Write done)
        → IfSome (R.remaining (device_of reader.old)) (λ input.
        (text : List ℕ) × (count : ℕ)
        × IsNoted S.Store (record { day = day; bytes = input })
        (record { text = text; done = done; note = result.1 }) office.old office.new
        × (count < length text)
        × Appends (W.contents (device_of writer.old)) (W.contents (device_of writer.new))
        (take count text)) }
    ensures whole_memory_done { result.0 ≡ Err (DeskFault.Memory true)
        → IfSome (R.remaining (device_of reader.old)) (λ input.
        (answer : Answer)
        × ServesNoted (record { day = day; bytes = input }) result.1
        (state S.Store office.old) (state S.Store office.new) answer) }
    ensures calm_reader { result.0 ≢ Err DeskFault.Read
        → failures_of reader.new ≡ failures_of reader.old }
    ensures calm_writer { ((done : Bool) → result.0 ≢ Err (DeskFault.Write done))
        → failures_of writer.new ≡ failures_of writer.old }
{
    let (answered, note) = respond_noting(alloc, routes, office, day, reader);
    match answered {
        Ok(Response { bytes, done }) => match write_whole(writer, &bytes) {
            Ok(()) => (Ok(()), note),
            Err(_) => (Err(DeskFault::Write { done }), note),
        },
        Err(Unanswered::Read) => (Err(DeskFault::Read), note),
        Err(Unanswered::Memory { done }) => (Err(DeskFault::Memory { done }), note),
    }
}

/// Hears one request, has the office serve it on that day, and writes the answer.
///
/// A request that the desk refuses is answered by that refusal, and the office is as it was. What is
/// written is written after the office has committed what the answer says.
pub fn serve_one<S: Alter, R: Read, W: Write>(
    alloc: Global,
    office: &mut Office<S>,
    day: Day,
    reader: &mut Counted<R>,
    writer: &mut Counted<W>,
) -> Result<(), DeskFault>
    // The whole answer was written. What was given is cut short only at the end of the input.
    ensures answered { OnOk result
        ((given text : List ℕ) × (done : Bool)
        × Consumes (R.remaining (device_of reader.old)) (R.remaining (device_of reader.new)) given
        × IsAnswered S.Store (record { day = day; bytes = given })
        (record { text = text; done = done }) office.old office.new
        × Appends (W.contents (device_of writer.old)) (W.contents (device_of writer.new)) text
        × (Hears given (Err DeskRefusal.Truncated)
        → IsAtEnd (R.remaining (device_of reader.new)))) }
    // The reader failed in this call, and what it gave is no whole request.
    ensures read { result ≡ Err DeskFault.Read
        → (given : List ℕ)
        × Consumes (R.remaining (device_of reader.old)) (R.remaining (device_of reader.new)) given
        × Hears given (Err DeskRefusal.Truncated)
        × HasFailed (failures_of reader.old) (failures_of reader.new)
        × (office.new ≡ office.old)
        × (writer.new ≡ writer.old) }
    // The writer failed in this call, and has a beginning of the answer.
    ensures write { (done : Bool) → result ≡ Err (DeskFault.Write done)
        → (given text : List ℕ) × (count : ℕ)
        × Consumes (R.remaining (device_of reader.old)) (R.remaining (device_of reader.new)) given
        × IsAnswered S.Store (record { day = day; bytes = given })
        (record { text = text; done = done }) office.old office.new × (count < length text)
        × Appends (W.contents (device_of writer.old)) (W.contents (device_of writer.new))
        (take count text) × HasFailed (failures_of writer.old) (failures_of writer.new)
        × (Hears given (Err DeskRefusal.Truncated)
        → IsAtEnd (R.remaining (device_of reader.new))) }
    // Memory ran out after the office's answer, or before the office was asked.
    ensures memory_done { result ≡ Err (DeskFault.Memory true)
        → (given : List ℕ) × (answer : Answer)
        × Consumes (R.remaining (device_of reader.old)) (R.remaining (device_of reader.new)) given
        × ServesBytes day given (state S.Store office.old) (state S.Store office.new) answer
        × (writer.new ≡ writer.old) }
    ensures memory { result ≡ Err (DeskFault.Memory false)
        → (office.new ≡ office.old) × (writer.new ≡ writer.old) }
    // Where all that the reader has is known, it is all that is answered.
    ensures whole { OnOk result
        (IfSome (R.remaining (device_of reader.old)) (λ input.
        (text : List ℕ) × (done : Bool)
        × IsAnswered S.Store (record { day = day; bytes = input })
        (record { text = text; done = done }) office.old office.new
        × Appends (W.contents (device_of writer.old)) (W.contents (device_of writer.new)) text)) }
    ensures whole_write { (done : Bool) → result ≡ Err (DeskFault.Write done)
        → IfSome (R.remaining (device_of reader.old)) (λ input.
        (text : List ℕ) × (count : ℕ)
        × IsAnswered S.Store (record { day = day; bytes = input })
        (record { text = text; done = done }) office.old office.new × (count < length text)
        × Appends (W.contents (device_of writer.old)) (W.contents (device_of writer.new))
        (take count text)) }
    ensures whole_memory_done { result ≡ Err (DeskFault.Memory true)
        → IfSome (R.remaining (device_of reader.old)) (λ input.
        (answer : Answer)
        × ServesBytes day input (state S.Store office.old) (state S.Store office.new) answer) }
    ensures calm_reader { result ≢ Err DeskFault.Read
        → failures_of reader.new ≡ failures_of reader.old }
    ensures calm_writer { ((done : Bool) → result ≢ Err (DeskFault.Write done))
        → failures_of writer.new ≡ failures_of writer.old }
{
    let Ok(routes) = Routes::new(alloc) else {
        return Err(DeskFault::Memory { done: false });
    };
    let (ended, _) = serve_with_routes(alloc, &routes, office, day, reader, writer);
    ended
}
