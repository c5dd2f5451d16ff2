//! A request, heard from a reader.

ghost use Rattle.std.specs.Prelude.{◌≡◌, ◌≢◌, ℕ, List, Err, IfSome, IsSome};
ghost use Rattle.std.specs.Io.KnownBytes.{Consumes, IsAtEnd};
ghost use Rattle.desk_devices.specs.Devices.{HasFailed, device_of, failures_of, last_error_of};
ghost use Rattle.desk_hearing.specs.Reading.{HeardOf, HeardOfAll};

use crate::fault::HeardFault;
use crate::heard::Heard;
use crate::judging::judge_front;
use crate::question::ask_of;
use desk_devices::{Counted, fill};
use desk_heads::read_head;
use desk_routes::{DeskRefusal, Routes};
use std::alloc::Global;
use std::io::Read;

/// Hears one request. Once the bytes so far decide what is heard, the reader isn't called: another
/// call could fail, and only `Read`, which says that the bytes end too early, allows a failure.
pub fn hear_request<R: Read>(
    alloc: Global,
    routes: &Routes,
    reader: &mut Counted<R>,
) -> Result<Heard, HeardFault>
    ensures given { result ≢ Err HeardFault.Memory
        → (given : List ℕ)
        × Consumes (R.remaining (device_of reader.old)) (R.remaining (device_of reader.new)) given
        × HeardOf given result }
    ensures end { result ≡ Err (HeardFault.Refused DeskRefusal.Truncated)
        → IsAtEnd (R.remaining (device_of reader.new)) }
    ensures calm { result ≢ Err HeardFault.Read
        → failures_of reader.new ≡ failures_of reader.old }
    ensures failed { result ≡ Err HeardFault.Read
        → HasFailed (failures_of reader.old) (failures_of reader.new) }
    ensures reason { result ≡ Err HeardFault.Read → IsSome (last_error_of reader.new) }
    ensures whole { IfSome (R.remaining (device_of reader.old)) (λ input.
        HeardOfAll input result) }
{
    let head = read_head(alloc, reader)?;
    let end = head.end;
    let mut bytes = head.bytes;
    let announced = judge_front(alloc, routes, &bytes[..end])?;
    let whole = end + announced.body_length;
    fill(reader, &mut bytes, whole)?;
    let ask = ask_of(alloc, announced.question, &bytes[end..whole])?;
    bytes.truncate(whole);
    Ok(Heard {
        caller: announced.caller,
        request: ask,
        bytes,
        body: end,
    })
}

/// Hears one request, as `hear_request`, with a table of the routes of its own.
pub fn read_request<R: Read>(alloc: Global, reader: &mut Counted<R>) -> Result<Heard, HeardFault>
    ensures given { result ≢ Err HeardFault.Memory
        → (given : List ℕ)
        × Consumes (R.remaining (device_of reader.old)) (R.remaining (device_of reader.new)) given
        × HeardOf given result }
    ensures end { result ≡ Err (HeardFault.Refused DeskRefusal.Truncated)
        → IsAtEnd (R.remaining (device_of reader.new)) }
    ensures calm { result ≢ Err HeardFault.Read
        → failures_of reader.new ≡ failures_of reader.old }
    ensures failed { result ≡ Err HeardFault.Read
        → HasFailed (failures_of reader.old) (failures_of reader.new) }
    ensures reason { result ≡ Err HeardFault.Read → IsSome (last_error_of reader.new) }
    ensures whole { IfSome (R.remaining (device_of reader.old)) (λ input.
        HeardOfAll input result) }
{
    let routes = Routes::new(alloc)?;
    hear_request(alloc, &routes, reader)
}
