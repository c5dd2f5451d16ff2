//! The head of a request, read from a device.

ghost use Rattle.std.specs.Prelude.{◌≡◌, ◌≢◌, ◌<◌, ◌≤◌, ℕ, List, [], length, vec_len, Err, IfOk, OnOk, IfSome, IsSome};
ghost use Rattle.std.specs.Io.KnownBytes.{Consumes};
ghost use Rattle.desk_devices.specs.Devices.{HasFailed, device_of, failures_of, last_error_of};
ghost use Rattle.desk_heads.specs.Bounds.{max_head};
ghost use Rattle.desk_heads.specs.HeadReading.{EndRead, EndOf, HeadRead, HeadOf};

use crate::head_end::{HeadEnd, find_head_end};
use desk_devices::Counted;
use std::alloc::Global;
use std::io::Read;

/// The bytes of a request that have been read up to the end of its head, and perhaps further.
#[derive(Debug, Drop)]
pub struct HeadBytes {
    /// What the reader gave: the head, and perhaps a beginning of what follows it.
    pub bytes: Vec<u8>,
    /// How many bytes of it are the head.
    pub end: usize,
}

/// Why no head was read.
#[derive(Clone, Copy, Debug, PartialEq, Eq)]
pub enum HeadFault {
    /// The first 8,192 bytes have no head.
    TooLarge,
    /// The input ended before a head did.
    Truncated,
    /// The reader failed before a head came.
    Read,
    /// There was no memory.
    Memory,
}

/// Adds to the bytes, of which there are none yet, until they have a head, and answers its length.
fn read_to_end_of_head<R: Read>(
    reader: &mut Counted<R>,
    bytes: &mut Vec<u8>,
) -> Result<usize, HeadFault>
    requires { bytes.old.items ≡ [] }
    ensures given { result ≢ Err HeadFault.Memory
        → Consumes (R.remaining (device_of reader.old))
        (R.remaining (device_of reader.new)) bytes.new.items }
    ensures head { EndRead bytes.new.items result (R.remaining (device_of reader.new)) }
    ensures calm { result ≢ Err HeadFault.Read
        → failures_of reader.new ≡ failures_of reader.old }
    ensures failed { result ≡ Err HeadFault.Read
        → HasFailed (failures_of reader.old) (failures_of reader.new) }
    ensures reason { result ≡ Err HeadFault.Read → IsSome (last_error_of reader.new) }
    ensures within { IfOk result (λ n. (n ≤ length bytes.new.items) × (n ≤ max_head)) }
    ensures whole { IfSome (R.remaining (device_of reader.old)) (λ input. EndOf input result) }
{
    let mut chunk = [0u8; 1024];
    'reads: loop {
        match find_head_end(bytes) {
            HeadEnd::Found(n) => return Ok(n),
            HeadEnd::TooLarge => return Err(HeadFault::TooLarge),
            HeadEnd::Short => {}
        }
        match reader.read(&mut chunk) {
            Ok(0) => return Err(HeadFault::Truncated),
            Ok(n) => {
                let Ok(()) = bytes.extend_from_slice(&chunk[..n]) else {
                    return Err(HeadFault::Memory);
                };
            }
            Err(_) => return Err(HeadFault::Read),
        }
    }
}

/// Reads until the bytes so far decide what the head is. From then on the reader isn't called:
/// another call could fail, and only `Read`, which says that no head had come, allows a failure.
pub fn read_head<R: Read>(alloc: Global, reader: &mut Counted<R>) -> Result<HeadBytes, HeadFault>
    ensures given { result ≢ Err HeadFault.Memory → (given : List ℕ)
        × Consumes (R.remaining (device_of reader.old)) (R.remaining (device_of reader.new)) given
        × HeadRead given result (R.remaining (device_of reader.new)) }
    ensures calm { result ≢ Err HeadFault.Read
        → failures_of reader.new ≡ failures_of reader.old }
    ensures failed { result ≡ Err HeadFault.Read
        → HasFailed (failures_of reader.old) (failures_of reader.new) }
    ensures reason { result ≡ Err HeadFault.Read → IsSome (last_error_of reader.new) }
    ensures within { IfOk result (λ head. (head.end ≤ vec_len head.bytes)
        × (head.end ≤ max_head)) }
    ensures whole { IfSome (R.remaining (device_of reader.old)) (λ input. HeadOf input result) }
{
    let mut bytes = Vec::new(alloc);
    let end = read_to_end_of_head(reader, &mut bytes)?;
    Ok(HeadBytes { bytes, end })
}
