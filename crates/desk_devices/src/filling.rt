//! Bytes that follow a head, read from a device.

ghost use Rattle.std.specs.Prelude.{◌≡◌, ◌≢◌, ◌<◌, ◌≤◌, ◌++◌, ℕ, List, vec_len, Err, OnOk, OnErr, IsSome};
ghost use Rattle.std.specs.Io.KnownBytes.{Consumes, IsAtEnd};
ghost use Rattle.desk_devices.specs.Devices.{HasFailed, device_of, failures_of, last_error_of};

use crate::counted::Counted;
use std::io::Read;

/// Why the bytes didn't come.
#[derive(Clone, Copy, Debug, PartialEq, Eq)]
pub enum FillFault {
    /// The input ended before.
    Truncated,
    /// The reader failed before.
    Read,
    /// There was no memory.
    Memory,
}

/// Reads on until there are at least this many bytes: what the reader gives is added to them. The
/// reader isn't called once they are there: another call could fail, and only `Read`, which says
/// that there were too few, allows a failure.
pub fn fill<R: Read>(
    reader: &mut Counted<R>,
    bytes: &mut Vec<u8>,
    want: usize,
) -> Result<(), FillFault>
    ensures given { result ≢ Err FillFault.Memory
        → (more : List ℕ) × (bytes.new.items ≡ bytes.old.items ++ more)
        × Consumes (R.remaining (device_of reader.old)) (R.remaining (device_of reader.new)) more }
    ensures ok { OnOk result (want ≤ vec_len bytes.new) }
    ensures short { OnErr result (vec_len bytes.new < want) }
    ensures end { result ≡ Err FillFault.Truncated
        → IsAtEnd (R.remaining (device_of reader.new)) }
    ensures calm { result ≢ Err FillFault.Read
        → failures_of reader.new ≡ failures_of reader.old }
    ensures failed { result ≡ Err FillFault.Read
        → HasFailed (failures_of reader.old) (failures_of reader.new) }
    ensures reason { result ≡ Err FillFault.Read → IsSome (last_error_of reader.new) }
{
    let mut chunk = [0u8; 16384];
    'fills: while bytes.len() < want {
        match reader.read(&mut chunk) {
            Ok(0) => return Err(FillFault::Truncated),
            Ok(n) => {
                if bytes.extend_from_slice(&chunk[..n]).is_err() {
                    return Err(FillFault::Memory);
                }
            }
            Err(_) => return Err(FillFault::Read),
        }
    }
    Ok(())
}
