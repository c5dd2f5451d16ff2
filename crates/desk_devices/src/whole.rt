//! Bytes that are written whole.

ghost use Rattle.std.specs.Prelude.{◌≡◌, ℕ, ◌<◌, length, take, OnOk, OnErr, IsSome};
ghost use Rattle.std.specs.Io.KnownBytes.{Appends};
ghost use Rattle.desk_devices.specs.Devices.{HasFailed, device_of, failures_of, last_error_of};

use crate::counted::Counted;
use std::io::Write;

/// The writer failed. A beginning of the bytes may have been written.
#[derive(Clone, Copy, Debug, PartialEq, Eq)]
pub struct WriteFailed;

/// Writes all of the bytes. Where the writer fails, it isn't called again, and what has been
/// written is a beginning of the bytes, not all of them.
pub fn write_whole<W: Write>(writer: &mut Counted<W>, bytes: &[u8]) -> Result<(), WriteFailed>
    ensures ok { OnOk result
        (Appends (W.contents (device_of writer.old))
        (W.contents (device_of writer.new)) bytes.now) }
    ensures calm { OnOk result (failures_of writer.new ≡ failures_of writer.old) }
    ensures beginning { OnErr result
        ((n : ℕ) × (n < length bytes.now)
        × Appends (W.contents (device_of writer.old)) (W.contents (device_of writer.new))
        (take n bytes.now)) }
    ensures failed { OnErr result (HasFailed (failures_of writer.old) (failures_of writer.new)) }
    ensures reason { OnErr result (IsSome (last_error_of writer.new)) }
{
    let mut at = 0;
    'writes: while at < bytes.len() {
        match writer.write(&bytes[at..]) {
            Ok(n) if n > 0 => at += n,
            _ => return Err(WriteFailed),
        }
    }
    Ok(())
}
