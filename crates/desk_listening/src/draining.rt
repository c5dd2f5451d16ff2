//! What a peer still sends after its answer, read and dropped.

ghost use Rattle.std.specs.Prelude.{◌≡◌, ◌≢◌, ◌<◌, ◌≤◌, ℕ, List, length};
ghost use Rattle.std.specs.Io.KnownBytes.{Consumes, IsAtEnd};
ghost use Rattle.desk_devices.specs.Devices.{device_of, failures_of, one_more};

use desk_devices::Counted;
use std::io::Read;

/// Why no more is read and dropped.
#[derive(Clone, Copy, Debug, PartialEq, Eq)]
pub enum Drained {
    /// The input ended.
    End,
    /// As many bytes came as are taken.
    Enough,
    /// A read failed, or waited too long.
    Failed,
}

/// Reads and drops what still comes, at most this number of bytes. The reader isn't called again after an
/// end or a failure.
pub fn drain<R: Read>(reader: &mut Counted<R>, most: usize) -> Drained
    ensures given { (given : List ℕ)
        × Consumes (R.remaining (device_of reader.old)) (R.remaining (device_of reader.new)) given
        × (length given ≤ most) × (result ≡ Drained.Enough → length given ≡ most) }
    ensures end { result ≡ Drained.End → IsAtEnd (R.remaining (device_of reader.new)) }
    ensures calm { result ≢ Drained.Failed → failures_of reader.new ≡ failures_of reader.old }
    ensures failed { result ≡ Drained.Failed
        → failures_of reader.new ≡ one_more (failures_of reader.old) }
{
    let mut chunk = [0u8; 8192];
    let mut dropped = 0;
    'drops: while dropped < most {
        let room = chunk.len().min(most - dropped);
        match reader.read(&mut chunk[..room]) {
            Ok(0) => return Drained::End,
            Ok(n) => dropped += n,
            Err(_) => return Drained::Failed,
        }
    }
    Drained::Enough
}
