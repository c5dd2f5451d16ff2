//! Reading to the end, or up to a limit.

ghost use Rattle.std.specs.Prelude.{◌≡◌, ◌≤◌, IfOk, IfSome, OnOk, length, take};
ghost use Rattle.std.specs.Io.KnownBytes.{Consumes, IsAtEnd};

use std::alloc::Global;
use std::io;
use std::io::{Error, ErrorKind, Read};

/// Reads all that the reader gives, to its end.
pub fn read_whole<R: Read>(alloc: Global, reader: &mut R) -> io::Result<Vec<u8>>
    // Where it is known what the reader has left, the bytes are all of it.
    ensures given { IfOk result (λ bytes. IfSome (R.remaining reader.old)
        (λ given. bytes.items ≡ given)) }
    // The reader has lost just these bytes, and is at its end.
    ensures consumed { IfOk result (λ bytes.
        Consumes (R.remaining reader.old) (R.remaining reader.new) bytes.items) }
    ensures end { OnOk result (IsAtEnd (R.remaining reader.new)) }
{
    let mut bytes = Vec::new(alloc);
    reader.read_to_end(&mut bytes)?;
    Ok(bytes)
}

/// Reads to the end, or as many bytes as this at most. `Read::take` doesn't say what its reader has
/// lost, so the bytes come through a chunk.
pub fn read_at_most<R: Read>(alloc: Global, limit: u64, reader: &mut R) -> io::Result<Vec<u8>>
    // Where it is known what the reader has left, the bytes are the first of it, up to the limit.
    ensures given { IfOk result (λ bytes. IfSome (R.remaining reader.old)
        (λ given. bytes.items ≡ take limit given)) }
    // The reader has lost just these bytes.
    ensures consumed { IfOk result (λ bytes.
        Consumes (R.remaining reader.old) (R.remaining reader.new) bytes.items) }
    // There are no more than the limit, whatever the reader has left.
    ensures most { IfOk result (λ bytes. length bytes.items ≤ limit) }
{
    let mut bytes = Vec::new(alloc);
    let mut chunk = [0u8; 16384];
    let mut left = limit;
    'reads: for _ in 0..u64::MAX {
        if left == 0 {
            return Ok(bytes);
        }
        let room = left.min(chunk.len() as u64) as usize;
        match reader.read(&mut chunk[..room]) {
            Ok(0) => return Ok(bytes),
            Ok(count) => {
                bytes.extend_from_slice(&chunk[..count])?;
                left -= count as u64;
            }
            Err(error) => {
                if error.kind() != ErrorKind::Interrupted {
                    return Err(error);
                }
            }
        }
    }
    Err(Error::from(ErrorKind::Interrupted))
}
