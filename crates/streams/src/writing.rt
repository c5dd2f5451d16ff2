//! Writing bytes and texts whole.

ghost use Rattle.std.specs.Prelude.{OnOk, take};
ghost use Rattle.std.specs.Io.KnownBytes.{Appends};
ghost use Rattle.streams.specs.Writing.{IsCutShort};

use std::io;
use std::io::{Error, ErrorKind, Write};

/// Writes bytes whole and flushes them. A call that was interrupted is tried again. A writer that fails
/// has taken a beginning of the bytes, which `write_all` doesn't say.
pub fn write_bytes<W: Write>(bytes: &[u8], writer: &mut W) -> io::Result<()>
    // The bytes follow what the writer held.
    ensures whole { OnOk result
        (Appends (W.contents writer.old) (W.contents writer.new) bytes.now) }
    // Whatever comes of it, a beginning of them does.
    ensures written { IsCutShort bytes.now (W.contents writer.old) (W.contents writer.new) }
{
    let mut rest = bytes;
    'writes: for _ in 0..u64::MAX {
        if rest.is_empty() {
            return writer.flush();
        }
        match writer.write(rest) {
            Ok(0) => break,
            Ok(count) => rest = &rest[count..],
            Err(error) => {
                if error.kind() != ErrorKind::Interrupted {
                    return Err(error);
                }
            }
        }
    }
    Err(Error::from(ErrorKind::WriteZero))
}

/// Writes a text whole and flushes it, as `write_bytes` does.
pub fn write_text<W: Write>(text: &str, writer: &mut W) -> io::Result<()>
    // The text follows what the writer held.
    ensures whole { OnOk result
        (Appends (W.contents writer.old) (W.contents writer.new) text.now) }
    // Whatever comes of it, a beginning of the text does.
    ensures written { IsCutShort text.now (W.contents writer.old) (W.contents writer.new) }
{
    write_bytes(text.as_bytes(), writer)
}
