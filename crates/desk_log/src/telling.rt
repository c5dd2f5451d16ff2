//! Writing lines to the log.

ghost use Rattle.std.specs.Prelude.{◌∷◌, []};
ghost use Rattle.desk_log.specs.Lines.{end_line};
ghost use Rattle.desk_log.specs.Logging.{IsLogged, log_of};

use crate::lines::{Line, end_line};
use desk_devices::{Counted, write_whole};
use std::io::Write;

/// Tells the log a line. Where that fails, the rest of the line is dropped.
pub(crate) fn tell<E: Write>(line: &Line, log: &mut Counted<E>)
    ensures { IsLogged (line.now.bytes ∷ []) (log_of E.Write log.old) (log_of E.Write log.new) }
{
    let _ = write_whole(log, line.as_str().as_bytes());
}

/// Logs that as many connections were served as were asked for.
pub fn tell_end<E: Write>(count: u32, log: &mut Counted<E>)
    ensures { IsLogged (end_line count ∷ []) (log_of E.Write log.old) (log_of E.Write log.new) }
{
    tell(&end_line(count), log);
}
