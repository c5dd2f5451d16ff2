//! A task on a store: with an office in memory, or with one in a file.

ghost use Rattle.std.specs.Prelude.{◌≡◌, false, IfOk};
ghost use Rattle.sqlite.specs.WalFiles.{image_at};
ghost use Rattle.office_commands.specs.Stores.{RunsInMemory, RunsOn};
ghost use Rattle.office_commands.specs.Tasks.{reads_input, writes_log};
ghost use Rattle.office_commands.specs.Traffic.{upshot_of};
ghost use Rattle.office_stores.specs.Texts.{IsQuiet};

use crate::task::{Task, do_task};
use desk_devices::Counted;
use office_stores::{CommandFault, Done, close_office, office_in_memory, open_office};
use sqlite::{FileFrom, Start};
use sqlite_disk::Disk;
use std::io::{Read, Write};
use std::rt::HostRuntime;

/// Does the task with a new office in memory.
fn in_memory<R: Read, O: Write, E: Write>(
    rt: &HostRuntime,
    task: &Task<'_>,
    input: &mut Counted<R>,
    out: &mut Counted<O>,
    log: &mut Counted<E>,
) -> Result<Done, CommandFault>
    ensures runs { RunsInMemory task.now
        (upshot_of R.Read O.Write E.Write result (input.old, out.old, log.old)
        (input.new, out.new, log.new)) }
    ensures left { reads_input task.now ≡ false → input.new ≡ input.old }
    ensures unlogged { writes_log task.now ≡ false → log.new ≡ log.old }
    ensures quiet { IfOk result IsQuiet }
{
    match office_in_memory(rt.alloc()) {
        Ok(mut office) => do_task(rt, &mut office, task, input, out, log),
        Err(fault) => Err(fault),
    }
}

/// Does the task with the office of the store, and closes it; `:memory:` is a new one in memory. No other
/// function names the type of a store in a file for an office's work: the prover goes over all of it where one
/// does.
pub fn in_store<S: Start, R: Read, O: Write, E: Write>(
    rt: &HostRuntime,
    start: &mut Option<S>,
    store: &str,
    task: &Task<'_>,
    input: &mut Counted<R>,
    out: &mut Counted<O>,
    log: &mut Counted<E>,
) -> Result<Done, CommandFault>
    ensures runs { RunsOn ⟦<FileFrom<S> as Disk>⟧
        (record { name = store.now; first = image_at S.Start }) (start.new ≡ start.old) task.now
        (upshot_of R.Read O.Write E.Write result (input.old, out.old, log.old)
        (input.new, out.new, log.new)) }
    ensures left { reads_input task.now ≡ false → input.new ≡ input.old }
    ensures unlogged { writes_log task.now ≡ false → log.new ≡ log.old }
    ensures quiet { IfOk result IsQuiet }
{
    if store == ":memory:" {
        return in_memory(rt, task, input, out, log);
    }
    let mut office = open_office(rt, start, store, task.makes_office())?;
    let done = do_task(rt, &mut office, task, input, out, log);
    close_office(office, done)
}
