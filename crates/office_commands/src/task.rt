//! What is to be done with an open office.

ghost use Rattle.std.specs.Prelude.{◌≡◌, IfOk, false};
ghost use Rattle.office_commands.specs.Tasks.{DoesTask, reads_input, writes_log};
ghost use Rattle.office_commands.specs.Traffic.{upshot_of};
ghost use Rattle.office_stores.specs.Texts.{IsQuiet};

use crate::listening::serve_at;
use crate::work::Work;
use crate::working::{ask_office, install_policy, replay_after};
use http_desk::Counted;
use office_core::Policy;
use office_engine::Office;
use office_stores::{CommandFault, Done};
use sqlite::Alter;
use std::io::{Read, Write};
use std::rt::HostRuntime;

/// What is to be done with an open office: the work of a command, its policy read.
pub type Task<'a> = Work<&'a Policy>;

/// Does the task with the office.
pub fn do_task<S: Alter, R: Read, O: Write, E: Write>(
    rt: &HostRuntime,
    office: &mut Office<S>,
    task: &Task<'_>,
    input: &mut Counted<R>,
    out: &mut Counted<O>,
    log: &mut Counted<E>,
) -> Result<Done, CommandFault>
    ensures does { DoesTask S.Store task.now
        (upshot_of R.Read O.Write E.Write result (input.old, out.old, log.old)
        (input.new, out.new, log.new))
        office.old office.new }
    ensures left { reads_input task.now ≡ false → input.new ≡ input.old }
    ensures unlogged { writes_log task.now ≡ false → log.new ≡ log.old }
    ensures quiet { IfOk result IsQuiet }
{
    match *task {
        Work::Policy { policy } => install_policy(rt.alloc(), office, policy),
        Work::Ask { day } => ask_office(rt.alloc(), office, day, input, out),
        Work::Replay { policy } => replay_after(rt.alloc(), office, policy, input, out),
        Work::Serve { day, port, count } => serve_at(rt, office, day, port, count, out, log),
    }
}
