//! What is printed to standard error at the end of a run.

ghost use Rattle.std.specs.Prelude.{◌≢◌, IfOk};
ghost use Rattle.streams.specs.Writing.{MayGrow};
ghost use Rattle.commands.specs.Printing.{IsAnswer};
ghost use Rattle.commands.specs.declared.ending.Ending.TheVariants.{Misused};
ghost use Rattle.program.specs.Running.{IsTold};
ghost use Rattle.program.specs.Streams.{writer_seen};
ghost use Rattle.program.specs.Telling.{TellsOf};

use crate::detail::{LastErrors, detail_of};
use crate::stopped::Stopped;
use crate::telling::{fail, tell, tell_why};
use command_line::Line;
use commands::{Ending, Failure};
use office_stores::Done;
use std::alloc::Global;
use std::io::Write;
use streams::write_text;

/// Tells standard error what was tried, on what and why it failed, where there is memory for it. The
/// line before it has said what there was to say, so that nothing hangs on this one.
fn tell_more<E: Write>(
    alloc: Global,
    line: &Line<'_>,
    stopped: &Stopped,
    errors: LastErrors,
    error: &mut E,
)
    ensures { MayGrow (E.contents error.old) (E.contents error.new) }
{
    let detail = detail_of(line, stopped, errors);
    let Ok(text) = format!(in alloc; "depot: {detail}\n") else {
        return;
    };
    let _ = write_text(text.as_str(), error);
}

/// Tells standard error why what the line asks for fails, and ends so: the line that a program reads
/// first, and then what was tried.
fn report<E: Write>(
    alloc: Global,
    line: &Line<'_>,
    stopped: &Stopped,
    errors: LastErrors,
    error: &mut E,
) -> Ending
    ensures { TellsOf stopped.now (writer_seen E.Write error.old) (writer_seen E.Write error.new)
        result }
{
    let Ok(text) = stopped.line(alloc) else {
        return fail(Failure::Memory, error);
    };
    match tell(text.as_str(), stopped.ending(), error) {
        Ending::Unsaid => Ending::Unsaid,
        ending => {
            tell_more(alloc, line, stopped, errors, error);
            ending
        }
    }
}

/// Tells standard error why the answer is what it is, where there is a reason, or why what the line asks
/// for fails, and ends so.
pub fn tell_end<E: Write>(
    alloc: Global,
    line: &Line<'_>,
    ended: Result<Done, Stopped>,
    errors: LastErrors,
    error: &mut E,
) -> Ending
    ensures told { IsTold ended (writer_seen E.Write error.old) (writer_seen E.Write error.new)
        result }
    ensures used { IfOk ended (λ done. IsAnswer done.ending) → result ≢ Misused }
{
    match ended {
        Ok(done) => tell_why(&done.reason, done.ending, error),
        Err(stopped) => report(alloc, line, &stopped, errors, error),
    }
}
