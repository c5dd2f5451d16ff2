//! What each subcommand does, before the end is printed to standard error.

ghost use Rattle.std.specs.Prelude.{◌≡◌, ◌⊎◌, Err, IfOk, MatchResult, false};
ghost use Rattle.sqlite.specs.WalFiles.{image_at};
ghost use Rattle.office_commands.specs.Tasks.{reads_input as work_reads_input, writes_log as work_writes_log};
ghost use Rattle.commands.specs.Printing.{IsAnswer};
ghost use Rattle.program.specs.Answering.{IsPrinted};
ghost use Rattle.program.specs.Running.{DoesLine, DoesOnStore, IsUndated, is_on_store, on_store, reads_input, writes_log};
ghost use Rattle.program.specs.Streams.{counted_seen, seen_of};

use crate::answering::{answer_check, answer_explain};
use crate::folders::{pack_folder, unpack_form};
use crate::standard::Streams;
use crate::stopped::Stopped;
use command_line::Line;
use commands::Outcome;
use desk_devices::Counted;
use office_commands::{Work, perform};
use office_stores::Done;
use sqlite::{FileFrom, Start};
use sqlite_disk::Disk;
use std::io::{Read, Write};
use std::rt::HostRuntime;
use streams::write_text;

/// Prints what is said, where there is something to say. What is left is to print to standard error why.
fn say<O: Write>(said: Result<Outcome, Stopped>, output: &mut Counted<O>) -> Result<Done, Stopped>
    ensures { MatchResult said
        (λ outcome. IsPrinted outcome result
        (counted_seen O.Write output.old) (counted_seen O.Write output.new))
        (λ stopped. (result ≡ Err stopped) × (output.new ≡ output.old)) }
{
    let Outcome {
        text,
        reason,
        ending,
    } = said?;
    match write_text(text.as_str(), output) {
        Ok(()) => Ok(Done { reason, ending }),
        Err(error) => Err(Stopped::Output(error)),
    }
}

/// Does the work on a store.
fn work_on<S: Start, R: Read, O: Write, E: Write>(
    rt: &HostRuntime,
    start: &mut Option<S>,
    store: &str,
    work: &Work<&str>,
    streams: &mut Streams<R, O, E>,
) -> Result<Done, Stopped>
    ensures does { DoesOnStore
        (on_store ⟦<FileFrom<S> as Disk>⟧ (image_at S.Start) (start.new ≡ start.old))
        (record { store = store.now; work = work.now }) result
        (seen_of R.Read O.Write E.Write streams.old) (seen_of R.Read O.Write E.Write streams.new) }
    ensures input { work_reads_input work.now ≡ false
        → streams.new.input ≡ streams.old.input }
    ensures unlogged { work_writes_log work.now ≡ false
        → streams.new.error ≡ streams.old.error }
    ensures answers { IfOk result (λ done. IsAnswer done.ending) }
{
    match perform(
        rt,
        start,
        store,
        work,
        &mut streams.input,
        &mut streams.output,
        &mut streams.error,
    ) {
        Ok(done) => Ok(done),
        Err(fault) => Err(Stopped::Store(fault)),
    }
}

/// Does what the line asks for.
pub fn perform_line<S: Start, R: Read, O: Write, E: Write>(
    rt: &HostRuntime,
    start: &mut Option<S>,
    line: &Line<'_>,
    streams: &mut Streams<R, O, E>,
) -> Result<Done, Stopped>
    ensures does { DoesLine
        (on_store ⟦<FileFrom<S> as Disk>⟧ (image_at S.Start) (start.new ≡ start.old))
        line.now result
        (seen_of R.Read O.Write E.Write streams.old) (seen_of R.Read O.Write E.Write streams.new) }
    ensures input { reads_input line.now ≡ false → streams.new.input ≡ streams.old.input }
    ensures store { is_on_store line.now ≡ false → start.new ≡ start.old }
    ensures unlogged { writes_log line.now ≡ false → streams.new.error ≡ streams.old.error }
    ensures answers { IfOk result (λ done. IsAnswer done.ending ⊎ IsUndated line.now) }
{
    match line {
        Line::Check { file } => say(
            answer_check(rt, file, &mut streams.input),
            &mut streams.output,
        ),
        Line::Explain(asked) => say(answer_explain(rt, asked), &mut streams.output),
        Line::Pack { folder, file } => say(pack_folder(rt, folder, file), &mut streams.output),
        Line::Unpack { file, folder } => say(unpack_form(rt, file, folder), &mut streams.output),
        Line::Policy { store, policy } => {
            work_on(rt, start, store, &Work::Policy { policy }, streams)
        }
        Line::Ask { store, day } => work_on(rt, start, store, &Work::Ask { day: *day }, streams),
        Line::Replay { policy, store } => {
            work_on(rt, start, store, &Work::Replay { policy: *policy }, streams)
        }
        Line::Serve {
            port,
            count,
            store,
            day,
        } => {
            let work = Work::Serve {
                day: *day,
                port: *port,
                count: *count,
            };
            work_on(rt, start, store, &work, streams)
        }
    }
}
