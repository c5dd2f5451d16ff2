//! The program's whole work.

ghost use Rattle.std.specs.Prelude.{◌≡◌, ◌⊎◌, ℕ, List};
ghost use Rattle.sqlite.specs.WalFiles.{image_at};
ghost use Rattle.bag_text.specs.Text.{texts};
ghost use Rattle.commands.specs.declared.ending.Ending.TheVariants.{Misused};
ghost use Rattle.command_line.specs.Lines.{AskNothing, Asks};
ghost use Rattle.command_line.specs.Usage.{NamesNone, usage_for};
ghost use Rattle.command_line.specs.declared.line.Line.{Line};
ghost use Rattle.program.specs.Running.{Comes, ComesOfWords, IsUndated, NameNoDay, on_store};
ghost use Rattle.program.specs.Streams.{counted_seen, course_of};
ghost use Rattle.program.specs.Telling.{Refuses};

use crate::detail::LastErrors;
use crate::performing::perform_line;
use crate::reporting::tell_end;
use crate::standard::Streams;
use crate::telling::refuse;
use command_line::{Line, VERSION, read_line};
use commands::Ending;
use sqlite::{FileFrom, Start};
use sqlite_disk::Disk;
use std::io::{Read, Write};
use std::rt::HostRuntime;

/// The errors of the calls of the streams that failed last.
fn last_errors<R, O, E>(streams: &Streams<R, O, E>) -> LastErrors {
    LastErrors {
        input: streams.input.last_error(),
        output: streams.output.last_error(),
    }
}

/// Does what the line asks for, and prints to standard error why the answer is what it is, or why the run
/// fails.
fn run_line<S: Start, R: Read, O: Write, E: Write>(
    rt: &HostRuntime,
    start: &mut Option<S>,
    line: &Line<'_>,
    streams: &mut Streams<R, O, E>,
) -> Ending
    ensures comes { Comes
        (on_store ⟦<FileFrom<S> as Disk>⟧ (image_at S.Start) (start.new ≡ start.old))
        (start.new ≡ start.old) line.now
        (course_of R.Read O.Write E.Write (streams.old, streams.new) result) }
    ensures used { result ≡ Misused → IsUndated line.now }
{
    let ended = perform_line(rt, start, line, streams);
    let errors = last_errors(streams);
    tell_end(rt.alloc(), line, ended, errors, &mut streams.error)
}

/// The program's whole work on the words after its name. A file `-` is the input for `check`. A store
/// that is a file is opened by `start`, which is taken for that.
pub fn run<S: Start, R: Read, O: Write, E: Write>(
    rt: &HostRuntime,
    start: &mut Option<S>,
    words: &[&str],
    streams: &mut Streams<R, O, E>,
) -> Ending
    // Words that ask for nothing are refused: standard error says why, and nothing else is touched.
    // They end as misused, unless memory runs out or standard error fails.
    ensures refused { AskNothing (texts words.now) → (text : List ℕ) × Refuses text
        (counted_seen E.Write streams.old.error) (counted_seen E.Write streams.new.error) result }
    ensures left { AskNothing (texts words.now) → (streams.new.input ≡ streams.old.input)
        × (streams.new.output ≡ streams.old.output) × (start.new ≡ start.old) }
    // Where they name no subcommand, standard error says so, and how the program is used.
    ensures uses { NamesNone (texts words.now) → Refuses (usage_for VERSION.now (texts words.now))
        (counted_seen E.Write streams.old.error) (counted_seen E.Write streams.new.error) result }
    // No other words end as misused, but for those that explain a policy and name no day: where its
    // rules may have days, `Explains` says so.
    ensures misused { result ≡ Misused
        → AskNothing (texts words.now) ⊎ NameNoDay (texts words.now) }
    // What words ask for is done, and its end is printed to standard error, unless there was no memory to read
    // them.
    ensures asked { (line : Line) → Asks (texts words.now) line → ComesOfWords
        (on_store ⟦<FileFrom<S> as Disk>⟧ (image_at S.Start) (start.new ≡ start.old))
        (start.new ≡ start.old) (texts words.now)
        (course_of R.Read O.Write E.Write (streams.old, streams.new) result) }
{
    match read_line(rt.alloc(), words) {
        Ok(line) => run_line(rt, start, &line, streams),
        Err(fault) => refuse(&fault, &mut streams.error),
    }
}
