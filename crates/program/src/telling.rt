//! What is printed to standard error, and how the program ends.

ghost use Rattle.std.specs.Prelude.{option_map, string_bytes};
ghost use Rattle.std.specs.IoError.{error_kind};
ghost use Rattle.commands.specs.Failing.{message_of};
ghost use Rattle.commands.specs.declared.ending.Ending.TheVariants.{Failed};
ghost use Rattle.program.specs.Streams.{writer_seen};
ghost use Rattle.program.specs.Telling.{TellsPerson, TellsOfUse, TellsWhy, refusal_ending, unread_text};

use command_line::UseFault;
use commands::{Ending, Failure};
use std::io::{Error, ErrorKind, Write};
use streams::write_text;

/// Tells standard error the text, and ends so. Where it doesn't take all of it, the status alone says
/// that something failed.
pub fn tell<E: Write>(text: &str, ending: Ending, error: &mut E) -> Ending
    ensures { TellsPerson text.now ending
        (writer_seen E.Write error.old) (writer_seen E.Write error.new) result }
{
    match write_text(text, error) {
        Ok(()) => ending,
        Err(_) => Ending::Unsaid,
    }
}

/// Prints to standard error why the answer is what it is, where there is something to print, and ends so.
pub fn tell_why<E: Write>(reason: &Option<String>, ending: Ending, error: &mut E) -> Ending
    ensures { TellsWhy (option_map string_bytes reason.now) ending
        (writer_seen E.Write error.old) (writer_seen E.Write error.new) result }
{
    match reason {
        Some(reason) => tell(reason.as_str(), ending, error),
        None => ending,
    }
}

/// Says that the program failed.
pub fn fail<E: Write>(failure: Failure, error: &mut E) -> Ending
    ensures { TellsPerson (message_of failure) Failed
        (writer_seen E.Write error.old) (writer_seen E.Write error.new) result }
{
    tell(failure.message(), Ending::Failed, error)
}

/// Says why the words ask for nothing, or that there was no memory to read them.
pub fn refuse<E: Write>(fault: &UseFault, error: &mut E) -> Ending
    ensures { TellsOfUse fault.now (writer_seen E.Write error.old) (writer_seen E.Write error.new)
        result }
{
    match fault {
        UseFault::Use(reason) => tell(reason.as_str(), Ending::Misused, error),
        UseFault::Memory => fail(Failure::Memory, error),
    }
}

const NOT_UTF8: &str = "a word is not UTF-8: give names of files and folders in UTF-8\n";

/// The ending where the process's words could not be had: one of them is no text, or memory ran
/// out.
pub fn refuse_words<E: Write>(why: &Error, error: &mut E) -> Ending
    // A word that is no text is a fault of use, and whatever else the words failed for a failure.
    // Standard error says which.
    ensures { let kind = error_kind why.now in TellsPerson (unread_text kind) (refusal_ending kind)
        (writer_seen E.Write error.old) (writer_seen E.Write error.new) result }
{
    match why.kind() {
        ErrorKind::InvalidData => tell(NOT_UTF8, Ending::Misused, error),
        _ => fail(Failure::from(*why), error),
    }
}
