//! Why a text is no transfer form, in words.

ghost use Rattle.std.specs.Prelude.{◌≡◌, ◌++◌, IfOk, Some, codes, decimal, string_bytes};
ghost use Rattle.std.specs.Fmt.{DisplaysOnOk};
ghost use Rattle.fault_words.specs.FaultWords.{form_words, too_long_words};
ghost use Rattle.fault_words.specs.OtherFiles.{form_lines, hint_for};

use crate::in_words::InWords;
use crate::number::{Grouped, write_limit};
use crate::other_file::OtherFile;
use bag_text::{MAX_FILES, MAX_FORM, SetFault};
use std::alloc::{AllocError, Global};
use std::fmt;
use std::fmt::Write;

/// That an input is longer than any that is judged, to be printed as a sentence.
#[derive(Clone, Copy)]
pub struct TooLong;

impl fmt::Display for TooLong {
    ghost output = { λ _words. Some too_long_words };

    fn fmt<W: fmt::Write>(&self, f: &mut fmt::Formatter<W>) -> fmt::Result {
        let bytes = Grouped(MAX_FORM as usize);
        write!(
            f,
            "the form is longer than {bytes} bytes, the most that is judged (SIZE)"
        )
    }
}

/// Says this of the entry at a byte.
fn write_entry<W: fmt::Write>(f: &mut fmt::Formatter<W>, offset: usize, what: &str) -> fmt::Result
    ensures { DisplaysOnOk W.write_str_gives f.old result
        (Some (codes "the entry at byte " ++ decimal offset ++ what.now)) f.new }
{
    write!(f, "the entry at byte {offset}{what}")
}

impl<'a> fmt::Display for InWords<'a, SetFault> {
    ghost output = { λ words. Some (form_words words.0.now) };

    fn fmt<W: fmt::Write>(&self, f: &mut fmt::Formatter<W>) -> fmt::Result {
        match self.0 {
            SetFault::BadOpening => f.write_str(
                "this is no transfer form: it does not begin with the line BAGSET 1 (S1)",
            ),
            SetFault::BadEntry(offset) => write_entry(
                f,
                *offset,
                " is neither the line END nor a file with the lengths that its header gives (S2)",
            ),
            SetFault::Truncated => f.write_str(
                "the form ends too early: it stops before the end of the line END (S3)",
            ),
            SetFault::OutOfOrder(offset) => write_entry(
                f,
                *offset,
                " is out of order: its path does not come after the one before it, byte for byte (S4)",
            ),
            SetFault::BadPath(offset) => write_entry(
                f,
                *offset,
                " has no good path: it is not UTF-8, has a NUL, or has a segment that is empty, . or .. (S5)",
            ),
            SetFault::TooManyFiles => write_limit(
                f,
                "the form has more files than the ",
                MAX_FILES,
                " that a bag may have (S6)",
            ),
            SetFault::TrailingBytes => f.write_str("the form goes on after its line END (S7)"),
            SetFault::PathClash => f.write_str(
                "a path of the form is data, or names both a file and a folder (S8)",
            ),
            SetFault::Memory => f.write_str("memory ran out (S9)"),
        }
    }
}

/// What bytes look like that are refused for this fault, where they begin otherwise than a form.
pub fn hint_for(fault: SetFault, bytes: &[u8]) -> Option<OtherFile>
    ensures { result ≡ hint_for fault bytes.now }
{
    match fault {
        SetFault::BadOpening => OtherFile::of(bytes),
        _ => None,
    }
}

/// The lines that say why a text is no form: the fault's sentence, and what the text looks like where
/// that is known.
pub fn form_lines(
    alloc: Global,
    fault: SetFault,
    other: Option<OtherFile>,
) -> Result<String, AllocError>
    ensures { IfOk result (λ lines. string_bytes lines ≡ form_lines fault other) }
{
    let words = InWords(&fault);
    let mut lines = format!(in alloc; "{words}\n")?;
    let Some(other) = other else {
        return Ok(lines);
    };
    write!(lines, "{other}\n")?;
    Ok(lines)
}
