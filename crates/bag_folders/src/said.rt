//! What the program says of a folder that was packed, and of a form that was unpacked.

ghost use Rattle.std.specs.Prelude.{◌≡◌, IfOk, IfErr, None, codes, option_map, string_bytes};
ghost use Rattle.bag_folders.specs.Saying.{SaysOfPack, SaysOfUnpack, SaysWhy, PackFails, UnpackFails, file_reason, files_reason, line_of, packed_reason, packed_text, unpackable_text, unpacked_text};
ghost use Rattle.fault_words.specs.FaultWords.{words_of_odd_entry};

use crate::failed::Failed;
use crate::listed::Odd;
use crate::pack_fault::PackFault;
use crate::packing::Packed;
use crate::unpack_fault::UnpackFault;
use crate::unpacking::Unpacked;
use bag_text::SetFault;
use fault_words::{
    Escaped, FolderWords, OddEntry, TooLarge, TooLong, exists_words, form_lines, undeclared_words,
};
use std::alloc::{AllocError, Global};
use std::fmt::Write;

/// What is said on standard output, a line with its end; why the work wasn't done, where standard
/// error says so to a person, in lines with their ends; and whether it was done.
#[derive(Debug, Drop)]
pub struct Said {
    pub text: String,
    pub reason: Option<String>,
    pub is_done: bool,
}

/// The line of a folder that was packed.
fn packed_line(alloc: Global, packed: Packed) -> Result<String, AllocError>
    ensures { IfOk result (λ line. string_bytes line ≡ packed_text packed) }
{
    let Packed { files, bytes, .. } = packed;
    let mut line = format!(in alloc; "packed {files} files ")?;
    write!(line, "{bytes} bytes\n")?;
    Ok(line)
}

/// That what was packed is no bag yet, where that is so.
fn packed_reason(alloc: Global, packed: Packed) -> Result<Option<String>, AllocError>
    ensures { IfOk result (λ reason. option_map string_bytes reason ≡ packed_reason packed) }
{
    if packed.is_declared {
        return Ok(None);
    }
    let words = undeclared_words();
    Ok(Some(format!(in alloc; "{words}\n")?))
}

/// The line of a form that was unpacked.
fn unpacked_line(alloc: Global, unpacked: Unpacked) -> Result<String, AllocError>
    ensures { IfOk result (λ line. string_bytes line ≡ unpacked_text unpacked) }
{
    let Unpacked { files } = unpacked;
    format!(in alloc; "unpacked {files} files\n")
}

/// Why a file isn't packed, with its path first.
fn file_reason(alloc: Global, fault: SetFault, path: &str) -> Result<String, AllocError>
    ensures { IfOk result (λ line. string_bytes line ≡ file_reason fault path.now) }
{
    let path = Escaped(path);
    let words = FolderWords(fault);
    let mut line = format!(in alloc; "{path} ")?;
    write!(line, "{words}\n")?;
    Ok(line)
}

/// Why the files of a folder aren't packed, with the path of the one at fault first.
fn files_reason(alloc: Global, fault: SetFault, path: &Option<String>) -> Result<String, AllocError>
    ensures { IfOk result (λ line.
        string_bytes line ≡ files_reason fault (option_map string_bytes path.now)) }
{
    match path {
        Some(path) => file_reason(alloc, fault, path.as_str()),
        None => {
            let words = FolderWords(fault);
            format!(in alloc; "{words}\n")
        }
    }
}

/// What is said where the work wasn't done: this line, and why in these words.
fn refusal_said(alloc: Global, line: &str, words: &str) -> Result<Said, AllocError>
    ensures { IfOk result (SaysWhy line.now (line_of words.now)) }
{
    Ok(Said {
        text: String::from_str(alloc, line)?,
        reason: Some(format!(in alloc; "{words}\n")?),
        is_done: false,
    })
}

/// What is said of a folder with an entry that has no place in a form.
fn odd_entry_said(alloc: Global, odd: &Odd) -> Result<Said, AllocError>
    ensures { IfOk result (SaysWhy (unpackable_text (codes "NAME"))
        (line_of (words_of_odd_entry (string_bytes odd.now.path) odd.now.cause))) }
{
    let entry = OddEntry {
        path: odd.path.as_str(),
        cause: odd.cause,
    };
    Ok(Said {
        text: String::from_str(alloc, "unpackable NAME\n")?,
        reason: Some(format!(in alloc; "{entry}\n")?),
        is_done: false,
    })
}

/// What is said of a folder that was to be packed; or what failed, which is printed to standard error.
pub fn pack_said(alloc: Global, packing: Result<Packed, PackFault>) -> Result<Said, Failed>
    // What is said is so.
    ensures said { IfOk result (SaysOfPack packing) }
    // What fails is the device that is named, or memory.
    ensures failed { IfErr result (PackFails packing) }
{
    match packing {
        Ok(packed) => Ok(Said {
            text: packed_line(alloc, packed)?,
            reason: packed_reason(alloc, packed)?,
            is_done: true,
        }),
        Err(PackFault::Name(odd)) => Ok(odd_entry_said(alloc, &odd)?),
        Err(PackFault::Set { fault, path }) => Ok(Said {
            text: format!(in alloc; "unpackable {fault}\n")?,
            reason: Some(files_reason(alloc, fault, &path)?),
            is_done: false,
        }),
        Err(PackFault::Size) => {
            let words = TooLarge.to_string(alloc)?;
            Ok(refusal_said(alloc, "unpackable SIZE\n", words.as_str())?)
        }
        Err(PackFault::Device(trouble)) => Err(Failed::Device(trouble)),
        Err(PackFault::Memory) => Err(Failed::Memory),
    }
}

/// What is said of a form that was to be unpacked; or what failed, which is printed to standard error.
pub fn unpack_said(alloc: Global, unpacking: Result<Unpacked, UnpackFault>) -> Result<Said, Failed>
    // What is said is so.
    ensures said { IfOk result (SaysOfUnpack unpacking) }
    // What fails is the device that is named, or memory.
    ensures failed { IfErr result (UnpackFails unpacking) }
{
    match unpacking {
        Ok(unpacked) => Ok(Said {
            text: unpacked_line(alloc, unpacked)?,
            reason: None,
            is_done: true,
        }),
        Err(UnpackFault::Set { fault, other }) => Ok(Said {
            text: format!(in alloc; "unreadable {fault}\n")?,
            reason: Some(form_lines(alloc, fault, other)?),
            is_done: false,
        }),
        Err(UnpackFault::Size) => {
            let words = TooLong.to_string(alloc)?;
            Ok(refusal_said(alloc, "unreadable SIZE\n", words.as_str())?)
        }
        Err(UnpackFault::Exists) => Ok(refusal_said(alloc, "exists\n", exists_words())?),
        Err(UnpackFault::Device(trouble)) => Err(Failed::Device(trouble)),
        Err(UnpackFault::Memory) => Err(Failed::Memory),
    }
}
