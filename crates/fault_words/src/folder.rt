//! Why a folder is not packed, in words.

ghost use Rattle.std.specs.Prelude.{◌≡◌, Some};
ghost use Rattle.fault_words.specs.FaultWords.{exists_words, folder_words, too_large_words, undeclared_words, words_of_odd_entry};

use crate::escaped::Escaped;
use crate::number::{Grouped, write_limit};
use bag_text::{MAX_CONTENT, MAX_FILES, MAX_FORM, MAX_PATH, SetFault};
use std::fmt;

/// The fault of the files of a folder, in the order of their paths, to be printed as a sentence.
/// Where one file is at fault, its path is printed first.
#[derive(Clone, Copy)]
pub struct FolderWords(pub SetFault);

impl fmt::Display for FolderWords {
    ghost output = { λ words. Some (folder_words words.0) };

    fn fmt<W: fmt::Write>(&self, f: &mut fmt::Formatter<W>) -> fmt::Result {
        match self.0 {
            SetFault::BadEntry(_) => write_limit(
                f,
                "has more than ",
                MAX_CONTENT,
                " bytes, the most that a file of a bag may have (S2)",
            ),
            SetFault::OutOfOrder(_) => {
                f.write_str("does not come after the path before it, byte for byte (S4)")
            }
            SetFault::BadPath(_) => write_limit(
                f,
                "is no good path: it is not UTF-8, has more than ",
                MAX_PATH,
                " bytes or a NUL, or has a segment that is empty, . or .. (S5)",
            ),
            SetFault::TooManyFiles => write_limit(
                f,
                "the folder has more files than the ",
                MAX_FILES,
                " that a bag may have (S6)",
            ),
            SetFault::PathClash => {
                f.write_str("a path of the folder is data, or names both a file and a folder (S8)")
            }
            _ => f.write_str("the files of the folder are no bag"),
        }
    }
}

/// Why an entry of a folder has no place in a form.
#[derive(Clone, Copy, Debug, PartialEq, Eq)]
pub enum OddCause {
    /// It is neither a file nor a folder.
    NoFile,
    /// Its name isn't UTF-8.
    NotUtf8,
}

/// An entry of a folder that has no place in a form, by its path, and why, to be printed as a sentence
/// that says so.
#[derive(Clone, Copy)]
pub struct OddEntry<'a> {
    pub path: &'a str,
    pub cause: OddCause,
}

impl<'a> fmt::Display for OddEntry<'a> {
    ghost output = { λ entry. Some (words_of_odd_entry entry.path.now entry.cause) };

    fn fmt<W: fmt::Write>(&self, f: &mut fmt::Formatter<W>) -> fmt::Result {
        let path = Escaped(self.path);
        match self.cause {
            OddCause::NoFile => write!(
                f,
                "the entry {path} of the folder is neither a file nor a folder, such as a link (NAME)"
            ),
            OddCause::NotUtf8 => write!(
                f,
                "the entry {path} of the folder has a name that is not UTF-8 (NAME)"
            ),
        }
    }
}

/// That the form of a folder is longer than any that is written, to be printed as a sentence.
#[derive(Clone, Copy)]
pub struct TooLarge;

impl fmt::Display for TooLarge {
    ghost output = { λ _words. Some too_large_words };

    fn fmt<W: fmt::Write>(&self, f: &mut fmt::Formatter<W>) -> fmt::Result {
        let bytes = Grouped(MAX_FORM as usize);
        write!(
            f,
            "the form of the folder is longer than {bytes} bytes, the most that is written (SIZE)"
        )
    }
}

/// What is said of a folder that was packed without the declaration of a bag.
pub fn undeclared_words() -> &'static str
    ensures { result.now ≡ undeclared_words }
{
    "the folder has no bagit.txt, so what was packed is no bag yet"
}

/// What is said of a folder that was to be made, where something has its name.
pub fn exists_words() -> &'static str
    ensures { result.now ≡ exists_words }
{
    "something has the name of the folder already, so nothing was unpacked"
}
