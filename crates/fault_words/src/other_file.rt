//! What a file is that was taken for a transfer form.

ghost use Rattle.std.specs.Prelude.{◌≡◌, Some};
ghost use Rattle.fault_words.specs.OtherFiles.{has_tar_mark, likeness, other_file_words};

use std::fmt;

/// A file that is often handed in for a transfer form.
#[derive(Clone, Copy, Debug, PartialEq, Eq)]
pub enum OtherFile {
    /// A folder: its bytes can't be read, so `of` never finds one.
    Folder,
    /// A zip file.
    Zip,
    /// What gzip packed, a packed tar file too.
    Gzip,
    /// A tar file.
    Tar,
    /// The `bagit.txt` of a bag.
    Declaration,
    /// A transfer form whose line ends were changed to CRLF.
    ChangedForm,
}

impl OtherFile {
    /// What the bytes look like, by the first ones and, for a tar file, by those at 257.
    pub fn of(bytes: &[u8]) -> Option<OtherFile>
        ensures { result ≡ likeness bytes.now }
    {
        if bytes.starts_with(b"PK\x03\x04") {
            Some(OtherFile::Zip)
        } else if bytes.starts_with(b"\x1F\x8B") {
            Some(OtherFile::Gzip)
        } else if bytes.starts_with(b"BagIt-Version:") {
            Some(OtherFile::Declaration)
        } else if bytes.starts_with(b"BAGSET 1\r\n") {
            Some(OtherFile::ChangedForm)
        } else if has_tar_mark(bytes) {
            Some(OtherFile::Tar)
        } else {
            None
        }
    }
}

/// Whether `ustar` is where a tar file has it.
fn has_tar_mark(bytes: &[u8]) -> bool
    ensures { result ≡ has_tar_mark bytes.now }
{
    bytes.len() > 257 && bytes[257..].starts_with(b"ustar")
}

impl fmt::Display for OtherFile {
    ghost output = { λ other. Some (other_file_words other) };

    fn fmt<W: fmt::Write>(&self, f: &mut fmt::Formatter<W>) -> fmt::Result {
        f.write_str(match self {
            OtherFile::Folder => {
                "this is a folder; a bag's transfer form is wanted, which depot pack makes of it"
            }
            OtherFile::Zip => {
                "this looks like a zip file; a bag's transfer form is wanted, which depot pack makes of a folder"
            }
            OtherFile::Gzip => {
                "this looks like a gzip file; a bag's transfer form is wanted, which depot pack makes of a folder"
            }
            OtherFile::Tar => {
                "this looks like a tar file; a bag's transfer form is wanted, which depot pack makes of a folder"
            }
            OtherFile::Declaration => {
                "this looks like a bag's bagit.txt; a bag's transfer form is wanted, which depot pack makes of a folder"
            }
            OtherFile::ChangedForm => {
                "this looks like a transfer form whose line ends were changed; a form is carried byte for byte"
            }
        })
    }
}
