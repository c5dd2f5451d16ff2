//! Folders, and the entries that are listed in them.

ghost use Rattle.std.specs.Prelude.{◌≡◌, ◌≢◌, ◌++◌, ◌∷◌, ℕ, List, [], ⊤, IsErr, IfErr, IfOk, OnOk, string_bytes};
ghost use Rattle.std.specs.Fs.{IsDir, IsFile, dir_entry_name, file_type, metadata_len};
ghost use Rattle.std.specs.Iterator.{IsFinite};
ghost use Rattle.fault_words.specs.declared.folder.OddCause.TheVariants.{NoFile, NotUtf8};
ghost use Rattle.bag_folders.specs.Listing.{AreToldOf, AreToldOfSome, IsToldOf, IsUnnamed, joined};
ghost use Rattle.bag_folders.specs.declared.failed.Failed.{Failed};
ghost use Rattle.bag_folders.specs.declared.listed.Entry.{Entry};

use crate::failed::{Failed, Tried, failed_at};
use crate::listed::{Entry, Kind};
use fault_words::OddCause;
use std::alloc::{AllocError, Global};
use std::fs::{DirEntry, Metadata, ReadDir};
use std::io::ErrorKind;
use std::rt::Files;
use std::{fs, io};

/// Folders whose entries can be listed.
pub trait Folders {
    /// These entries may be listed in the folder of this path, empty for the first.
    ghost lists: { Self → List ℕ → List Entry → Type 0 };

    /// The folder of this path may fail to be listed so.
    ghost fails: { Self → List ℕ → Failed → Type 0 };

    /// The entries of a folder, or why there are none.
    fn list(&self, folder: &str) -> Result<Vec<Entry>, Failed>
        ensures listed { IfOk result (λ entries. lists self.now folder.now entries.items) }
        ensures failed { IfErr result (fails self.now folder.now) };
}

/// The path of a file of a bag in the file system.
pub fn path_under(alloc: Global, folder: &str, path: &str) -> Result<String, AllocError>
    ensures { IfOk result (λ whole. string_bytes whole ≡ folder.now ++ 47 ∷ path.now) }
{
    format!(in alloc; "{folder}/{path}")
}

/// The path of a name in this folder. An empty text means no folder, or no name.
fn path_in(alloc: Global, folder: &str, name: &str) -> Result<String, AllocError>
    ensures { IfOk result (λ whole. string_bytes whole ≡ joined folder.now name.now) }
{
    if folder.is_empty() {
        String::from_str(alloc, name)
    } else if name.is_empty() {
        String::from_str(alloc, folder)
    } else {
        path_under(alloc, folder, name)
    }
}

/// What an entry is.
fn kind_of(metadata: &Metadata) -> Kind
    ensures folder { IsDir (file_type metadata.now) → result ≡ Kind.Folder }
    ensures file { IsFile (file_type metadata.now)
        → result ≡ Kind.File (metadata_len metadata.now) }
    ensures odd { ¬ (IsDir (file_type metadata.now)) → ¬ (IsFile (file_type metadata.now))
        → result ≡ Kind.Odd NoFile }
    ensures named { result ≢ Kind.Odd NotUtf8 }
{
    if metadata.is_dir() {
        Kind::Folder
    } else if metadata.is_file() {
        Kind::File(metadata.len())
    } else {
        Kind::Odd(OddCause::NoFile)
    }
}

/// The entry of a name that the system gave. No link is followed.
fn entry_of<R: Files>(
    alloc: Global,
    folder: &str,
    name: &DirEntry<R, Global>,
) -> Result<Entry, Failed>
    ensures path { IfOk result (λ entry.
        string_bytes entry.path ≡ joined folder.now (dir_entry_name name.now)) }
    ensures named { IfOk result (λ entry. entry.kind ≢ Kind.Odd NotUtf8) }
{
    match name.metadata() {
        Ok(metadata) => Ok(Entry {
            path: path_in(alloc, folder, name.file_name())?,
            kind: kind_of(&metadata),
        }),
        Err(error) => Err(failed_at(alloc, Tried::Look, name.path().as_str(), error)),
    }
}

/// The entry of a name that the system didn't give. Where that is since the name isn't UTF-8, its path
/// is `?`.
fn unnamed_entry(alloc: Global, path: &str, folder: &str, error: io::Error) -> Result<Entry, Failed>
    ensures { IfOk result (IsUnnamed folder.now error) }
{
    if error.kind() != ErrorKind::InvalidFilename {
        return Err(failed_at(alloc, Tried::List, path, error));
    }
    Ok(Entry {
        path: path_in(alloc, folder, "?")?,
        kind: Kind::Odd(OddCause::NotUtf8),
    })
}

/// The entry for what the system gave for one name.
fn told<R: Files + Drop>(
    alloc: Global,
    path: &str,
    folder: &str,
    name: io::Result<DirEntry<R, Global>>,
) -> Result<Entry, Failed>
    ensures { IfOk result (IsToldOf folder.now name) }
{
    match name {
        Ok(name) => entry_of(alloc, folder, &name),
        Err(error) => unnamed_entry(alloc, path, folder, error),
    }
}

/// Adds the entry for what the system gave for one name.
fn add_told<R: Files + Drop>(
    alloc: Global,
    entries: &mut Vec<Entry>,
    path: &str,
    folder: &str,
    name: io::Result<DirEntry<R, Global>>,
) -> Result<(), Failed>
    ensures { OnOk result ((entry : Entry)
        × (entries.new.items ≡ entries.old.items ++ entry ∷ [])
        × IsToldOf folder.now name entry) }
{
    let entry = told(alloc, path, folder, name)?;
    let Ok(()) = entries.push(entry) else {
        return Err(Failed::Memory);
    };
    Ok(())
}

/// The entries of a folder: one for each name that the system gives, in this order. Where one can't be
/// made, none is.
fn told_entries<R: Files + Drop, I: Iterator<Item = io::Result<DirEntry<R, Global>>> + Drop>(
    alloc: Global,
    path: &str,
    folder: &str,
    names: I,
) -> Result<Vec<Entry>, Failed>
    requires can { I.can_next names }
    requires ends { IsFinite (I.remaining names) }
    ensures { IfOk result (λ entries. AreToldOf I.next_gives folder.now names entries.items) }
{
    let mut entries = Vec::new(alloc);
    for name in names {
        add_told(alloc, &mut entries, path, folder, name)?;
    }
    Ok(entries)
}

/// The entries of a folder, where its names can be listed.
fn entries_of<R: Files + Drop, I: Iterator<Item = io::Result<DirEntry<R, Global>>> + Drop>(
    alloc: Global,
    path: &str,
    folder: &str,
    names: io::Result<I>,
) -> Result<Vec<Entry>, Failed>
    requires can { IfOk names I.can_next }
    requires ends { IfOk names (λ names. IsFinite (I.remaining names)) }
    // A folder that can't be listed fails.
    ensures failed { IfErr names (λ _. IsErr result) }
    // Else there is an entry for each name.
    ensures told { IfOk names (λ names. IfOk result (λ entries.
        AreToldOf I.next_gives folder.now names entries.items)) }
{
    match names {
        Ok(names) => told_entries(alloc, path, folder, names),
        Err(error) => Err(failed_at(alloc, Tried::List, path, error)),
    }
}

/// The folders of a file system under one of them.
#[derive(Clone, Copy)]
pub struct FoldersUnder<'a, R> {
    pub rt: &'a R,
    /// The path of the first folder.
    pub root: &'a str,
}

impl<'a, R: Files + AllocGlobal> Folders for FoldersUnder<'a, R> {
    // Those that are told of the names that some listing of the system gives.
    ghost lists = { λ _. AreToldOfSome ⟦<ReadDir<&'a R, Global> as Iterator>⟧.next_gives };

    ghost fails = { λ _ _ _. ⊤ };

    fn list(&self, folder: &str) -> Result<Vec<Entry>, Failed> {
        let alloc = self.rt.alloc();
        let path = path_in(alloc, self.root, folder)?;
        let names = fs::read_dir(&self.rt, path.as_str());
        entries_of(alloc, path.as_str(), folder, names)
    }
}
