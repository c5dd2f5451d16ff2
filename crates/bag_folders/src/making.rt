//! The folders and files of a bag are made.

ghost use Rattle.std.specs.Prelude.{◌≡◌, ◌++◌, [], Err, IfErr, IfOk, OnOk, bytes_eq, filter_map, map, option_copied};
ghost use Rattle.std.specs.List.{cons_option, list_any};
ghost use Rattle.bag_check.specs.Contents.{declaration_path, is_payload};
ghost use Rattle.bag_text.specs.TransferReading.{files_of};
ghost use Rattle.bag_folders.specs.Packing.{paths_found};
ghost use Rattle.bag_folders.specs.Unpacking.{CanStop, MakesFiles, folder_of, folders_of, needs_data};

use crate::failed::{Failed, Tried, failed_at};
use crate::folders::path_under;
use crate::unpack_fault::UnpackFault;
use crate::unpacking::Unpacked;
use bag_text::BagSet;
use std::alloc::{AllocError, Global};
use std::fs;
use std::fs::OpenOptions;
use std::io::ErrorKind;
use std::rt::Files;
use streams::write_bytes;

/// Whether a path is one of the payload.
fn is_payload(path: &str) -> bool
    ensures { result ≡ is_payload path.now }
{
    path.as_bytes().starts_with(b"data/")
}

/// Whether a bag's declaration is among these files.
fn has_declaration(files: &[(&str, &[u8])]) -> bool
    ensures { result ≡ list_any (λ file. bytes_eq file.0.now declaration_path) files.now }
{
    files.iter().any(|file| file.0 == "bagit.txt")
}

/// Whether a payload file is among these.
fn has_payload(files: &[(&str, &[u8])]) -> bool
    ensures { result ≡ list_any (λ file. is_payload file.0.now) files.now }
{
    files.iter().any(|file| is_payload(file.0))
}

/// Whether these are the files of a bag without a payload. It has a folder `data` all the same (RFC 8493,
/// 2.1), which no path needs: other programs refuse a bag that has none.
fn needs_data(files: &[(&str, &[u8])]) -> bool
    ensures { result ≡ needs_data (paths_found (files_of files.now)) }
{
    has_declaration(files) && !has_payload(files)
}

/// The folder that a file is in, where it is in one.
fn folder_of<'a>(path: &'a str) -> Option<&'a str>
    ensures { option_copied result ≡ folder_of path.now }
{
    match path.rsplit_once('/') {
        Some((folder, _)) => Some(folder),
        None => None,
    }
}

/// Adds the folder that a file is in, where it is in one.
fn add_folder<'a>(folders: &mut Vec<&'a str>, path: &'a str) -> Result<(), AllocError>
    ensures { OnOk result
        (map (λ folder. folder.now) folders.new.items
        ≡ map (λ folder. folder.now) folders.old.items
        ++ cons_option (folder_of path.entry.now) []) }
{
    let Some(folder) = folder_of(path) else {
        return Ok(());
    };
    folders.push(folder)?;
    Ok(())
}

/// The folders that the files are in.
fn needed_folders<'a>(
    alloc: Global,
    files: &[(&'a str, &'a [u8])],
) -> Result<Vec<&'a str>, AllocError>
    ensures { IfOk result (λ folders. map (λ folder. folder.now) folders.items
        ≡ filter_map (λ file. folder_of file.0.now) files.now) }
{
    let mut folders: Vec<&'a str> = Vec::with_capacity(alloc, files.len())?;
    for file in files {
        add_folder(&mut folders, file.0)?;
    }
    Ok(folders)
}

/// The folders that are made for these files, as paths from the first folder on.
pub fn folders_of<'a>(
    alloc: Global,
    files: &[(&'a str, &'a [u8])],
) -> Result<Vec<&'a str>, AllocError>
    // They are those that the files are in, and `data` where the bag has no payload.
    ensures { IfOk result (λ folders.
        map (λ folder. folder.now) folders.items ≡ folders_of (paths_found (files_of files.now))) }
{
    let mut folders = needed_folders(alloc, files)?;
    if needs_data(files) {
        folders.push("data")?;
        return Ok(folders);
    }
    Ok(folders)
}

/// What makes the folders and files of a bag, in a first folder.
pub trait Maker {
    /// Makes the first folder, where nothing has its name.
    fn make_first(&mut self) -> Result<(), UnpackFault>
        ensures { IfErr result CanStop };

    /// Makes a folder of this path in the first one, and those above it.
    fn make_folder(&mut self, path: &str) -> Result<(), Failed>;

    /// Makes a file of this path in the first folder, where there is none, and writes the bytes to it.
    fn make_file(&mut self, path: &str, content: &[u8]) -> Result<(), Failed>;
}

/// A folder of a file system that is to be made, with all in it.
#[derive(Clone, Copy)]
pub struct NewFolder<'a, R> {
    pub rt: &'a R,
    /// Its path.
    pub folder: &'a str,
}

impl<'a, R: Files + AllocGlobal> Maker for NewFolder<'a, R> {
    fn make_first(&mut self) -> Result<(), UnpackFault> {
        match fs::create_dir(&self.rt, self.folder) {
            Ok(()) => Ok(()),
            Err(error) => {
                if error.kind() == ErrorKind::AlreadyExists {
                    return Err(UnpackFault::Exists);
                }
                Err(failed_at(self.rt.alloc(), Tried::Make, self.folder, error).into())
            }
        }
    }

    fn make_folder(&mut self, path: &str) -> Result<(), Failed> {
        let path = path_under(self.rt.alloc(), self.folder, path)?;
        match fs::create_dir_all(&self.rt, path.as_str()) {
            Ok(()) => Ok(()),
            Err(error) => Err(failed_at(self.rt.alloc(), Tried::Make, path.as_str(), error)),
        }
    }

    fn make_file(&mut self, path: &str, content: &[u8]) -> Result<(), Failed> {
        let path = path_under(self.rt.alloc(), self.folder, path)?;
        let opened = OpenOptions::new()
            .write(true)
            .create_new(true)
            .open(&self.rt, path.as_str());
        let mut file = match opened {
            Ok(file) => file,
            Err(error) => return Err(failed_at(self.rt.alloc(), Tried::Make, path.as_str(), error)),
        };
        match write_bytes(content, &mut file) {
            Ok(()) => Ok(()),
            Err(error) => Err(failed_at(self.rt.alloc(), Tried::Write, path.as_str(), error)),
        }
    }
}

/// Makes these folders under the first, and those above them.
fn make_folders<M: Maker>(maker: &mut M, folders: &[&str]) -> Result<(), Failed> {
    for folder in folders {
        maker.make_folder(folder)?;
    }
    Ok(())
}

/// Makes the files of a bag, whose folders are there.
fn make_files<M: Maker>(maker: &mut M, files: &[(&str, &[u8])]) -> Result<(), Failed> {
    for file in files {
        maker.make_file(file.0, file.1)?;
    }
    Ok(())
}

/// Makes the first folder, and in it the folders and files of a bag.
fn make_all<M: Maker>(
    alloc: Global,
    maker: &mut M,
    files: &[(&str, &[u8])],
) -> Result<Unpacked, UnpackFault>
    ensures { MakesFiles (files_of files.now) result }
{
    maker.make_first()?;
    let Ok(folders) = folders_of(alloc, files) else {
        return Err(UnpackFault::Memory);
    };
    make_folders(maker, folders.as_slice())?;
    make_files(maker, files)?;
    Ok(Unpacked { files: files.len() })
}

/// Makes the folder of the bag that was read, where one was.
pub fn make_bag<M: Maker>(
    alloc: Global,
    maker: &mut M,
    read: Result<BagSet<'_>, UnpackFault>,
) -> Result<Unpacked, UnpackFault>
    // Where none was, that is said, whatever has the folder's name, and nothing is made.
    ensures unread { IfErr read.entry (λ fault. (result ≡ Err fault)
        × (maker.new ≡ maker.old)) }
    // Else the files are counted, or something is there or fails.
    ensures made { IfOk read.entry (λ bag. MakesFiles bag result) }
{
    match read {
        Ok(bag) => make_all(alloc, maker, bag.files()),
        Err(fault) => Err(fault),
    }
}
