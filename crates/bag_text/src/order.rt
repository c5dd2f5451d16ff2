//! The order of paths, and what is in a list of files that ascends.

ghost use Rattle.std.specs.Prelude.{◌≡◌, [], ◌∷◌, ◌++◌, option_copied};
ghost use Rattle.bag_text.specs.Paths.{comes_before};
ghost use Rattle.bag_text.specs.TransferForm.{Ascends, content_at};
ghost use Rattle.bag_text.specs.TransferReading.{files_of, IsPositionOf};

use std::cmp::Ordering;

/// Whether a path comes before another, by bytes.
pub fn is_before(first: &[u8], second: &[u8]) -> bool
    ensures { result ≡ comes_before first.now second.now }
{
    first.cmp(second).is_lt()
}

/// Whether a path comes before all that lies in a folder.
pub fn is_before_folder(path: &[u8], folder: &[u8]) -> bool
    ensures { result ≡ comes_before path.now (folder.now ++ 47 ∷ []) }
{
    if path.len() <= folder.len() {
        return !is_before(folder, path);
    }
    let (front, rest) = path.split_at(folder.len());
    match front.cmp(folder) {
        Ordering::Less => true,
        Ordering::Equal => rest[0] < b'/',
        Ordering::Greater => false,
    }
}

fn is_text_before(first: &str, second: &str) -> bool
    ensures { result ≡ comes_before first.now second.now }
{
    is_before(first.as_bytes(), second.as_bytes())
}

fn is_text_before_folder(path: &str, folder: &str) -> bool
    ensures { result ≡ comes_before path.now (folder.now ++ 47 ∷ []) }
{
    is_before_folder(path.as_bytes(), folder.as_bytes())
}

/// How many of the files come before a path.
fn count_before(files: &[(&str, &[u8])], path: &str) -> usize
    requires { Ascends [] (files_of files.now) }
    ensures { IsPositionOf path.now files.now result }
{
    files.partition_point(|file| is_text_before(file.0, path))
}

/// How many of the files come before all that lies in a folder.
pub fn count_before_folder(files: &[(&str, &[u8])], folder: &str) -> usize
    requires { Ascends [] (files_of files.now) }
    ensures { IsPositionOf (folder.now ++ 47 ∷ []) files.now result }
{
    files.partition_point(|file| is_text_before_folder(file.0, folder))
}

/// The content of the file that has this path.
pub fn find_content<'a>(files: &[(&'a str, &'a [u8])], path: &str) -> Option<&'a [u8]>
    requires { Ascends [] (files_of files.now) }
    ensures { option_copied result ≡ content_at (files_of files.now) path.now }
{
    match files.get(count_before(files, path)) {
        Some(file) => { if file.0 == path { Some(file.1) } else { None } }
        None => None,
    }
}
