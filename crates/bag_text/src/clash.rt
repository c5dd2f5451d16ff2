//! Paths that clash: a file and a folder of one name.

ghost use Rattle.std.specs.Prelude.{◌≡◌, [], codes, bytes_eq};
ghost use Rattle.std.specs.List.{list_any};
ghost use Rattle.bag_text.specs.Text.{begins_with};
ghost use Rattle.bag_text.specs.Paths.{lies_under};
ghost use Rattle.bag_text.specs.TransferForm.{Ascends, clashes};
ghost use Rattle.bag_text.specs.TransferReading.{files_of};

use crate::order::count_before_folder;

fn begins_with_slash(text: &[u8]) -> bool
    ensures { result ≡ begins_with 47 text.now }
{
    matches!(text, [b'/', ..])
}

/// Whether a path lies under another, as a file in a folder.
fn is_under(outer: &str, inner: &str) -> bool
    ensures { result ≡ lies_under outer.now inner.now }
{
    match inner.as_bytes().strip_prefix(outer.as_bytes()) {
        Some(rest) => begins_with_slash(rest),
        None => false,
    }
}

/// Whether a path begins another of the files, as a folder does: those paths follow one another.
fn has_under(files: &[(&str, &[u8])], outer: &str) -> bool
    requires { Ascends [] (files_of files.now) }
    ensures { result ≡ list_any (λ g. lies_under outer.now g.path) (files_of files.now) }
{
    match files.get(count_before_folder(files, outer)) {
        Some(file) => is_under(outer, file.0),
        None => false,
    }
}

fn is_data(path: &str) -> bool
    ensures { result ≡ bytes_eq path.now (codes "data") }
{
    path == "data"
}

/// Whether a path is `data`, or begins another as a folder does.
pub fn do_clash(files: &[(&str, &[u8])]) -> bool
    requires { Ascends [] (files_of files.now) }
    ensures { result ≡ clashes (files_of files.now) }
{
    for file in files {
        if is_data(file.0) || has_under(files, file.0) {
            return true;
        }
    }
    false
}
