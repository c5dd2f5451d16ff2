//! The order of files.

ghost use Rattle.bag_folders.specs.Packing.{AreInPathOrder};

use crate::listed::Listed;

/// The files in the order of their paths, by bytes.
pub fn in_order(files: Vec<Listed>) -> Vec<Listed>
    ensures { AreInPathOrder files.items result.items }
{
    let mut files = files;
    files.sort_unstable_by(|a, b| a.path.as_str().cmp(b.path.as_str()));
    files
}
