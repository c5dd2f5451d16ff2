//! Bags that were read.

ghost use Rattle.std.specs.Prelude.{◌≡◌, ◌≢◌, ◌↔◌, ℕ, List, Some, Ok, Err, IfOk, IfErr, IsNone, Contains, option_copied};
ghost use Rattle.bag_text.specs.Answers.{Answers};
ghost use Rattle.bag_text.specs.TransferForm.{File, IsBag, set_text, content_at};
ghost use Rattle.bag_text.specs.TransferFaults.{FaultIs};
ghost use Rattle.bag_text.specs.TransferReading.{set_of, files_of, named_set_fault};
ghost use Rattle.bag_text.specs.BagList.{ListFault, list_fault};
ghost use Rattle.bag_text.specs.ListReading.{Makes};
ghost use Rattle.bag_text.specs.declared.set_fault.SetFault.{SetFault};
ghost use Rattle.bag_text.specs.declared.set_fault.SetFault.TheVariants.{Memory};

use crate::bag_list::copy_list;
use crate::order::find_content;
use crate::set_fault::SetFault;
use crate::transfer::read_set;
use std::alloc::Global;
use std::marker::Model;

/// A bag: its files, ascending by path. Paths and contents are slices of the text that was read.
#[derive(Debug, Drop)]
pub struct BagSet<'a> {
    files: Vec<(&'a str, &'a [u8])>,
}

impl<'a> Model for BagSet<'a> {
    ghost Value = { List File };

    ghost view = { λ set. files_of set.files.items };

    ghost invariant = { λ set. IsBag (files_of set.files.items) };
}

impl<'a> BagSet<'a> {
    /// The bag that a list of files is, unchanged, or the first fault of the list.
    pub fn of(alloc: Global, files: &[(&'a str, &'a [u8])]) -> Result<BagSet<'a>, SetFault>
        // What is made is the list itself, and it is a bag.
        ensures made { IfOk result (λ set. (set ≡ files_of files.now) × IsBag set) }
        // A list that is a bag is made, unless memory runs out.
        ensures only { IsBag (files_of files.now)
            → Answers named_set_fault result (Ok (files_of files.now)) }
        // A list that is refused has the fault that is named, its first one.
        ensures fault { IfErr result (λ fault.
            fault ≢ Memory → ListFault (files_of files.now) fault) }
        // A list that has a fault is refused with it.
        ensures refused { (fault : SetFault) → ListFault (files_of files.now) fault
            → result ≡ Err fault }
    {
        make(alloc, files)
    }

    /// The files, ascending by path.
    pub fn files(&self) -> &[(&'a str, &'a [u8])]
        ensures whole { files_of result.now ≡ self.now }
        ensures bag { IsBag self.now }
    {
        self.files.as_slice()
    }

    /// The content of the file that has this path.
    pub fn get(&self, path: &str) -> Option<&'a [u8]>
        // A content is given exactly where a file of the bag has this path and that content.
        ensures found { (content : List ℕ) → (option_copied result ≡ Some content)
            ↔ Contains self.now (record { path = path.now; content = content }) }
        // None is given exactly where no file of the bag has this path.
        ensures none { IsNone result
            ↔ ((f : File) → Contains self.now f → f.path ≢ path.now) }
        ensures exact { option_copied result ≡ content_at self.now path.now }
    {
        find_content(self.files(), path)
    }
}

/// The bag whose transfer form the text is, or the first fault of the text.
pub fn read_bagset<'a>(alloc: Global, text: &'a [u8]) -> Result<BagSet<'a>, SetFault>
    // What is read is the transfer form of a bag.
    ensures found { IfOk result (λ set. IsBag set × (text.now ≡ set_text set)) }
    // A bag's transfer form is read, unless memory runs out.
    ensures only { (files : List File) → IsBag files → text.now ≡ set_text files
        → Answers named_set_fault result (Ok files) }
    // A text that is refused has the fault that is named.
    ensures fault { IfErr result (λ fault. fault ≢ Memory → FaultIs text.now fault) }
    // A text that has a fault is refused with it, unless memory runs out.
    ensures refused { (fault : SetFault) → FaultIs text.now fault
        → Answers named_set_fault result (Err fault) }
    // What reading the text byte by byte gives.
    ensures exact { Answers named_set_fault result (set_of text.now) }
{
    read_whole(alloc, text)
}

fn read_whole<'a>(alloc: Global, text: &'a [u8]) -> Result<BagSet<'a>, SetFault>
    ensures { Answers named_set_fault result (set_of text.now) }
{
    let files = read_set(alloc, text)?;
    Ok(BagSet { files })
}

fn make<'a>(alloc: Global, files: &[(&'a str, &'a [u8])]) -> Result<BagSet<'a>, SetFault>
    ensures { Makes (λ set. set) (files_of files.now) (list_fault (files_of files.now)) result }
{
    let files = copy_list(alloc, files)?;
    Ok(BagSet { files })
}
