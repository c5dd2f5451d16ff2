//! Laws of the definitions alone.

ghost use Rattle.std.specs.Prelude.{List};
ghost use Rattle.bag_text.specs.TransferForm.{File, IsBag};
ghost use Rattle.bag_folders.specs.Packing.{AreFilesOf, AreInPathOrder};
ghost use Rattle.bag_folders.specs.Unpacking.{AreFoundAgain};
ghost use Rattle.bag_folders.specs.declared.listed.Listed.{Listed};

/// The files of a bag that were made in a folder, and are found there in whichever order, come back in
/// the order that the bag has: what was unpacked is packed into the same form.
pub fn found_again()
    ensures { (files : List File) (found listed : List Listed) → IsBag files
        → AreFoundAgain files found → AreInPathOrder found listed → AreFilesOf listed files }
{}
