//! Laws of the definitions alone.

ghost use Rattle.std.specs.Prelude.{◌≡◌, ℕ, List, IsSome};
ghost use Rattle.bag_text.specs.TransferForm.{File, IsBag};
ghost use Rattle.bag_text.specs.declared.causes.PathCause.{PathCause};
ghost use Rattle.bag_text.specs.declared.listing.LineFault.TheVariants.{BadPath};
ghost use Rattle.bag_check.specs.Faults.{ManifestText, Applies};
ghost use Rattle.fault_words.specs.BagReasons.{cause_at, sentence_of};
ghost use Rattle.fault_words.specs.ManifestLines.{words_of_bad_path};

/// Where a line of a bag's manifest lists no good path (L5), the cause is known from the bag, and its
/// sentence says it.
pub fn causes_are_told()
    ensures known { (files : List File) (name : List ℕ) (line : ℕ) → IsBag files
        → Applies files (ManifestText name (BadPath line))
        → IsSome (cause_at files name line) }
    ensures told { (files : List File) (name : List ℕ) (line : ℕ) → IsBag files
        → Applies files (ManifestText name (BadPath line))
        → (cause : PathCause) × (sentence_of files (ManifestText name (BadPath line))
        ≡ words_of_bad_path name line cause) }
{}
