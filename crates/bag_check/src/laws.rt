//! Laws of the definitions alone.

ghost use Rattle.std.specs.Prelude.{◌≡◌, ◌↔◌, ℕ, true, List, Some, Ok, Err};
ghost use Rattle.bag_text.specs.TransferForm.{File, IsBag};
ghost use Rattle.bag_text.specs.declared.declaration.Version.{Version};
ghost use Rattle.bag_check.specs.declared.names.Kind.{Kind};
ghost use Rattle.bag_check.specs.Contents.{IsManifestName, manifest_name, IsPayload, is_payload};
ghost use Rattle.bag_check.specs.Validity.{NamesCounts, Report, Valid, report_of};
ghost use Rattle.bag_check.specs.OxumReading.{counts_of};
ghost use Rattle.bag_check.specs.Faults.{Fault, Applies, FirstFault};
ghost use Rattle.bag_check.specs.Judging.{judge};

pub use bag_text::laws::one_text;

/// The tests of a path are the relations: a manifest's name, and a path of the payload.
pub fn manifest_names()
    ensures manifest { (kind : Kind) (alg name : List ℕ)
        → (manifest_name name ≡ Some (kind, alg)) ↔ IsManifestName kind alg name }
    ensures payload { (path : List ℕ) → (is_payload path ≡ true) ↔ IsPayload path }
{}

/// Reading the value of a `Payload-Oxum` gives the counts that it names, and none where it names
/// none.
pub fn oxum_counts()
    ensures { (value : List ℕ) (bytes files : ℕ)
        → (counts_of value ≡ Some (bytes, files)) ↔ NamesCounts value bytes files }
{}

/// No fault of the table applies to a valid bag, and a bag to which none applies is valid.
pub fn no_fault_where_valid()
    ensures none { (files : List File) (v : Version) (fault : Fault) → IsBag files
        → Valid files v → Applies files fault → ⊥ }
    ensures exactly { (files : List File) → IsBag files
        → ((v : Version) × Valid files v) ↔ ((fault : Fault) → Applies files fault → ⊥) }
{}

/// A bag has one first fault at most.
pub fn one_first_fault()
    ensures { (files : List File) (a b : Fault) → IsBag files
        → FirstFault files a → FirstFault files b → a ≡ b }
{}

/// Judging a bag answers a report exactly where the bag is valid, and a fault exactly where that is
/// its first.
pub fn judged_bags()
    ensures report { (files : List File) (report : Report)
        → IsBag files → judge files ≡ Ok report
        → (v : Version) × Valid files v × (report ≡ report_of v files) }
    ensures valid { (files : List File) (v : Version) → IsBag files → Valid files v
        → judge files ≡ Ok (report_of v files) }
    ensures first { (files : List File) (fault : Fault) → IsBag files
        → (judge files ≡ Err fault) ↔ FirstFault files fault }
{}
