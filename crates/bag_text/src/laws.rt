//! Laws of the definitions alone.

ghost use Rattle.std.specs.Prelude.{◌≡◌, ℕ, Bool, List, [], ◌++◌, ◌⊎◌, ◌↔◌, true, false, Some, None, Ok, Err, Contains};
ghost use Rattle.std.specs.Str.{is_utf8};
ghost use Rattle.bag_text.specs.Lines.{AreLines, lines};
ghost use Rattle.bag_text.specs.Paths.{GoodPath, is_good, path_fault};
ghost use Rattle.bag_text.specs.Declaration.{Declares, declaration_fault};
ghost use Rattle.bag_text.specs.DeclarationReading.{declaration_of};
ghost use Rattle.bag_text.specs.Manifest.{Spells, decode, has_coded, IsManifest, ManifestFault, as_manifest, LineLists};
ghost use Rattle.bag_text.specs.ManifestReading.{Entries, manifest_of};
ghost use Rattle.bag_text.specs.BagInfo.{Pair, SaysInfo, InfoFaultIs};
ghost use Rattle.bag_text.specs.InfoReading.{info_of};
ghost use Rattle.bag_text.specs.TransferForm.{File, IsBag, set_text, Clashes, clashes};
ghost use Rattle.bag_text.specs.TransferFaults.{FaultIs};
ghost use Rattle.bag_text.specs.TransferReading.{set_of};
ghost use Rattle.bag_text.specs.BagList.{ListFault, list_fault};
ghost use Rattle.bag_text.specs.declared.bag_info.InfoFault.{InfoFault};
ghost use Rattle.bag_text.specs.declared.checksum.Algorithm.{Algorithm};
ghost use Rattle.bag_text.specs.declared.checksum.Checksum.{Checksum};
ghost use Rattle.bag_text.specs.declared.declaration.DeclFault.{DeclFault};
ghost use Rattle.bag_text.specs.declared.declaration.Version.{Version};
ghost use Rattle.bag_text.specs.declared.declaration.Version.TheVariants.{V0_97};
ghost use Rattle.bag_text.specs.declared.listing.LineFault.{LineFault};
ghost use Rattle.bag_text.specs.declared.set_fault.SetFault.{SetFault};

/// Two bags have two texts, and no text begins another.
pub fn one_text()
    ensures one { (a b : List File)
        → IsBag a → IsBag b → set_text a ≡ set_text b → a ≡ b }
    ensures apart { (a b : List File) → IsBag a → IsBag b → (more : List ℕ)
        → set_text a ≡ set_text b ++ more → more ≡ [] }
{}

/// A text is the form of a bag or has a fault of the table, not both, and no two faults.
pub fn one_fault()
    ensures whole { (t : List ℕ)
        → ((files : List File) × IsBag files × (t ≡ set_text files))
        ⊎ ((fault : SetFault) × FaultIs t fault) }
    ensures apart { (files : List File) (fault : SetFault) → IsBag files
        → FaultIs (set_text files) fault → ⊥ }
    ensures one { (t : List ℕ) (a b : SetFault) → FaultIs t a → FaultIs t b → a ≡ b }
{}

/// Reading a text answers a bag exactly where the text is the bag's transfer form, and a fault exactly where it is the
/// text's first.
pub fn transfer_forms()
    ensures read { (t : List ℕ) (files : List File) → (set_of t ≡ Ok files)
        ↔ (IsBag files × (t ≡ set_text files)) }
    ensures first { (t : List ℕ) (fault : SetFault)
        → (set_of t ≡ Err fault) ↔ FaultIs t fault }
{}

/// Paths clash exactly where the test says so.
pub fn one_clash()
    ensures { (files : List File) → Clashes files ↔ (clashes files ≡ true) }
{}

/// The fault that is computed of a list of files is the first one of the table, and none is exactly in a bag.
pub fn one_list_fault()
    ensures first { (files : List File) (fault : SetFault) → (list_fault files ≡ Some fault)
        ↔ ListFault files fault }
    ensures none { (files : List File) → (list_fault files ≡ None) ↔ IsBag files }
{}

/// A text falls into one list of lines.
pub fn one_list_of_lines()
    ensures some { (t : List ℕ) → AreLines t (lines t) }
    ensures one { (t : List ℕ) (ls : List (List ℕ)) → AreLines t ls → lines t ≡ ls }
{}

/// A path is good exactly where it is UTF-8 and no row of the faults applies.
pub fn good_paths()
    ensures tested { (path : List ℕ) → GoodPath path ↔ (is_good path ≡ true) }
    ensures unless { (path : List ℕ) → is_utf8 path ≡ true →
        GoodPath path ↔ (path_fault path ≡ None) }
{}

/// A text spells a path exactly where it is decoded to it, so each spells one.
pub fn one_path()
    ensures { (v : Version) (s p : List ℕ) → Spells v s p ↔ (decode v s ≡ p) }
{}

/// A path that a manifest of version 0.97 lists has no `%0A` or `%0D` in it: there these three characters always mean
/// the end of a line.
pub fn coded_names()
    ensures { (s p : List ℕ) → Spells V0_97 s p → has_coded V0_97 p ≡ false }
{}

/// A text declares a version exactly where reading it answers that version, and where it declares none, reading answers
/// the first fault that applies.
pub fn declarations()
    ensures declared { (text : List ℕ) (version : Version) →
        (declaration_of text ≡ Ok version) ↔ Declares text version }
    ensures first { (text : List ℕ) (fault : DeclFault) →
        (declaration_of text ≡ Err fault) ↔ (declaration_fault text ≡ Some fault) }
{}

/// A text of `bag-info.txt` says the pairs that reading it answers, and where it says nothing, reading
/// answers its first fault.
pub fn bag_info()
    ensures said { (text : List ℕ) (pairs : List Pair) →
        (info_of text ≡ Ok pairs) ↔ SaysInfo text pairs }
    ensures first { (text : List ℕ) (fault : InfoFault) →
        (info_of text ≡ Err fault) ↔ InfoFaultIs text fault }
{}

/// A text is a manifest exactly where reading it answers entries, which are what its lines list, and where it is
/// none, reading answers its first fault.
pub fn manifests()
    ensures read { (v : Version) (a : Algorithm) (text : List ℕ) →
        ((es : Entries) × (manifest_of v a text ≡ Ok es)) ↔ IsManifest v a text }
    ensures first { (v : Version) (a : Algorithm) (text : List ℕ) (fault : LineFault) →
        (manifest_of v a text ≡ Err fault) ↔ ManifestFault v a text fault }
    ensures listed { (v : Version) (a : Algorithm) (text : List ℕ) (es : Entries) (path : List ℕ)
        (checksum : Checksum) (number : ℕ) → manifest_of v a text ≡ Ok es
        → ((is_decoded : Bool)
        × Contains es
        (path, record { checksum = checksum; line = number; is_decoded = is_decoded }))
        ↔ LineLists (as_manifest v a text) number path checksum }
{}
