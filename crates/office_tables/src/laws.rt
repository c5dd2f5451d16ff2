//! Laws of the rows of an office.

ghost use Rattle.std.specs.Prelude.{◌≡◌, ◌≤ℤ◌, ℕ, ℤ, List, None, Some, false, map, true};
ghost use Rattle.sqlite.specs.Effect.{Database};
ghost use Rattle.sqlite_rules.specs.Lists.{Has};
ghost use Rattle.office_rows.specs.Rows.{AreInOrder, ContentRow, FileRow, NumbersRise, RuleRow, file_at, live_holds};
ghost use Rattle.office_rows.specs.Matching.{Attempt, fits_attempt, matching_rule};
ghost use Rattle.office_contents.specs.Tables.{IsOffice, contents_of, tables_of};
ghost use Rattle.office_contents.specs.Contents.{AreContents, StoresOnce, content_at, is_intact, references_of};

/// In an office the numbers of deposits, those of holds and the places of rules rise from row to row, so none comes twice.
pub fn rows_in_order()
    ensures { (db : Database) → IsOffice db → AreInOrder (tables_of db) }
{}

/// In an office the live holds over a deposit rise by number.
pub fn live_holds_in_order()
    ensures { (db : Database) → IsOffice db → (deposit : ℤ) (collection class : List ℕ)
        → NumbersRise (λ n. n) (live_holds deposit collection class (tables_of db)) }
{}

/// Where contents are stored once, they are exactly those of the files, each once, under its own SHA-256 and with its length.
pub fn contents_are_those_of_files()
    ensures { (db : Database) → IsOffice db → StoresOnce db
        → AreContents (map (λ f. f.content) (tables_of db).files) (contents_of db) }
{}

/// In an office each file has a content, whose bytes are the file's; where contents are stored once, it is intact.
pub fn files_have_their_contents()
    ensures there { (db : Database) → IsOffice db → (n : ℤ) (path : List ℕ) (f : FileRow)
        → file_at n path (tables_of db).files ≡ Some f
        → (c : ContentRow)
        × (content_at n path (tables_of db).files (references_of db) (contents_of db) ≡ Some c)
        × (f.content ≡ c.bytes) }
    ensures intact { (db : Database) → IsOffice db → StoresOnce db
        → (n : ℤ) (path : List ℕ) (f : FileRow)
        → file_at n path (tables_of db).files ≡ Some f
        → is_intact (content_at n path (tables_of db).files (references_of db) (contents_of db)) ≡ true }
{}

/// In an office the rule that `match_rule` answers fits and is one of the rules, and no rule of a lower place fits; where it answers none, no rule fits.
pub fn matching_rules_are_least()
    ensures fits { (db : Database) → IsOffice db → (a : Attempt) (r : RuleRow)
        → matching_rule a.role a.action a.collection a.class a.day (tables_of db).rules ≡ Some r
        → fits_attempt a r ≡ true }
    ensures there { (db : Database) → IsOffice db → (a : Attempt) (r : RuleRow)
        → matching_rule a.role a.action a.collection a.class a.day (tables_of db).rules ≡ Some r
        → Has (tables_of db).rules r }
    ensures least { (db : Database) → IsOffice db → (a : Attempt) (r : RuleRow)
        → matching_rule a.role a.action a.collection a.class a.day (tables_of db).rules ≡ Some r
        → (s : RuleRow) → Has (tables_of db).rules s → fits_attempt a s ≡ true
        → r.place ≤ℤ s.place }
    ensures none { (db : Database) → IsOffice db → (a : Attempt)
        → matching_rule a.role a.action a.collection a.class a.day (tables_of db).rules ≡ None
        → (s : RuleRow) → Has (tables_of db).rules s → fits_attempt a s ≡ false }
{}
