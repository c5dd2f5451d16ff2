//! Laws of an upgrade.

ghost use Rattle.std.specs.Prelude.{map};
ghost use Rattle.sqlite.specs.Effect.{Database};
ghost use Rattle.office_contents.specs.Tables.{contents_of};
ghost use Rattle.office_contents.specs.Contents.{AreContents, StoresOnce};
ghost use Rattle.office_tables.specs.Moving.{AllRows, BecomesAt, renewed};
ghost use Rattle.office_contents.specs.Versions.{Newest, tables_at};
ghost use Rattle.office_contents.specs.declared.version.TableVersion.{TableVersion as Version};

/// What is told of contents goes through an upgrade: contents that were stored once still are, and contents that
/// were exactly those of the files still are.
pub fn contents_stay()
    ensures once { (version : Version) (rows : AllRows) (old new : Database)
        → BecomesAt version old rows → BecomesAt Newest new (renewed version rows) → StoresOnce old
        → StoresOnce new }
    ensures held { (version : Version) (rows : AllRows) (old new : Database)
        → BecomesAt version old rows → BecomesAt Newest new (renewed version rows)
        → AreContents (map (λ f. f.content) (tables_at version old).files) (contents_of old)
        → AreContents (map (λ f. f.content) (tables_at Newest new).files) (contents_of new) }
{}
