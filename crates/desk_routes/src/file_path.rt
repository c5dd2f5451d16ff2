//! Paths of files, as a target spells them.

ghost use Rattle.std.specs.Prelude.{nat_le, length};

use office_core::{Text, TextKind};

/// The kind of paths of files: any text but the empty one.
pub struct FilePathKind;

impl TextKind for FilePathKind {
    ghost is_of_kind = { λ text. nat_le 1 (length text) };

    fn is_of_kind(text: &str) -> bool {
        !text.is_empty()
    }
}

/// What follows `files/` in a path, as it is spelled. It is never empty.
pub type FilePath<'p> = Text<'p, FilePathKind>;
