//! Texts that are held to a rule, lent and owned.

ghost use Rattle.std.specs.Prelude.{◌≡◌, List, ℕ, Bool, true, IfOk};
ghost use Rattle.std.specs.Option.{SomeIff};

use std::alloc::{AllocError, Global};
use std::marker::{Model, PhantomData};

/// A kind of texts: those that its rule takes.
pub trait TextKind {
    /// The rule.
    ghost is_of_kind: { List ℕ → Bool };

    /// Whether the rule takes the text.
    fn is_of_kind(text: &str) -> bool
        ensures { result ≡ is_of_kind text.now };
}

/// A text of that kind. No other can be made.
#[derive(Drop)]
#[derive_where(Debug)]
pub struct Text<'a, K: TextKind> {
    text: &'a str,
    #[derive_where(skip)]
    kind: PhantomData<K>,
}

impl<'a, K: TextKind> Model for Text<'a, K> {
    ghost use Rattle.std.specs.Prelude.{◌≡◌, List, ℕ, true};

    ghost Value = { List ℕ };

    ghost view = { λ text. text.text.now };

    ghost invariant = { λ text. K.is_of_kind text.text.now ≡ true };
}

impl<'a, K: TextKind> Text<'a, K> {
    /// The text, where it is of the kind.
    pub fn read(text: &'a str) -> Option<Text<'a, K>>
        ensures { SomeIff result (K.is_of_kind text.now ≡ true) text.now }
    {
        if K::is_of_kind(text) {
            Some(Text {
                text,
                kind: PhantomData,
            })
        } else {
            None
        }
    }

    /// The text as a string, which is of the kind.
    pub fn as_str(&self) -> &'a str
        ensures text { result.now ≡ self.now }
        ensures kind { K.is_of_kind result.now ≡ true }
    {
        self.text
    }

    /// The same text, owned.
    pub fn to_owned(&self, alloc: Global) -> Result<OwnedText<K>, AllocError>
        ensures { IfOk result (λ owned. owned ≡ self.now) }
    {
        Ok(OwnedText {
            text: String::from_str(alloc, self.text)?,
            kind: PhantomData,
        })
    }
}

/// A text of that kind that owns its bytes. No other can be made.
#[derive(Drop)]
#[derive_where(Debug)]
pub struct OwnedText<K: TextKind> {
    text: String,
    #[derive_where(skip)]
    kind: PhantomData<K>,
}

impl<K: TextKind> Model for OwnedText<K> {
    ghost use Rattle.std.specs.Prelude.{◌≡◌, List, ℕ, true, string_bytes};

    ghost Value = { List ℕ };

    ghost view = { λ text. string_bytes text.text };

    ghost invariant = { λ text. K.is_of_kind (string_bytes text.text) ≡ true };
}

impl<K: TextKind> OwnedText<K> {
    /// The same text, lent.
    pub fn lend(&self) -> Text<'_, K>
        ensures { result ≡ self.now }
    {
        Text {
            text: self.text.as_str(),
            kind: PhantomData,
        }
    }

    /// The text as a string, which is of the kind.
    pub fn as_str(&self) -> &str
        ensures text { result.now ≡ self.now }
        ensures kind { K.is_of_kind result.now ≡ true }
    {
        self.text.as_str()
    }
}
