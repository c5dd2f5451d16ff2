//! Texts that answers own.

ghost use Rattle.std.specs.Prelude.{◌≡◌, string_bytes};

use std::marker::Model;

/// The text of a fault: its code, and what it names. Contracts see it as its bytes.
#[derive(Debug, Drop)]
pub struct FaultText {
    text: String,
}

impl Model for FaultText {
    ghost use Rattle.std.specs.Prelude.{List, ℕ, string_bytes};

    ghost Value = { List ℕ };

    ghost view = { λ fault. string_bytes fault.text };
}

impl FaultText {
    /// The text, as that of a fault.
    pub fn of(text: String) -> FaultText
        ensures { result ≡ string_bytes text }
    {
        FaultText { text }
    }

    /// The text, lent.
    pub fn as_str(&self) -> &str
        ensures { result.now ≡ self.now }
    {
        self.text.as_str()
    }
}
