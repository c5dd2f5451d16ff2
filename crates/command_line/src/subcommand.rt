//! The subcommands of the program.

ghost use Rattle.std.specs.Prelude.{◌≡◌, MatchOption};
ghost use Rattle.command_line.specs.Lines.{name_text};

/// A subcommand of the program.
#[derive(Clone, Copy, Debug, PartialEq, Eq)]
pub enum Subcommand {
    Check,
    Pack,
    Unpack,
    Explain,
    Policy,
    Ask,
    Replay,
    Serve,
}

impl Subcommand {
    /// The subcommand that a word names.
    pub fn read(word: &str) -> Option<Subcommand>
        ensures { MatchOption result
            ((subcommand : Self) → word.now ≡ name_text subcommand → ⊥)
            (λ subcommand. word.now ≡ name_text subcommand) }
    {
        match word {
            "check" => Some(Subcommand::Check),
            "pack" => Some(Subcommand::Pack),
            "unpack" => Some(Subcommand::Unpack),
            "explain" => Some(Subcommand::Explain),
            "policy" => Some(Subcommand::Policy),
            "ask" => Some(Subcommand::Ask),
            "replay" => Some(Subcommand::Replay),
            "serve" => Some(Subcommand::Serve),
            _ => None,
        }
    }
}
