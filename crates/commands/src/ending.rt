//! How a run of the program ends.

ghost use Rattle.std.specs.Prelude.{◌≡◌, ◌⊎◌, ◌↔◌};
ghost use Rattle.commands.specs.declared.ending.Ending.TheVariants.{Accepted, Failed, Misused, Refused, Unsaid};

/// How a run of the program ends.
#[derive(Clone, Copy, Debug, PartialEq, Eq)]
pub enum Ending {
    /// The answer is yes, or the work is done.
    Accepted,
    /// The answer is no.
    Refused,
    /// The arguments are invalid, or name no day where the policy needs one.
    Misused,
    /// A device failed or memory ran out, and standard error says so.
    Failed,
    /// Standard error failed, when a failure, or what is wrong with the arguments, was to be printed to it.
    Unsaid,
}

impl Ending {
    /// The process's exit status.
    pub fn status(self) -> u8
        ensures accepted { result ≡ 0 ↔ self ≡ Accepted }
        ensures refused { result ≡ 1 ↔ self ≡ Refused }
        ensures misused { result ≡ 2 ↔ self ≡ Misused }
        ensures failed { result ≡ 3 ↔ ((self ≡ Failed) ⊎ (self ≡ Unsaid)) }
    {
        match self {
            Ending::Accepted => 0,
            Ending::Refused => 1,
            Ending::Misused => 2,
            Ending::Failed | Ending::Unsaid => 3,
        }
    }
}
