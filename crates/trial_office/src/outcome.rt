//! How a case came out.

/// How a case came out.
#[derive(Clone, Copy)]
pub(crate) enum Outcome {
    /// With the answer that was worked out.
    Expected,
    /// Memory ran out.
    Memory,
    /// With anything else.
    Wrong,
}

impl Outcome {
    /// The answer that was worked out, or a wrong one.
    pub(crate) fn expected_if(holds: bool) -> Outcome {
        if holds {
            Outcome::Expected
        } else {
            Outcome::Wrong
        }
    }

    /// Memory ran out, or the answer is wrong.
    pub(crate) fn memory_if(holds: bool) -> Outcome {
        if holds {
            Outcome::Memory
        } else {
            Outcome::Wrong
        }
    }

    /// What comes out of two.
    pub(crate) fn and(self, other: Outcome) -> Outcome {
        match (self, other) {
            (Outcome::Wrong, _) => Outcome::Wrong,
            (_, Outcome::Wrong) => Outcome::Wrong,
            (Outcome::Expected, Outcome::Expected) => Outcome::Expected,
            _ => Outcome::Memory,
        }
    }

    /// Memory ran out, and this came when it was asked again.
    pub(crate) fn again(self) -> Outcome {
        match self {
            Outcome::Expected => Outcome::Memory,
            _ => Outcome::Wrong,
        }
    }

    /// The outcome in words.
    pub(crate) fn words(self) -> &'static str {
        match self {
            Outcome::Expected => "as worked out",
            Outcome::Memory => "lack of memory",
            Outcome::Wrong => "WRONG",
        }
    }
}
