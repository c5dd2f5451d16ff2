//! Why a run has nothing to say: a device or memory failed.

ghost use Rattle.std.specs.Prelude.{◌≡◌};
ghost use Rattle.std.specs.IoError.{error_kind};
ghost use Rattle.commands.specs.Failing.{failure_of_trouble, failure_of_kind};
ghost use Rattle.commands.specs.declared.failure.Failure.TheVariants.{Memory};

use crate::failure::Failure;
use std::alloc::AllocError;
use std::io::Error;

/// Why there is nothing to say.
#[derive(Clone, Copy, Debug)]
pub enum Trouble {
    /// A file, a standard stream or another device failed.
    Device(Error),
    /// A growth was refused.
    Memory,
}

impl From<Error> for Trouble {
    ghost from_gives = { λ error trouble. failure_of_trouble trouble ≡ failure_of_kind (error_kind error) };

    fn from(error: Error) -> Trouble {
        match Failure::from(error) {
            Failure::Device => Trouble::Device(error),
            Failure::Memory => Trouble::Memory,
        }
    }
}

impl From<AllocError> for Trouble {
    ghost from_gives = { λ _ trouble. failure_of_trouble trouble ≡ Memory };

    fn from(_error: AllocError) -> Trouble {
        Trouble::Memory
    }
}
