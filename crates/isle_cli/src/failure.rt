//! The ways in which a program fails.

ghost use Rattle.std.specs.Prelude.{◌≡◌};
ghost use Rattle.isle_cli.specs.Failure.{read_failure, status_of};
ghost use Rattle.isle_cli.specs.declared.failure.Failure.TheVariants.{Memory};

use crate::streams::ReadFault;
use std::alloc::{AllocError, AllocFailed};

/// Why a program fails.
#[derive(Drop)]
pub enum Failure {
    /// The input is rejected, with this message.
    Refused(String),
    /// The command line is invalid.
    Usage,
    /// The input can't be read to its end, or isn't UTF-8.
    Input,
    /// Out of memory.
    Memory,
    /// The output can't be written whole.
    Output,
}

impl From<AllocError> for Failure {
    ghost from_gives = { λ _ failure. failure ≡ Memory };

    fn from(_error: AllocError) -> Failure {
        Failure::Memory
    }
}

impl<T: Drop> From<AllocFailed<T>> for Failure {
    ghost from_gives = { λ _ failure. failure ≡ Memory };

    fn from(_error: AllocFailed<T>) -> Failure {
        Failure::Memory
    }
}

impl From<ReadFault> for Failure {
    ghost from_gives = { λ fault failure. failure ≡ read_failure fault };

    fn from(fault: ReadFault) -> Failure {
        match fault {
            ReadFault::Memory => Failure::Memory,
            _ => Failure::Input,
        }
    }
}

impl Failure {
    /// The exit status: 1 to 5, in the order of the variants.
    pub fn status(&self) -> u8
        ensures { result ≡ status_of self.now }
    {
        match self {
            Failure::Refused(_) => 1,
            Failure::Usage => 2,
            Failure::Input => 3,
            Failure::Memory => 4,
            Failure::Output => 5,
        }
    }
}
