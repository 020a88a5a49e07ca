//! The errors of lexers, parsers and the formatter.

ghost use Rattle.std.specs.Prelude.{◌≡◌, Some};
ghost use Rattle.isle_base.specs.FaultText.{fault_text};
ghost use Rattle.isle_base.specs.declared.fault.Fault.TheVariants as faults;
ghost use Rattle.isle_base.specs.declared.fault.Fault.TheVariants.{Memory};

use isle_base_source::error::Error;
use isle_base_source::messages::write_message;
use std::alloc::{AllocError, AllocFailed};
use std::fmt;

/// An error of a lexer, a parser or the formatter.
#[derive(Debug, Drop)]
pub enum Fault {
    /// The text is rejected, for this reason.
    Error(Error),
    /// An earlier call of the lexer already rejected its text.
    Failed,
    /// Memory ran out.
    Memory,
}

/// Writes the error: the kind and the reason of a rejection without its place, which `Errors`
/// displays; that the lexer already failed; or that memory ran out.
///
/// The text does not depend on the formatter's options. Nothing is allocated, and writing fails
/// only if the formatter does.
impl fmt::Display for Fault {
    ghost output = { λ fault. Some (fault_text fault) };

    ghost styled_output = { λ fault _. Some (fault_text fault) };

    fn fmt<W: fmt::Write>(&self, f: &mut fmt::Formatter<W>) -> fmt::Result {
        match self {
            Fault::Error(error) => write_message(f, error),
            Fault::Failed => f.write_str("the lexer already failed on this text"),
            Fault::Memory => f.write_str("out of memory"),
        }
    }
}

impl std::error::Error for Fault {}

impl From<Error> for Fault {
    ghost from_gives = { λ error fault. fault ≡ faults.Error error };

    fn from(error: Error) -> Fault {
        Fault::Error(error)
    }
}

impl From<AllocError> for Fault {
    ghost from_gives = { λ _ e. e ≡ Memory };

    fn from(_error: AllocError) -> Fault {
        Fault::Memory
    }
}

impl<T: Drop> From<AllocFailed<T>> for Fault {
    ghost from_gives = { λ _ e. e ≡ Memory };

    fn from(_error: AllocFailed<T>) -> Fault {
        Fault::Memory
    }
}
