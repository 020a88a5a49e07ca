//! Misuses of extractors. Definitions with one have no expansion.

ghost use Rattle.std.specs.Prelude.{◌≡◌, Some};
ghost use Rattle.isle_expand_core.specs.Misuses.{misuse_pos, misuse_text};
ghost use Rattle.isle_expand_core.specs.Views.{misuse_of};
ghost use Rattle.isle_expand_core.specs.declared.misuse.ExpandFault.TheVariants.{Memory};

use isle_ast::ast::Ident;
use isle_base::lexer::Pos;
use std::alloc::AllocError;
use std::fmt;

/// A use of an extractor that has no expansion, or a second extractor of a term.
#[derive(Drop)]
pub enum Misuse {
    /// The use of an extractor whose expansion does not end: it comes back to itself, or uses one
    /// that does.
    Cycle {
        /// The term that is used.
        term: Ident,
        /// The position of the use.
        pos: Pos,
    },
    /// A use with another number of arguments than the extractor has parameters.
    Arguments {
        /// The term that is used.
        term: Ident,
        /// The position of the use.
        pos: Pos,
        /// How many parameters the extractor has.
        expected: usize,
        /// How many arguments the use has.
        given: usize,
    },
    /// An extractor of a term that already has one.
    Again {
        /// The term.
        term: Ident,
        /// The position of the later extractor.
        pos: Pos,
    },
}

impl Misuse {
    /// The position of the use, or of the later extractor.
    pub fn pos(&self) -> Pos
        ensures { result ≡ misuse_pos (misuse_of self.now) }
    {
        match self {
            Misuse::Cycle { pos, .. } => *pos,
            Misuse::Arguments { pos, .. } => *pos,
            Misuse::Again { pos, .. } => *pos,
        }
    }
}

/// Writes the message, one line without the position.
impl fmt::Display for Misuse {
    ghost output = { λ misuse. Some (misuse_text (misuse_of misuse)) };

    fn fmt<W: fmt::Write>(&self, f: &mut fmt::Formatter<W>) -> fmt::Result {
        match self {
            Misuse::Cycle { term, .. } => {
                f.write_str("`")?;
                f.write_str(term.0.as_str())?;
                f.write_str("` extractor definition is recursive")
            }
            Misuse::Arguments {
                term,
                expected,
                given,
                ..
            } => {
                f.write_str("Incorrect argument count for term '")?;
                f.write_str(term.0.as_str())?;
                write!(f, "': got {given}, expect {expected}")
            }
            Misuse::Again { term, .. } => {
                f.write_str("Duplicate extractor definition of '")?;
                f.write_str(term.0.as_str())?;
                f.write_str("'")
            }
        }
    }
}

/// Why definitions were not expanded.
#[derive(Drop)]
pub enum ExpandFault {
    /// They have no expansion, because of this misuse.
    Misuse(Misuse),
    /// Out of memory.
    Memory,
}

impl From<AllocError> for ExpandFault {
    ghost from_gives = { λ _ fault. fault ≡ Memory };

    fn from(_error: AllocError) -> ExpandFault {
        ExpandFault::Memory
    }
}
