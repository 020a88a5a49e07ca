//! Identifiers, and tests and laws of names: the base of ISLE's syntax tree. `isle_ast` re-exports
//! the types under its own paths.
#![tactic(auto)]

pub mod identifier;
pub mod laws;
pub mod writability;

use isle_base::lexer::Pos;

/// An identifier: a variable, a term or a type.
///
/// Identifiers are ordered by the bytes of the text, then by file, then by offset.
#[derive(Clone, Debug, PartialEq, Eq, PartialOrd, Ord, Hash, Drop)]
pub struct Ident(pub String, pub Pos);
