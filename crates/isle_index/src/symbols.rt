//! The symbols of a file: the names that it defines.

ghost use Rattle.std.specs.Prelude.{◌≡◌, IfOk, option_map};
ghost use Rattle.isle_index.specs.Symbols.{kind_of, symbol, symbol_of};
ghost use Rattle.isle_resolve.specs.EventView.{event_of};

use crate::occurrences::written_len;
use isle_base::lexer::Pos;
use isle_resolve::event::{Event, Kind};
use isle_resolve::names::full_name;
use std::alloc::{AllocError, Global};

/// The kind of a symbol or a candidate.
#[derive(Clone, Copy, PartialEq, Eq)]
pub enum SymbolKind {
    /// A term declared by a `decl`.
    Term,
    Type,
    /// A variant of a type.
    Variant,
    Constant,
    /// A variable, which only a candidate can be.
    Variable,
}

/// A name that is defined.
#[derive(Drop)]
pub struct Symbol {
    pub kind: SymbolKind,
    /// Its name: `TYPE.VARIANT` for a variant, and without its `$` for a constant.
    pub text: String,
    /// The position of the name's first byte, which for a constant is the `$`.
    pub pos: Pos,
    /// The length of the name there, in bytes.
    pub len: usize,
}

/// The global name that an event defines, if it defines one.
pub fn defined_symbol(alloc: Global, event: &Event) -> Result<Option<Symbol>, AllocError>
    ensures { IfOk result
        (λ found. option_map symbol_of found ≡ symbol (event_of event.now)) }
{
    match event {
        Event::Defines(kind, word) => {
            let text = String::from_str(alloc, word.text)?;
            Ok(Some(Symbol {
                kind: kind_of(*kind),
                text,
                pos: word.pos,
                len: written_len(*kind, word),
            }))
        }
        Event::DefinesVariant { owner, member } => {
            let text = full_name(alloc, owner.text, member.text)?;
            Ok(Some(Symbol {
                kind: SymbolKind::Variant,
                text,
                pos: member.pos,
                len: member.text.len(),
            }))
        }
        Event::Uses(..)
        | Event::Occurs(..)
        | Event::Binds(_)
        | Event::Reads(_)
        | Event::Closes
        | Event::Ends => Ok(None),
    }
}

fn kind_of(kind: Kind) -> SymbolKind
    ensures { result ≡ kind_of kind }
{
    match kind {
        Kind::Term => SymbolKind::Term,
        Kind::Type => SymbolKind::Type,
        Kind::Constant => SymbolKind::Constant,
    }
}
