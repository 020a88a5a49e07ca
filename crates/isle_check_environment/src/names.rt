//! Names with their positions, found by their text.

ghost use Rattle.std.specs.Prelude.{◌≡◌, ◌∷◌, ◌++◌, [], is_some, string_bytes, OnOk, List};
ghost use Rattle.std.specs.HashMap.{get_by_text};
ghost use Rattle.isle_ast_names.specs.Tree.{Name};
ghost use Rattle.isle_ast_names.specs.TreeView.{name_of};
ghost use Rattle.isle_check_environment.specs.Names.{Knows, has, place_of};

use crate::by_text::ByText;
use isle_ast::ast::Ident;
use isle_base::lexer::Pos;
use std::alloc::{AllocError, Global};

/// Names by text, each with the position of the last one of this text.
pub type Names = ByText<Pos>;

/// Returns no names.
pub fn no_names(alloc: Global) -> Names
    ensures { Knows result [] }
{
    ByText::new(alloc)
}

/// Adds a name. An `Err` means out of memory.
pub fn add_name(names: &mut Names, name: &Ident) -> Result<(), AllocError>
    ensures { OnOk result ((known : List Name) → Knows names.old known
        → Knows names.new (known ++ name_of name.now ∷ [])) }
{
    add_text(names, name.0.clone()?, name.1)
}

/// Adds a name that has this text and this position. An `Err` means out of memory.
pub fn add_text(names: &mut Names, text: String, pos: Pos) -> Result<(), AllocError>
    ensures { OnOk result ((known : List Name) → Knows names.old known
        → Knows names.new (known ++ record { text = string_bytes text; pos = pos } ∷ [])) }
{
    names.insert(text, pos)?;
    Ok(())
}

/// Returns the position of the last name that has this text.
pub fn place_of(names: &Names, text: &str) -> Option<Pos>
    ensures looked_up { result ≡ get_by_text names.now text.now }
    ensures known { (known : List Name) → Knows names.now known → result ≡ place_of known text.now }
{
    match names.get(text) {
        Some(pos) => Some(*pos),
        None => None,
    }
}

/// Returns whether one of the names has this text.
pub fn has(names: &Names, text: &str) -> bool
    ensures looked_up { result ≡ is_some (get_by_text names.now text.now) }
    ensures known { (known : List Name) → Knows names.now known → result ≡ has known text.now }
{
    place_of(names, text).is_some()
}
