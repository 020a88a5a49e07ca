//! The classes of the names of a text, as far as its definitions are known: all but the broken
//! ones.

ghost use Rattle.std.specs.Prelude.{◌≡◌, IfOk, None, OnOk, Some, option_map, string_bytes};
ghost use Rattle.isle_program.specs.Nesting.{FirstDeep};
ghost use Rattle.isle_lsp_colours.specs.Known.{AddsDefinitions, AddsFront, AddsPiece};
ghost use Rattle.isle_lsp_colours.specs.Known.{AreClasses};

use crate::classes::Class;
use crate::names::add_names;
use isle_base::lexer::{Fault, Lexer};
use isle_lsp_features::rests::rest_behind;
use isle_parser::dropping::drop_definition;
use isle_parser::parser::Parser;
use isle_program::nesting::deep_list;
use std::alloc::{AllocError, Global};

/// How many pieces of a text are read: each may take as long as the whole text.
const MOST_PIECES: usize = 100;

/// The classes of the names of the known definitions of a text, by byte offset: one for each byte
/// of the text, `None` where no such name begins. Only one definition is in memory at a time.
pub fn classes_of(alloc: Global, text: &str) -> Result<Vec<Option<Class>>, AllocError>
    ensures { IfOk result (λ classes. AreClasses text.now classes.items) }
{
    let mut classes = vec![in alloc; None; text.len()]?;
    let mut piece = String::from_str(alloc, text)?;
    let mut left = MOST_PIECES;
    while left > 0 {
        match add_piece(alloc, piece.as_str(), &mut classes)? {
            Some(rest) => piece = rest,
            None => return Ok(classes),
        }
        left -= 1;
    }
    Ok(classes)
}

/// Adds the names of the definitions that a text begins with. Returns what is left of it behind a
/// definition that is broken.
fn add_piece(
    alloc: Global,
    text: &str,
    classes: &mut [Option<Class>],
) -> Result<Option<String>, AllocError>
    ensures { IfOk result (λ rest. AddsPiece text.now classes.old classes.new
        (option_map string_bytes rest)) }
{
    match deep_list(alloc, text)? {
        Some(offset) => {
            add_front(alloc, text, offset, classes)?;
            Ok(None)
        }
        None => add_shallow(alloc, text, classes),
    }
}

/// Adds the names of the definitions that the bytes before an offset begin with, or none if that
/// splits a character.
fn add_front(
    alloc: Global,
    text: &str,
    offset: usize,
    classes: &mut [Option<Class>],
) -> Result<(), AllocError>
    ensures { OnOk result (AddsFront text.now offset classes.old classes.new) }
{
    let mut count = 0;
    match text.split_at_checked(offset) {
        Some((front, _)) => match add_definitions(alloc, front, classes, &mut count) {
            Ok(()) => Ok(()),
            Err(Fault::Error(_)) => Ok(()),
            Err(Fault::Failed | Fault::Memory) => Err(AllocError),
        },
        None => Ok(()),
    }
}

/// Adds the names of the definitions that a text begins with, which does not nest too deeply.
/// Returns what is left of it behind a definition that is broken.
fn add_shallow(
    alloc: Global,
    text: &str,
    classes: &mut [Option<Class>],
) -> Result<Option<String>, AllocError>
    requires { FirstDeep text.now None }
    ensures { IfOk result (λ rest. AddsPiece text.now classes.old classes.new
        (option_map string_bytes rest)) }
{
    let mut count = 0;
    match add_definitions(alloc, text, classes, &mut count) {
        Ok(()) => Ok(None),
        Err(Fault::Error(_)) => rest_behind(alloc, text, count),
        Err(Fault::Failed | Fault::Memory) => Err(AllocError),
    }
}

/// Adds the names of the definitions of a text, one after another, up to its first error, and
/// counts the definitions. A count past `usize::MAX` is out of memory.
fn add_definitions(
    alloc: Global,
    text: &str,
    classes: &mut [Option<Class>],
    count: &mut usize,
) -> Result<(), Fault>
    requires { count.old ≡ 0 }
    ensures { AddsDefinitions text.now classes.old classes.new count.new result }
{
    let mut parser = Parser::new(Lexer::new(alloc, 0, text)?);
    while let Some(def) = parser.next_def(alloc)? {
        let added = add_names(alloc, &def, classes);
        drop_definition(def);
        added?;
        *count = count.checked_add(1).ok_or(AllocError)?;
    }
    Ok(())
}
