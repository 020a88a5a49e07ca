//! The names in an ISLE text: its symbols.

ghost use Rattle.std.specs.Prelude.{◌≡◌, ◌++◌, IfOk, OnOk, map, option_map};
ghost use Rattle.isle_base.specs.TokenView.{token_of_ref};
ghost use Rattle.isle_lsp_actions.specs.Names as wanted;
ghost use Rattle.isle_lsp_actions.specs.Names.{AreNames, count_in, is_in, name_of, named, names_of};

use isle_base::lexer::{Fault, Pos};
use isle_base::scanner::{Scanner, TokenRef};
use isle_lsp_text::lists::ListSpan;
use std::alloc::{AllocError, Global};

/// A symbol.
#[derive(Clone, Copy)]
pub struct Name<'a> {
    /// The byte offset at which it begins.
    pub offset: usize,
    /// Its text.
    pub text: &'a str,
}

/// The names in a text, in order. After a lexical error there are no more.
pub fn names_in<'a>(alloc: Global, text: &'a str) -> Result<Vec<Name<'a>>, AllocError>
    ensures { IfOk result (λ found. AreNames text.now (map name_of found.items)) }
{
    match Scanner::new(alloc, 0, text) {
        Ok(scanner) => names_ahead(alloc, scanner),
        Err(Fault::Error(_)) => Ok(Vec::new(alloc)),
        Err(Fault::Failed | Fault::Memory) => Err(AllocError),
    }
}

/// The names among the tokens that a scanner has not read yet.
fn names_ahead<'a>(alloc: Global, mut scanner: Scanner<'a>) -> Result<Vec<Name<'a>>, AllocError>
    ensures { IfOk result
        (λ found. map name_of found.items ≡ names_of scanner.entry.coming) }
{
    let mut found = Vec::new(alloc);
    while let Some(ahead) = scanner.peek() {
        let ahead = *ahead;
        add(ahead, &mut found)?;
        if scanner.step().is_none() {
            return Ok(found);
        }
    }
    Ok(found)
}

/// Adds a token, if it is a name.
fn add<'a>(ahead: (Pos, TokenRef<'a>), found: &mut Vec<Name<'a>>) -> Result<(), AllocError>
    ensures { OnOk result (map name_of found.new.items
        ≡ map name_of found.old.items
        ++ named (token_of_ref ahead.entry.1) ahead.entry.0.offset) }
{
    let (pos, token) = ahead;
    if let TokenRef::Symbol(text) = token {
        let offset = pos.offset;
        found.push(Name { offset, text })?;
    }
    Ok(())
}

/// The name that begins at an offset.
pub fn name_at<'a>(names: &[Name<'a>], offset: usize) -> Option<&'a str>
    ensures { option_map (λ text. text.now) result
        ≡ wanted.name_at offset (map name_of names.now) }
{
    for name in names {
        if name.offset == offset {
            return Some(name.text);
        }
    }
    None
}

/// How often a name stands in a list.
pub fn count_in(names: &[Name], list: ListSpan, text: &str) -> usize
    ensures { result ≡ count_in list text.now (map name_of names.now) }
{
    let mut count = 0;
    for name in names {
        if is_in(name, list, text) {
            count += 1;
        }
    }
    count
}

/// Returns whether a name is this text, inside a list.
fn is_in(name: &Name, list: ListSpan, text: &str) -> bool
    ensures { result ≡ is_in list text.now (name_of name.now) }
{
    list.from < name.offset && name.offset < list.to && name.text == text
}
