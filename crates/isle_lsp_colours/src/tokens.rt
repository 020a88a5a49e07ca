//! The tokens of a text that have a class.

ghost use Rattle.std.specs.Prelude.{◌≡◌, ◌++◌, IfOk, OnOk};
ghost use Rattle.isle_base.specs.TokenView.{token_of_ref};
ghost use Rattle.isle_lsp_colours.specs.Classes as wanted;
ghost use Rattle.isle_lsp_colours.specs.Tokens.{AreFound, entry, is_between, token_class};
ghost use Rattle.isle_lsp_colours.specs.Tokens.{token_if, tokens_of};

use crate::classes::{Class, TokenKind};
use crate::keywords::is_keyword;
use isle_base::lexer::Fault;
use isle_base::scanner::{Scanner, TokenRef};
use std::alloc::{AllocError, Global};

/// A token of a text that has a class.
#[derive(Clone, Copy)]
pub struct Token {
    /// The byte offset at which it begins.
    pub from: usize,
    /// The byte offset at which it ends.
    pub to: usize,
    /// What it is.
    pub class: Class,
}

/// The tokens of a text that have a class, in order; of those the ones that begin between two byte
/// offsets, if these are given. `classes` are the classes of names, by byte offset.
///
/// After a lexical error there are no more.
pub fn tokens_in(
    alloc: Global,
    text: &str,
    classes: &[Option<Class>],
    within: Option<(usize, usize)>,
) -> Result<Vec<Token>, AllocError>
    ensures { IfOk result (λ found. AreFound text.now classes.now within found.items) }
{
    match Scanner::new(alloc, 0, text) {
        Ok(scanner) => tokens_ahead(alloc, scanner, classes, within),
        Err(Fault::Error(_)) => Ok(Vec::new(alloc)),
        Err(Fault::Failed | Fault::Memory) => Err(AllocError),
    }
}

/// The same of the tokens that a scanner has not read yet.
fn tokens_ahead(
    alloc: Global,
    mut scanner: Scanner,
    classes: &[Option<Class>],
    within: Option<(usize, usize)>,
) -> Result<Vec<Token>, AllocError>
    ensures { IfOk result (λ found. found.items
        ≡ tokens_of (entry classes.now) within scanner.entry.coming) }
{
    let mut found = Vec::new(alloc);
    while let Some(ahead) = scanner.peek() {
        let (pos, token) = *ahead;
        let (from, to) = (pos.offset, scanner.pos().offset);
        if is_between(within, from) {
            add(from, to, class_of(token, entry(classes, from)), &mut found)?;
        }
        if scanner.step().is_none() {
            return Ok(found);
        }
    }
    Ok(found)
}

/// Adds a token, if it has a class.
fn add(
    from: usize,
    to: usize,
    class: Option<Class>,
    found: &mut Vec<Token>,
) -> Result<(), AllocError>
    ensures { OnOk result (found.new.items ≡ found.old.items ++ token_if from to class) }
{
    if let Some(class) = class {
        found.push(Token { from, to, class })?;
    }
    Ok(())
}

/// Returns whether an offset is at or after the first of two and before the second, or there are
/// none.
fn is_between(within: Option<(usize, usize)>, offset: usize) -> bool
    ensures { result ≡ is_between within offset }
{
    match within {
        Some((from, to)) => from <= offset && offset < to,
        None => true,
    }
}

/// The class of the name at an offset, if there is one.
fn entry(classes: &[Option<Class>], offset: usize) -> Option<Class>
    ensures { result ≡ entry classes.now offset }
{
    if offset < classes.len() {
        classes[offset]
    } else {
        None
    }
}

/// The class of a token, if it has one, where this is that of the name that it is.
fn class_of(token: TokenRef, name: Option<Class>) -> Option<Class>
    ensures { result ≡ token_class name (token_of_ref token.entry) }
{
    match token {
        TokenRef::Symbol(text) => match name {
            Some(class) => Some(class),
            None if is_keyword(text) => Some(used(TokenKind::Keyword)),
            None => None,
        },
        TokenRef::Int(_) => Some(used(TokenKind::Number)),
        TokenRef::LParen | TokenRef::RParen | TokenRef::At => None,
    }
}

/// The class of a token that defines nothing.
fn used(kind: TokenKind) -> Class
    ensures { result ≡ wanted.used kind }
{
    Class {
        kind,
        is_declaration: false,
    }
}
