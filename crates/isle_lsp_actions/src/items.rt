//! The items of a list in an ISLE text: the arguments of a use, the parameters of an extractor, or
//! the parts of a definition.

ghost use Rattle.std.specs.Prelude.{◌≡◌, IfOk, OnOk, map, option_map};
ghost use Rattle.isle_lsp_actions.specs.Items as wanted;
ghost use Rattle.isle_lsp_actions.specs.Items.{items_of};
ghost use Rattle.isle_lsp_actions.specs.Tokens.{lexeme_of};

use crate::tokens::{Lexeme, begins_with_at, is_at_sign, is_closing, written};
use isle_lsp_text::definitions::begins_definition;
use isle_lsp_text::lists::depth_after;
use isle_lsp_text::wholes::Part;
use std::alloc::{AllocError, Global};

/// The items of a list that ends.
#[derive(Drop)]
pub struct ListItems {
    /// The extent of each, from its first byte to its last.
    pub parts: Vec<Part>,
    /// The byte offset behind the `)` of the list.
    pub to: usize,
}

/// The items of a list up to its `)`, by the tokens of which these are the first, or `None` if it
/// does not end before the next line that begins a definition (`begins_definition`).
///
/// An item is a whole list or another token, and goes on behind `@` and before it, as in
/// `x @ (f y)`. A list that ends behind an `@` counts as one that does not end.
pub fn items(alloc: Global, text: &str, tokens: &[Lexeme]) -> Result<Option<ListItems>, AllocError>
    ensures { IfOk result (λ found.
        option_map items_of found ≡ wanted.items text.now (map lexeme_of tokens.now)) }
{
    let mut parts = Vec::new(alloc);
    let mut unfinished = None;
    let mut depth = 0;
    let mut rest = tokens;
    while let [token, more @ ..] = rest {
        if begins_definition(text, token.from) {
            return Ok(None);
        }
        if depth == 0 && is_closing(token) {
            return Ok(ended(parts, unfinished, token.to));
        }
        let from = unfinished.unwrap_or(token.from);
        depth = depth_after(depth, token.token)?;
        if goes_on(depth, token, more) {
            unfinished = Some(from);
        } else {
            parts.push(Part { from, to: token.to })?;
            unfinished = None;
        }
        rest = more;
    }
    Ok(None)
}

/// The items of a list that ends here, unless one is unfinished.
fn ended(parts: Vec<Part>, unfinished: Option<usize>, to: usize) -> Option<ListItems>
    ensures { option_map items_of result ≡ wanted.ended parts.items unfinished to }
{
    match unfinished {
        None => Some(ListItems { parts, to }),
        Some(_) => None,
    }
}

/// Returns whether an item goes on behind a token, after which so many lists of it are open.
fn goes_on(depth: usize, token: &Lexeme, rest: &[Lexeme]) -> bool
    ensures { result ≡ wanted.goes_on depth (lexeme_of token.now) (map lexeme_of rest.now) }
{
    depth > 0 || is_at_sign(token) || begins_with_at(rest)
}

/// These parts of a text as they are written.
pub fn texts_of<'a>(
    alloc: Global,
    text: &'a str,
    parts: &[Part],
) -> Result<Vec<&'a str>, AllocError>
    ensures { IfOk result (λ texts.
        map (λ t. t.now) texts.items ≡ wanted.texts_of text.now parts.now) }
{
    let mut texts = Vec::new(alloc);
    for part in parts {
        texts.push(written(text, *part))?;
    }
    Ok(texts)
}
