//! The tokens of an ISLE text, and what is written there.

ghost use Rattle.std.specs.Prelude.{◌≡◌, IfOk, IsCharBoundary, IsTrue, map};
ghost use Rattle.isle_lsp_actions.specs.Tokens as wanted;
ghost use Rattle.isle_lsp_actions.specs.Tokens.{AreTokens, lexeme_of, spelled};
ghost use Rattle.isle_lsp_context.specs.Signatures.{can_cut, written};

use isle_base::lexer::Fault;
use isle_base::scanner::{Scanner, TokenRef};
use isle_lsp_text::wholes::Part;
use std::alloc::{AllocError, Global};

/// A token at its place in a text. Offsets count bytes.
#[derive(Clone, Copy)]
pub struct Lexeme<'a> {
    /// The offset at which it begins.
    pub from: usize,
    /// The token.
    pub token: TokenRef<'a>,
    /// The offset at which it ends.
    pub to: usize,
}

/// The tokens of a text, in order. After a lexical error there are no more.
pub fn tokens_in<'a>(alloc: Global, text: &'a str) -> Result<Vec<Lexeme<'a>>, AllocError>
    ensures { IfOk result (λ found. AreTokens text.now (map lexeme_of found.items)) }
{
    match Scanner::new(alloc, 0, text) {
        Ok(scanner) => tokens_ahead(alloc, scanner),
        Err(Fault::Error(_)) => Ok(Vec::new(alloc)),
        Err(Fault::Failed | Fault::Memory) => Err(AllocError),
    }
}

/// The tokens that a scanner has not read yet.
fn tokens_ahead<'a>(alloc: Global, mut scanner: Scanner<'a>) -> Result<Vec<Lexeme<'a>>, AllocError>
    ensures { IfOk result (λ found. map lexeme_of found.items ≡ scanner.entry.coming) }
{
    let mut found = Vec::new(alloc);
    while let Some(ahead) = scanner.peek() {
        let (pos, token) = *ahead;
        let (from, to) = (pos.offset, scanner.pos().offset);
        found.push(Lexeme { from, token, to })?;
        if scanner.step().is_none() {
            return Ok(found);
        }
    }
    Ok(found)
}

/// A token as it is written.
pub fn spelled<'a>(text: &'a str, token: &Lexeme) -> &'a str
    ensures { result.now ≡ spelled text.now (lexeme_of token.now) }
{
    let (from, to) = (token.from, token.to);
    written(text, Part { from, to })
}

/// A part of a text as it is written; nothing if it is not in the text, runs backwards or splits a
/// character.
pub fn written(text: &str, part: Part) -> &str
    ensures { result.now ≡ written text.now part }
{
    if part.from <= part.to && can_cut(text, part.from) && can_cut(text, part.to) {
        &text[part.from..part.to]
    } else {
        ""
    }
}

/// Returns whether a text can be cut at an offset.
fn can_cut(text: &str, offset: usize) -> bool
    ensures value { result ≡ can_cut text.now offset }
    ensures boundary { IsTrue result → IsCharBoundary text.now offset }
{
    text.is_char_boundary(offset)
}

/// Returns whether a token is `(`.
pub fn is_opening(token: &Lexeme) -> bool
    ensures { result ≡ wanted.is_opening (lexeme_of token.now).token }
{
    matches!(token.token, TokenRef::LParen)
}

/// Returns whether a token is `)`.
pub fn is_closing(token: &Lexeme) -> bool
    ensures { result ≡ wanted.is_closing (lexeme_of token.now).token }
{
    matches!(token.token, TokenRef::RParen)
}

/// Returns whether a token is `@`.
pub fn is_at_sign(token: &Lexeme) -> bool
    ensures { result ≡ wanted.is_at_sign (lexeme_of token.now).token }
{
    matches!(token.token, TokenRef::At)
}

/// Returns whether a token is this symbol.
pub fn is_word(token: &Lexeme, word: &str) -> bool
    ensures { result ≡ wanted.is_word word.now (lexeme_of token.now).token }
{
    match token.token {
        TokenRef::Symbol(text) => text == word,
        TokenRef::LParen | TokenRef::RParen | TokenRef::Int(_) | TokenRef::At => false,
    }
}

/// Returns whether `@` is the first of these tokens.
pub fn begins_with_at(tokens: &[Lexeme]) -> bool
    ensures { result ≡ wanted.begins_with_at (map lexeme_of tokens.now) }
{
    match tokens {
        [first, ..] => is_at_sign(first),
        [] => false,
    }
}

/// Returns whether `@` and `_` are the first two of these tokens.
pub fn begins_with_at_any(tokens: &[Lexeme]) -> bool
    ensures { result ≡ wanted.begins_with_at_any (map lexeme_of tokens.now) }
{
    match tokens {
        [first, second, ..] => is_at_sign(first) && is_word(second, "_"),
        _ => false,
    }
}
