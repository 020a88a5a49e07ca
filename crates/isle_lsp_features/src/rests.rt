//! What is left to read of a text behind a definition that is broken.

ghost use Rattle.std.specs.Prelude.{◌≡◌, ◌+◌, ◌<◌, ◌^◌, IfOk, IfSome, drop, option_map};
ghost use Rattle.std.specs.Prelude.{string_bytes};
ghost use Rattle.std.specs.Str.{IsCharBoundary};
ghost use Rattle.isle_base.specs.Token.{rparen};
ghost use Rattle.isle_base.specs.TokenView.{token_of_ref};
ghost use Rattle.isle_lsp_features.specs.Rests as wanted;
ghost use Rattle.isle_lsp_features.specs.Rests.{IsBehind, IsRest, all_left, behind, lists_after};

use isle_base::lexer::Fault;
use isle_base::scanner::{Scanner, TokenRef};
use std::alloc::{AllocError, Global};

/// Which lists have yet to end at a token of a text.
#[derive(Clone, Copy)]
pub struct Lists {
    /// How many that are in no other list have yet to end.
    pub left: usize,
    /// How many are open.
    pub depth: usize,
}

/// What is left of a text behind the beginning of the definition that follows so many others: the
/// text from the next line on that begins with `(`, with blanks in place of what is before it.
/// `None` if there is no such line.
pub fn rest_behind(alloc: Global, text: &str, count: usize) -> Result<Option<String>, AllocError>
    ensures { IfOk result (λ rest. IsRest text.now count (option_map string_bytes rest)) }
{
    let start = behind_lists(alloc, text, count)?.unwrap_or(0);
    match line_behind(text, start) {
        Some(line) => Ok(Some(blanked(alloc, text, line)?)),
        None => Ok(None),
    }
}

/// The byte offset of the first token behind so many lists, or `None` if there is none.
///
/// Only tokens before the first lexical error count.
fn behind_lists(alloc: Global, text: &str, count: usize) -> Result<Option<usize>, AllocError>
    ensures { IfOk result (IsBehind text.now count) }
{
    match Scanner::new(alloc, 0, text) {
        Ok(scanner) => Ok(behind_ahead(scanner, count)),
        Err(Fault::Error(_)) => Ok(None),
        Err(Fault::Failed | Fault::Memory) => Err(AllocError),
    }
}

/// The same among the tokens that a scanner has not read yet.
fn behind_ahead(mut scanner: Scanner, count: usize) -> Option<usize>
    ensures { result ≡ behind (all_left count) scanner.entry.coming }
{
    let mut lists = Lists {
        left: count,
        depth: 0,
    };
    while let Some(ahead) = scanner.peek() {
        let (pos, token) = *ahead;
        if lists.left == 0 {
            return Some(pos.offset);
        }
        lists = lists.after(token);
        if scanner.step().is_none() {
            return None;
        }
    }
    None
}

impl Lists {
    /// Which lists have yet to end after a token.
    fn after(self, token: TokenRef) -> Lists
        requires { self.depth + 1 < 2 ^ 64 }
        ensures { result ≡ lists_after self (token_of_ref token.entry) }
    {
        match token {
            TokenRef::LParen => Lists {
                left: self.left,
                depth: self.depth + 1,
            },
            TokenRef::RParen => self.after_end(),
            TokenRef::Symbol(_) | TokenRef::Int(_) | TokenRef::At => self,
        }
    }

    /// The same after a `)`.
    fn after_end(self) -> Lists
        ensures { result ≡ lists_after self rparen }
    {
        if self.depth > 1 {
            Lists {
                left: self.left,
                depth: self.depth - 1,
            }
        } else {
            Lists {
                left: self.left.saturating_sub(1),
                depth: 0,
            }
        }
    }
}

/// The byte offset of the first `(` at or behind an offset that begins a line.
fn line_behind(text: &str, from: usize) -> Option<usize>
    ensures value { result ≡ wanted.line_from from (drop from text.now) }
    ensures boundary { IfSome result (IsCharBoundary text.now) }
{
    let bytes = text.as_bytes();
    for at in from..bytes.len() {
        if bytes[at] == b'\n' && begins_list(bytes, at + 1) {
            return Some(at + 1);
        }
    }
    None
}

/// Returns whether a `(` is at an offset.
fn begins_list(bytes: &[u8], at: usize) -> bool
    ensures { result ≡ wanted.begins_list (drop at bytes.now) }
{
    at < bytes.len() && bytes[at] == b'('
}

/// A text with blanks in place of what is before an offset.
fn blanked(alloc: Global, text: &str, start: usize) -> Result<String, AllocError>
    requires { IsCharBoundary text.now start }
    ensures { IfOk result (λ made. string_bytes made ≡ wanted.blanked start text.now) }
{
    let mut made = " ".repeat(alloc, start)?;
    made.push_str(&text[start..])?;
    Ok(made)
}
