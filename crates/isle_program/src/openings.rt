//! Where the definitions of a text begin.

ghost use Rattle.std.specs.Prelude.{◌≡◌, ◌+◌, ◌<◌, ◌^◌, IfOk, length};
ghost use Rattle.isle_base.specs.TokenView.{token_of_ref};
ghost use Rattle.isle_program.specs.Openings.{AreOpenings, Ascend, begins, depth_after};
ghost use Rattle.isle_program.specs.Openings as Openings;

use isle_base::lexer::Fault;
use isle_base::scanner::{Scanner, TokenRef};
use std::alloc::{AllocError, Global};

/// The beginning of a definition.
#[derive(Clone, Copy)]
pub struct Opening {
    /// The byte offset of its `(`.
    pub start: usize,
    /// The byte offset after the token before it: the end of the definition before; 0 if there is
    /// none.
    pub before: usize,
}

/// The beginning of each definition of a text, in order: each `(` that is in no list.
///
/// Only tokens before the first lexical error count.
pub fn openings(alloc: Global, text: &str) -> Result<Vec<Opening>, AllocError>
    ensures exact { IfOk result (λ all. AreOpenings text.now all.items) }
    ensures ascend { IfOk result (λ all. Ascend (length text.now) 0 all.items) }
{
    match Scanner::new(alloc, 0, text) {
        Ok(scanner) => openings_ahead(alloc, scanner),
        Err(Fault::Error(_)) => Ok(Vec::new(alloc)),
        Err(Fault::Failed | Fault::Memory) => Err(AllocError),
    }
}

/// The same among the tokens that a scanner has not read yet.
fn openings_ahead(alloc: Global, mut scanner: Scanner) -> Result<Vec<Opening>, AllocError>
    ensures exact { IfOk result (λ all. all.items
        ≡ Openings.openings 0 0 scanner.entry.coming) }
    ensures ascend { IfOk result (λ all. Ascend scanner.entry.size 0 all.items) }
{
    let mut all = Vec::new(alloc);
    let mut before = 0;
    let mut depth: usize = 0;
    while let Some(ahead) = scanner.peek() {
        let (pos, token) = *ahead;
        if begins(depth, token) {
            let start = pos.offset;
            all.push(Opening { start, before })?;
        }
        before = scanner.pos().offset;
        depth = depth_after(depth, token);
        if scanner.step().is_none() {
            break;
        }
    }
    Ok(all)
}

/// Returns whether a token begins a definition, behind this many lists that are open.
fn begins(depth: usize, token: TokenRef) -> bool
    ensures { result ≡ begins depth (token_of_ref token.entry) }
{
    match token {
        TokenRef::LParen => depth == 0,
        TokenRef::RParen | TokenRef::Symbol(_) | TokenRef::Int(_) | TokenRef::At => false,
    }
}

/// The number of lists that are open after a token.
fn depth_after(depth: usize, token: TokenRef) -> usize
    requires { depth + 1 < 2 ^ 64 }
    ensures { result ≡ depth_after depth (token_of_ref token.entry) }
{
    match token {
        TokenRef::LParen => depth + 1,
        TokenRef::RParen => depth.saturating_sub(1),
        TokenRef::Symbol(_) | TokenRef::Int(_) | TokenRef::At => depth,
    }
}
