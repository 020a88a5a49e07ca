//! The lists of an ISLE text, each from a `(` to its `)`.

ghost use Rattle.std.specs.Prelude.{◌≡◌, ◌+◌, ◌<◌, ◌^◌, ◌++◌, [], IfOk, OnOk, reverse};
ghost use Rattle.isle_base.specs.TokenView.{token_of_ref};
ghost use Rattle.isle_lsp_text.specs.Lists.{AreLists, closed, depth_after, holds, list_around};
ghost use Rattle.isle_lsp_text.specs.Lists.{lists_of, opened, outer_list};

use isle_base::lexer::{Fault, Pos};
use isle_base::scanner::{Scanner, TokenRef};
use std::alloc::{AllocError, Global};

/// A list of a text.
#[derive(Clone, Copy)]
pub struct ListSpan {
    /// The offset of its `(`.
    pub from: usize,
    /// The offset after its `)`.
    pub to: usize,
    /// The number of lists around it.
    pub depth: usize,
}

/// The lists of a text, in the order in which they end.
///
/// They are made of tokens, so parentheses in comments do not count. After a lexical error there
/// are no more.
pub fn lists(alloc: Global, text: &str) -> Result<Vec<ListSpan>, AllocError>
    ensures { IfOk result (λ found. AreLists text.now found.items) }
{
    match Scanner::new(alloc, 0, text) {
        Ok(scanner) => lists_ahead(alloc, scanner),
        Err(Fault::Error(_)) => Ok(Vec::new(alloc)),
        Err(Fault::Failed | Fault::Memory) => Err(AllocError),
    }
}

/// The lists among the tokens that a scanner has not read yet.
fn lists_ahead(alloc: Global, mut scanner: Scanner) -> Result<Vec<ListSpan>, AllocError>
    ensures { IfOk result (λ found. found.items ≡ lists_of [] scanner.entry.coming) }
{
    let mut begun = Vec::new(alloc);
    let mut found = Vec::new(alloc);
    while let Some(ahead) = scanner.peek() {
        let ahead = *ahead;
        add(ahead, &mut begun, &mut found)?;
        if scanner.step().is_none() {
            return Ok(found);
        }
    }
    Ok(found)
}

/// Processes a token: a `(` opens a list, and a `)` closes the list opened last.
fn add(
    ahead: (Pos, TokenRef),
    begun: &mut Vec<usize>,
    found: &mut Vec<ListSpan>,
) -> Result<(), AllocError>
    requires { ahead.0.offset + 1 < 2 ^ 64 }
    ensures begun { OnOk result (reverse begun.new.items
        ≡ opened (token_of_ref ahead.entry.1) ahead.entry.0.offset (reverse begun.old.items)) }
    ensures found { OnOk result (found.new.items
        ≡ found.old.items ++ closed (token_of_ref ahead.entry.1) ahead.entry.0.offset
        (reverse begun.old.items)) }
{
    let (pos, token) = ahead;
    match token {
        TokenRef::LParen => begun.push(pos.offset)?,
        TokenRef::RParen => {
            if let Some(from) = begun.pop() {
                let (to, depth) = (pos.offset + 1, begun.len());
                found.push(ListSpan { from, to, depth })?;
            }
        }
        TokenRef::Symbol(_) | TokenRef::Int(_) | TokenRef::At => {}
    }
    Ok(())
}

/// The innermost list around an offset that is nested in at least `depth` lists.
pub fn list_around(lists: &[ListSpan], depth: usize, offset: usize) -> Option<ListSpan>
    ensures { result ≡ list_around depth offset lists.now }
{
    for list in lists {
        if holds(list, depth, offset) {
            return Some(*list);
        }
    }
    None
}

/// Returns whether an offset is inside a list that is nested in at least `depth` lists.
fn holds(list: &ListSpan, depth: usize, offset: usize) -> bool
    ensures { result ≡ holds depth offset list.now }
{
    list.from < offset && offset < list.to && depth <= list.depth
}

/// The outermost list around an offset.
pub fn outer_list(lists: &[ListSpan], offset: usize) -> Option<ListSpan>
    ensures { result ≡ outer_list offset lists.now }
{
    for list in lists {
        if list.depth == 0 && holds(list, 0, offset) {
            return Some(*list);
        }
    }
    None
}

/// The number of lists that are open after a token, where this many are open before it. A number
/// past `usize::MAX` is out of memory.
pub fn depth_after(depth: usize, token: TokenRef) -> Result<usize, AllocError>
    ensures { IfOk result (λ after. after ≡ depth_after depth (token_of_ref token.entry)) }
{
    match token {
        TokenRef::LParen => Ok(depth.checked_add(1).ok_or(AllocError)?),
        TokenRef::RParen => Ok(depth.saturating_sub(1)),
        TokenRef::Symbol(_) | TokenRef::Int(_) | TokenRef::At => Ok(depth),
    }
}
