//! The parameters of a declaration.

ghost use Rattle.std.specs.Prelude.{◌≡◌, IfOk, OnOk};
ghost use Rattle.isle_base.specs.TokenView.{token_of_ref};
ghost use Rattle.isle_lsp_context.specs.Signatures.{AreParameters, behind_opening, ends_list};
ghost use Rattle.isle_lsp_context.specs.Signatures.{items_from, parameters};

use crate::scanning::{pass, scan};
use isle_base::scanner::{Scanner, TokenRef};
use isle_lsp_text::lists::depth_after;
use isle_lsp_text::wholes::Part;
use std::alloc::{AllocError, Global};

/// The parameters of a declaration that has this text, in order: of `(decl pure f (A B) C)` the
/// items of the first list in it, here `A` and `B`; of a variant `(Reg (size T) (src Reg))` those
/// behind its name.
///
/// An item is a whole list, or a token outside of inner lists. One that does not end is left out,
/// and after a lexical error there are no more.
pub fn parameters(
    alloc: Global,
    declaration: &str,
    is_variant: bool,
) -> Result<Vec<Part>, AllocError>
    ensures { IfOk result
        (λ found. AreParameters declaration.now is_variant found.items) }
{
    match scan(alloc, declaration)? {
        Some(scanner) => parameters_ahead(alloc, scanner, is_variant),
        None => Ok(Vec::new(alloc)),
    }
}

/// The parameters among the tokens that a scanner has not read yet.
fn parameters_ahead(
    alloc: Global,
    mut scanner: Scanner,
    is_variant: bool,
) -> Result<Vec<Part>, AllocError>
    ensures { IfOk result
        (λ found. found.items ≡ parameters is_variant scanner.entry.coming) }
{
    pass(alloc, &mut scanner)?;
    if is_variant {
        pass(alloc, &mut scanner)?;
    } else {
        pass_opening(alloc, &mut scanner)?;
    }
    items_ahead(alloc, scanner)
}

/// Passes the next `(` and all tokens before it.
fn pass_opening(alloc: Global, scanner: &mut Scanner) -> Result<(), AllocError>
    ensures { OnOk result (scanner.new.coming ≡ behind_opening scanner.old.coming) }
{
    while let Some(ahead) = scanner.peek() {
        let is_opening = matches!(ahead.1, TokenRef::LParen);
        pass(alloc, scanner)?;
        if is_opening {
            return Ok(());
        }
    }
    Ok(())
}

/// The items of the list whose `(` a scanner has passed.
fn items_ahead(alloc: Global, mut scanner: Scanner) -> Result<Vec<Part>, AllocError>
    ensures { IfOk result (λ found. found.items ≡ items_from 0 0 scanner.entry.coming) }
{
    let mut found = Vec::new(alloc);
    let mut depth: usize = 0;
    let mut from = 0;
    while let Some(ahead) = scanner.peek() {
        let (pos, token) = *ahead;
        if ends_list(token, depth) {
            return Ok(found);
        }
        if depth == 0 {
            from = pos.offset;
        }
        depth = depth_after(depth, token)?;
        if depth == 0 {
            let to = scanner.pos().offset;
            found.push(Part { from, to })?;
        }
        pass(alloc, &mut scanner)?;
    }
    Ok(found)
}

/// Returns whether a token ends the list that so many inner lists of it are open in.
fn ends_list(token: TokenRef, depth: usize) -> bool
    ensures { result ≡ ends_list (token_of_ref token.entry) depth }
{
    match token {
        TokenRef::RParen => depth == 0,
        TokenRef::LParen | TokenRef::Symbol(_) | TokenRef::Int(_) | TokenRef::At => false,
    }
}
