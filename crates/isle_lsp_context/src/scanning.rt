//! Steps through the tokens of a text, up to a place in it.

ghost use Rattle.std.specs.Prelude.{◌≡◌, [], IfOk, OnOk, drop, reverse};
ghost use Rattle.isle_lsp_context.specs.Scanning.{Scans, is_fault_before, lists_before};

use isle_base::lexer::Fault;
use isle_base::scanner::Scanner;
use isle_lsp_text::definitions::begins_definition;
use std::alloc::{AllocError, Global};

/// A scanner of a text, or `None` if a lexical error is before its first token.
pub fn scan<'a>(alloc: Global, text: &'a str) -> Result<Option<Scanner<'a>>, AllocError>
    ensures { IfOk result (λ found. Scans text.now found) }
{
    match Scanner::new(alloc, 0, text) {
        Ok(scanner) => Ok(Some(scanner)),
        Err(Fault::Error(_)) => Ok(None),
        Err(Fault::Failed | Fault::Memory) => Err(AllocError),
    }
}

/// Passes the token ahead, if there is one. Before a lexical error no other token is ahead then.
pub fn pass(alloc: Global, scanner: &mut Scanner) -> Result<(), AllocError>
    ensures { OnOk result
        (scanner.new ≡ record scanner.old { coming = drop 1 scanner.old.coming }) }
{
    match scanner.next(alloc) {
        Ok(_) | Err(Fault::Error(_)) => Ok(()),
        Err(Fault::Failed | Fault::Memory) => Err(AllocError),
    }
}

/// Returns whether a scanner without tokens ahead is at a lexical error before an offset.
pub fn is_fault_before(scanner: &Scanner, offset: usize) -> bool
    requires { scanner.now.coming ≡ [] }
    ensures { result ≡ is_fault_before offset scanner.now.ending }
{
    !scanner.eof() && scanner.pos().offset < offset
}

/// Ends all open lists, of which the last is the innermost, before a token at an offset of a text,
/// if a definition begins there.
#[tactic(auto, unfolding(crate::specs::Scanning::lists_before))]
pub fn end_before<L: Copy>(text: &str, offset: usize, lists: &mut Vec<L>)
    ensures { reverse lists.new.items
        ≡ lists_before text.now offset (reverse lists.old.items) }
{
    if begins_definition(text, offset) {
        lists.clear();
    }
}
