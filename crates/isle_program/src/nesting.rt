//! How deep a text nests. A walk over a tree may need a stack frame for each list, and for each
//! pattern after an `@`. So no tree is made from a text that nests too deeply.

ghost use Rattle.std.specs.Prelude.{◌≡◌, IfOk, false};
ghost use Rattle.isle_base.specs.TokenView.{token_of_ref};
ghost use Rattle.isle_program.specs.Nesting.{FirstDeep, deep_from, is_deep, nest_after, outside};

use isle_base::lexer::Fault;
use isle_base::scanner::{Scanner, TokenRef};
use std::alloc::{AllocError, Global};

/// How many lists may be nested in one another, and how many `@` one definition may have.
pub const MAX_DEPTH: usize = 500;

/// What is wrong with a text that nests too deeply.
pub const TOO_DEEP: &str = "more than 500 lists in one another, or '@' in one definition";

/// What is open at a token of a text.
#[derive(Clone, Copy)]
pub struct Nest {
    /// The number of lists that are open.
    pub lists: usize,
    /// The number of `@` in the outermost list so far.
    pub at_signs: usize,
}

/// The byte offset of the first `(` that is nested in `MAX_DEPTH` lists, or of the first `@` after
/// `MAX_DEPTH` others in its outermost list, whichever is first. `None` if the text has neither.
///
/// Only tokens before the first lexical error count.
pub fn deep_list(alloc: Global, text: &str) -> Result<Option<usize>, AllocError>
    ensures { IfOk result (FirstDeep text.now) }
{
    match Scanner::new(alloc, 0, text) {
        Ok(scanner) => Ok(deep_ahead(scanner)),
        Err(Fault::Error(_)) => Ok(None),
        Err(Fault::Failed | Fault::Memory) => Err(AllocError),
    }
}

/// The same among the tokens that a scanner has not read yet.
fn deep_ahead(mut scanner: Scanner) -> Option<usize>
    ensures { result ≡ deep_from outside scanner.entry.coming }
{
    let mut nest = Nest {
        lists: 0,
        at_signs: 0,
    };
    while let Some(ahead) = scanner.peek() {
        let (pos, token) = *ahead;
        if nest.is_deep(token) {
            return Some(pos.offset);
        }
        nest = nest.after(token);
        if scanner.step().is_none() {
            return None;
        }
    }
    None
}

impl Nest {
    /// Returns whether a token nests too deeply here.
    fn is_deep(self, token: TokenRef) -> bool
        ensures { result ≡ is_deep self (token_of_ref token.entry) }
    {
        match token {
            TokenRef::LParen => self.lists >= MAX_DEPTH,
            TokenRef::At => self.at_signs >= MAX_DEPTH,
            TokenRef::RParen | TokenRef::Symbol(_) | TokenRef::Int(_) => false,
        }
    }

    /// What is open after a token that does not nest too deeply.
    fn after(self, token: TokenRef) -> Nest
        requires { is_deep self (token_of_ref token) ≡ false }
        ensures { result ≡ nest_after self (token_of_ref token.entry) }
    {
        match token {
            TokenRef::LParen => Nest {
                lists: self.lists + 1,
                at_signs: if self.lists == 0 { 0 } else { self.at_signs },
            },
            TokenRef::RParen => Nest {
                lists: self.lists.saturating_sub(1),
                at_signs: self.at_signs,
            },
            TokenRef::At => Nest {
                lists: self.lists,
                at_signs: self.at_signs + 1,
            },
            TokenRef::Symbol(_) | TokenRef::Int(_) => self,
        }
    }
}
