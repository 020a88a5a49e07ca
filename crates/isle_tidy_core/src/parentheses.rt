//! Checking that a text lexes and that its parentheses match.

ghost use Rattle.std.specs.Prelude.{◌≡◌, ◌≢◌, ◌≤◌, ◌<◌, ◌++◌, ◌∷◌, [], Err, IfErr, IfOk, IfSome};
ghost use Rattle.std.specs.Prelude.{List, None};
ghost use Rattle.std.specs.Prelude.{Ok, OnOk, false, length, ℕ};
ghost use Rattle.isle_base.specs.Steps.{IfError, is_failed};
ghost use Rattle.isle_base.specs.Token.{Lexeme, lparen, rparen};
ghost use Rattle.isle_base.specs.TokenView.{token_of_ref};
ghost use Rattle.isle_base.specs.declared.fault.Fault.TheVariants.{Failed};
ghost use Rattle.isle_tidy_core.specs.Parentheses.{Finds, HasRead, HasReadAll, IsAfter};
ghost use Rattle.isle_tidy_core.specs.Refused.{HasDocument, IsRefusedFor, StandsAt};
ghost use Rattle.isle_tidy_core.specs.declared.parentheses.Found.TheVariants as founds;

use isle_base::error::{Error, Span};
use isle_base::lexer::{Fault, Pos};
use isle_base::scanner::{Scanner, TokenRef};
use std::alloc::{AllocError, Global};

/// The lists that are open after some tokens of a text.
#[derive(Clone, Copy)]
pub struct Parentheses {
    /// How many there are.
    depth: usize,
    /// The byte offset of the outermost one's `(`.
    outermost: usize,
}

impl Parentheses {
    /// Opens a list whose `(` is at this byte offset. Fails if the count overflows.
    fn opened(self, at: usize) -> Result<Parentheses, AllocError>
        ensures { (taken : List Lexeme) (x : Lexeme) → IsAfter taken self → x.token ≡ lparen
            → x.offset ≡ at → IfOk result (IsAfter (taken ++ x ∷ [])) }
    {
        if self.depth == 0 {
            return Ok(Parentheses {
                depth: 1,
                outermost: at,
            });
        }
        match self.depth.checked_add(1) {
            Some(depth) => Ok(Parentheses {
                depth,
                outermost: self.outermost,
            }),
            None => Err(AllocError),
        }
    }

    /// Closes a list, or returns `None` if none is open.
    fn closed(self) -> Option<Parentheses>
        ensures some { (taken : List Lexeme) (x : Lexeme) → IsAfter taken self → x.token ≡ rparen
            → IfSome result (IsAfter (taken ++ x ∷ [])) }
        ensures none { result ≡ None → self.depth ≡ 0 }
    {
        if self.depth == 0 {
            return None;
        }
        Some(Parentheses {
            depth: self.depth - 1,
            outermost: self.outermost,
        })
    }

    /// Goes past a token at this byte offset. Returns `None` at a `)` without its `(`.
    fn counted(self, token: &TokenRef, at: usize) -> Result<Option<Parentheses>, AllocError>
        ensures some { (taken : List Lexeme) (x : Lexeme) → IsAfter taken self
            → x.token ≡ token_of_ref token.now → x.offset ≡ at
            → IfOk result (λ counted. IfSome counted (IsAfter (taken ++ x ∷ []))) }
        ensures none { result ≡ Ok None
            → (self.depth ≡ 0) × (token_of_ref token.now ≡ rparen) }
    {
        match token {
            TokenRef::LParen => match self.opened(at) {
                Ok(opened) => Ok(Some(opened)),
                Err(error) => Err(error),
            },
            TokenRef::RParen => Ok(self.closed()),
            _ => Ok(Some(self)),
        }
    }
}

/// What `take_next` found.
#[derive(Clone, Copy)]
pub enum Found {
    /// A token, which is counted.
    Token,
    /// The end of the text.
    End,
    /// A `)` without its `(`, at this byte offset.
    Unmatched(usize),
}

/// Reads the next token, and counts it.
fn take_next(
    alloc: Global,
    scanner: &mut Scanner,
    parentheses: &mut Parentheses,
) -> Result<Found, Fault>
    requires { is_failed scanner.old ≡ false }
    ensures found { (text : List ℕ) (taken : List Lexeme)
        → HasRead text taken scanner.old parentheses.old
        → IfOk result (Finds text taken scanner.new parentheses.new) }
    ensures live { OnOk result (is_failed scanner.new ≡ false) }
    ensures shorter { result ≡ Ok founds.Token
        → length scanner.new.coming < length scanner.old.coming }
    ensures refused { (text : List ℕ) (taken : List Lexeme)
        → HasRead text taken scanner.old parentheses.old
        → IfErr result (IfError (IsRefusedFor text)) }
    ensures never_failed { result ≢ Err Failed }
{
    match scanner.next(alloc) {
        Ok(None) => Ok(Found::End),
        Ok(Some((pos, token))) => match parentheses.counted(&token, pos.offset) {
            Ok(Some(counted)) => {
                *parentheses = counted;
                Ok(Found::Token)
            }
            Ok(None) => Ok(Found::Unmatched(pos.offset)),
            Err(_) => Err(Fault::Memory),
        },
        Err(fault) => Err(fault),
    }
}

/// Makes a parse error whose span is the byte at an offset.
fn refusal(alloc: Global, text: &str, at: usize, message: &str) -> Result<Error, AllocError>
    requires { at ≤ length text.now }
    ensures { IfOk result (StandsAt at) }
{
    let msg = String::from_str(alloc, message)?;
    let span = Span::new_single(Pos::new(0, at));
    Ok(Error::ParseError { msg, span })
}

/// Checks that no list is open at the end of a text.
fn check_end(alloc: Global, text: &str, parentheses: Parentheses) -> Result<(), Fault>
    requires { (taken : List Lexeme) × HasReadAll text.now taken parentheses }
    ensures matched { OnOk result (HasDocument text.now) }
    ensures refused { IfErr result (IfError (IsRefusedFor text.now)) }
    ensures never_failed { result ≢ Err Failed }
{
    if parentheses.depth == 0 {
        return Ok(());
    }
    let error = refusal(alloc, text, parentheses.outermost, "unclosed '('")?;
    Err(Fault::Error(error))
}

/// Checks that a text lexes and that its parentheses match. The errors are those of `tidy`.
pub(crate) fn check_parentheses(alloc: Global, text: &str) -> Result<(), Fault>
    ensures matched { OnOk result (HasDocument text.now) }
    ensures refused { IfErr result (IfError (IsRefusedFor text.now)) }
    ensures never_failed { result ≢ Err Failed }
{
    let mut scanner = match Scanner::new(alloc, 0, text) {
        Ok(scanner) => scanner,
        Err(fault) => return Err(fault),
    };
    let mut parentheses = Parentheses {
        depth: 0,
        outermost: 0,
    };
    loop {
        match take_next(alloc, &mut scanner, &mut parentheses)? {
            Found::Token => {}
            Found::End => return check_end(alloc, text, parentheses),
            Found::Unmatched(at) => {
                let error = refusal(alloc, text, at, "unmatched ')'")?;
                return Err(Fault::Error(error));
            }
        }
    }
}
