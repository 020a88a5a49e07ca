//! Lexer for the ISLE language.

ghost use Rattle.std.specs.Prelude.{◌≡◌, ◌≢◌, Err, IfErr, IfOk, IfSome, None, Ok};
ghost use Rattle.std.specs.Prelude.{false, length, option_map, true};
ghost use Rattle.isle_base.specs.Lexing.{lexes};
ghost use Rattle.isle_base.specs.Steps.{IfError, IsWithin, Refuses, RefusesStart, Rises, Takes};
ghost use Rattle.isle_base.specs.Steps.{current_pos, is_at_end, is_failed, lookahead, placed_of};
ghost use Rattle.isle_base.specs.Steps.{placed_ref};
ghost use Rattle.isle_base.specs.declared.fault.Fault.TheVariants.{Failed, Memory};

pub mod laws;

pub use crate::fault::Fault;
use crate::scanner::Scanner;
pub use crate::scanner::lanes::{blank_end, line_comment_end, symbol_end};
pub use crate::token::Token;
use crate::token::TokenRef;
pub use isle_base_source::pos::Pos;
use std::alloc::{AllocError, Global};
use std::marker::Model;

/// The lexer.
///
/// It breaks source text up into a sequence of tokens with their positions. It reads one token
/// ahead, in a single pass over the text, which it borrows.
///
/// A `-` with no byte of a symbol after it is a symbol. Any other `-` begins an integer literal, as
/// every `-` does upstream. A text is rejected at a fault: a block comment that is never closed, a
/// form feed outside of comments, or an integer literal that has no value or is out of range. Once
/// `next` has rejected the text, the lexer stays failed.
///
/// In contracts a lexer stands for the rest of its input: the number of its file, the tokens to
/// come, how they end, and the length of the text.
#[derive(Debug, Drop)]
pub struct Lexer<'src> {
    pub(crate) scanner: Scanner<'src>,
    /// The scanner's token ahead, as a token that owns its text.
    lookahead: Option<(Pos, Token)>,
}

impl<'src> Model for Lexer<'src> {
    ghost use Rattle.isle_base.specs.Token.{Feed};

    ghost Value = { Feed };

    ghost use Rattle.isle_base.specs.LexerView.{IsLexer};

    ghost view = { λ a. a.scanner };

    ghost invariant = { IsLexer };
}

impl<'src> Clone for Lexer<'src> {
    ghost is_clone = { λ a b. b ≡ a };

    fn clone(&self) -> Result<Lexer<'src>, AllocError> {
        Ok(Lexer {
            scanner: self.scanner.copied(),
            lookahead: self.lookahead.clone()?,
        })
    }
}

impl<'src> From<Lexer<'src>> for Scanner<'src> {
    ghost from_gives = { λ lexer scanner. scanner ≡ lexer };

    fn from(lexer: Lexer<'src>) -> Scanner<'src> {
        lexer.scanner
    }
}

impl<'src> Lexer<'src> {
    /// Creates a lexer for the text of file number `file`, and reads the first token ahead.
    ///
    /// Returns `Error` exactly if the first thing in the text after blanks and comments is a fault.
    /// The error's span is the one byte at which the fault begins. Returns `Memory` if memory runs
    /// out, and never `Failed`.
    pub fn new(alloc: Global, file: usize, src: &'src str) -> Result<Lexer<'src>, Fault>
        // The value of `Ok`.
        ensures file { IfOk result (λ lexer. lexer.file ≡ file) }
        ensures size { IfOk result (λ lexer. lexer.size ≡ length src.now) }
        ensures live { IfOk result (λ lexer. is_failed lexer ≡ false) }
        ensures tokens { IfOk result (λ lexer. lexes src.now lexer.coming lexer.ending) }

        // When each error is returned.
        ensures refused { IfErr result (IfError (RefusesStart file src.now)) }
        ensures never_failed { result ≢ Err Failed }
    {
        let scanner = Scanner::new(alloc, file, src)?;
        let lookahead = owned(alloc, scanner.peek())?;
        Ok(Lexer { scanner, lookahead })
    }

    /// The lexer's current position: the byte offset after the token ahead.
    ///
    /// With no token ahead, it is the end of the text, or the first byte of the fault if the lexer
    /// has failed.
    pub fn pos(&self) -> Pos
        ensures value { result ≡ current_pos self.now }
        ensures within { IsWithin self.now }
    {
        self.scanner.pos()
    }

    /// Returns the token ahead and the position of its first byte, and reads the next token ahead.
    ///
    /// Returns `None` at the end of the text. Returns `Error` if a fault follows the token ahead,
    /// after blanks and comments. The error's span is the one byte at which the fault begins, the
    /// token ahead is lost, and the lexer has failed. Returns `Failed` exactly if the lexer had
    /// failed before. After `Memory` the lexer is unchanged.
    pub fn next(&mut self, alloc: Global) -> Result<Option<(Pos, Token)>, Fault>
        // The value of `Ok`.
        ensures token { IfOk result
            (λ ahead. IfSome ahead (λ x. Takes self.old (placed_of x) self.new)) }
        ensures end { result ≡ Ok None → (is_at_end self.old ≡ true) × (self.new ≡ self.old) }

        // When each error is returned, and the lexer after it.
        ensures refused { IfErr result (IfError (λ e. Refuses self.old e self.new)) }
        ensures failed { result ≡ Err Failed → (is_failed self.old ≡ true) × (self.new ≡ self.old) }
        ensures memory { result ≡ Err Memory
            → (is_failed self.old ≡ false) × (is_at_end self.old ≡ false) × (self.new ≡ self.old) }
    {
        let mut scanner = self.scanner.copied();
        match scanner.next(alloc) {
            Ok(None) => Ok(None),
            Ok(Some(_)) => {
                let lookahead = owned(alloc, scanner.peek())?;
                self.scanner = scanner;
                Ok(std::mem::replace(&mut self.lookahead, lookahead))
            }
            Err(Fault::Error(error)) => {
                self.scanner = scanner;
                self.lookahead = None;
                Err(Fault::from(error))
            }
            Err(fault) => Err(fault),
        }
    }

    /// Peeks at the token ahead and the position of its first byte.
    ///
    /// Returns `None` at the end of the text, and if the lexer has failed.
    pub fn peek(&self) -> Option<&(Pos, Token)>
        ensures value { option_map (λ x. placed_of x.now) result ≡ lookahead self.now }
        ensures within { IsWithin self.now }
        ensures rising { Rises 0 self.now.coming }
    {
        // No offset is past the end of the text.
        self.scanner.peek();
        self.lookahead.as_ref()
    }

    /// Returns whether the text has no more tokens. A failed lexer returns `false`.
    pub fn eof(&self) -> bool
        ensures { result ≡ is_at_end self.now }
    {
        self.scanner.eof()
    }
}

/// The token ahead of a scanner, as a token that owns its text.
fn owned(alloc: Global, ahead: Option<&(Pos, TokenRef)>) -> Result<Option<(Pos, Token)>, AllocError>
    ensures { IfOk result (λ owned. option_map placed_of owned
        ≡ option_map (λ x. placed_ref x.now) ahead.entry) }
{
    match ahead {
        None => Ok(None),
        Some((pos, token)) => Ok(Some((*pos, token.to_token(alloc)?))),
    }
}
