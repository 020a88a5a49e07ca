//! A scanner: the tokens of a text, which borrow from it.
//!
//! A `Lexer` wraps a scanner and returns tokens that own their texts. The parser uses a scanner
//! directly, so it copies only the texts that the tree keeps.

ghost use Rattle.std.specs.Prelude.{◌≡◌, ◌≢◌, Err, IfErr, IfOk, IfSome, None, Ok, is_some};
ghost use Rattle.std.specs.Prelude.{false, length, option_map, true, ℕ};
ghost use Rattle.isle_base.specs.Lexing.{lexes};
ghost use Rattle.isle_base.specs.Steps.{FacesFault, IfError, IsWithin, Refuses, RefusesStart};
ghost use Rattle.isle_base.specs.Steps.{Rises};
ghost use Rattle.isle_base.specs.Steps.{Takes};
ghost use Rattle.isle_base.specs.Steps.{current_pos, is_at_end, is_failed, lookahead, placed_ref};
ghost use Rattle.isle_base.specs.TokenView.{token_of_ref};
ghost use Rattle.isle_base.specs.declared.fault.Fault.TheVariants.{Failed, Memory};

pub(crate) mod lanes;
pub(crate) mod literal;
pub(crate) mod read;
pub(crate) mod skips;

use crate::fault::Fault;
pub use crate::token::TokenRef;
use isle_base_source::pos::Pos;
use read::{Found, Reason, error, read};
use std::alloc::{AllocError, Global};
use std::marker::Model;

/// The scanner.
///
/// It reads one token ahead, in a single pass over the text, and allocates only to build an error.
/// In contracts it stands for the same things as a `Lexer`: the number of its file, the tokens to
/// come, how they end, and the length of the text.
#[derive(Debug, Drop)]
pub struct Scanner<'src> {
    src: &'src str,
    /// The offset after the token ahead. With no token ahead, the end of the text or the fault's
    /// first byte.
    pos: Pos,
    lookahead: Option<(Pos, TokenRef<'src>)>,
    failed: bool,
}

impl<'src> Model for Scanner<'src> {
    ghost use Rattle.isle_base.specs.Token.{Feed};

    ghost Value = { Feed };

    ghost use Rattle.isle_base.specs.ScannerView.{feed_of, IsScanner};

    ghost view = { feed_of };

    ghost invariant = { IsScanner };
}

impl<'src> Clone for Scanner<'src> {
    ghost is_clone = { λ a b. b ≡ a };

    fn clone(&self) -> Result<Scanner<'src>, AllocError> {
        Ok(self.copied())
    }
}

impl<'src> Scanner<'src> {
    /// Creates a scanner for the text of file number `file`, and reads the first token ahead. The
    /// errors are those of `Lexer::new`.
    pub fn new(alloc: Global, file: usize, src: &'src str) -> Result<Scanner<'src>, Fault>
        // The value of `Ok`.
        ensures file { IfOk result (λ scanner. scanner.file ≡ file) }
        ensures size { IfOk result (λ scanner. scanner.size ≡ length src.now) }
        ensures live { IfOk result (λ scanner. is_failed scanner ≡ false) }
        ensures tokens { IfOk result (λ scanner. lexes src.now scanner.coming scanner.ending) }

        // When each error is returned.
        ensures refused { IfErr result (IfError (RefusesStart file src.now)) }
        ensures never_failed { result ≢ Err Failed }
    {
        match read(src, 0) {
            Found::Token(start, token, end) => Ok(Scanner {
                src,
                pos: Pos::new(file, end),
                lookahead: Some((Pos::new(file, start), token)),
                failed: false,
            }),
            Found::End => Ok(Scanner {
                src,
                pos: Pos::new(file, src.len()),
                lookahead: None,
                failed: false,
            }),
            Found::Fault(at, reason) => {
                let refusal = error(alloc, Pos::new(file, at), reason)?;
                Err(Fault::Error(refusal))
            }
        }
    }

    /// Copies the scanner without allocating.
    pub(crate) fn copied(&self) -> Scanner<'src>
        ensures { result ≡ self.now }
    {
        Scanner {
            src: self.src,
            pos: self.pos,
            lookahead: self.lookahead,
            failed: self.failed,
        }
    }

    /// The byte offset after the token ahead. With no token ahead, it is the end of the text, or
    /// the first byte of the fault.
    pub fn pos(&self) -> Pos
        ensures value { result ≡ current_pos self.now }
        ensures within { IsWithin self.now }
    {
        self.pos
    }

    /// Returns the token ahead and the position of its first byte, and reads the next token ahead.
    /// The errors, and the scanner after them, are those of `Lexer::next`.
    #[inline(always)]
    pub fn next(&mut self, alloc: Global) -> Result<Option<(Pos, TokenRef<'src>)>, Fault>
        // The value of `Ok`.
        ensures token { IfOk result
            (λ ahead. IfSome ahead (λ x. Takes self.old (placed_ref x) self.new)) }
        ensures end { result ≡ Ok None → (is_at_end self.old ≡ true) × (self.new ≡ self.old) }

        // When each error is returned, and the scanner after it.
        ensures refused { IfErr result (IfError (λ e. Refuses self.old e self.new)) }
        ensures failed { result ≡ Err Failed → (is_failed self.old ≡ true) × (self.new ≡ self.old) }
        ensures memory { result ≡ Err Memory
            → (is_failed self.old ≡ false) × (is_at_end self.old ≡ false) × (self.new ≡ self.old) }
    {
        if self.failed {
            return Err(Fault::Failed);
        }
        let Some(shown) = self.lookahead else {
            return Ok(None);
        };
        match self.advance() {
            Ok(()) => Ok(Some(shown)),
            Err((at, reason)) => Err(self.refuse(alloc, at, reason)),
        }
    }

    /// Returns the token ahead as `next` does, but builds no error. If no token is ahead, or a
    /// fault follows it, it returns `None` and changes nothing.
    #[inline(always)]
    pub fn step(&mut self) -> Option<(Pos, TokenRef<'src>)>
        ensures token { IfSome result (λ x. Takes self.old (placed_ref x) self.new) }
        ensures same { result ≡ None → self.new ≡ self.old }
        ensures fault { result ≡ None → is_some (lookahead self.old) ≡ true
            → (at : ℕ) × FacesFault self.old at }
    {
        let Some(shown) = self.lookahead else {
            return None;
        };
        if self.read_ahead() { Some(shown) } else { None }
    }

    /// Replaces the token ahead by the next one, and returns whether it could. If a fault follows,
    /// it changes nothing. A `bool` fits in a register, and `advance`'s result does not.
    #[inline(never)]
    fn read_ahead(&mut self) -> bool
        requires { is_some (lookahead self.old) ≡ true }
        ensures token { result ≡ true → IfSome (lookahead self.old)
            (λ x. Takes self.old x self.new) }
        ensures fault { result ≡ false → (at : ℕ) × FacesFault self.old at }
        ensures same { result ≡ false → self.new ≡ self.old }
    {
        self.advance().is_ok()
    }

    /// Replaces the token ahead by the next one. If a fault follows, it changes nothing, and
    /// returns the fault's offset and the reason.
    #[inline(always)]
    fn advance(&mut self) -> Result<(), (usize, Reason)>
        requires { is_some (lookahead self.old) ≡ true }
        ensures token { IfOk result (λ _. IfSome (lookahead self.old)
            (λ x. Takes self.old x self.new)) }
        ensures fault { IfErr result (λ fault. FacesFault self.old fault.0) }
        ensures same { IfErr result (λ _. self.new ≡ self.old) }
    {
        let file = self.pos.file;
        match read(self.src, self.pos.offset) {
            Found::Token(start, token, end) => {
                self.pos = Pos::new(file, end);
                self.lookahead = Some((Pos::new(file, start), token));
                Ok(())
            }
            Found::End => {
                self.pos = Pos::new(file, self.src.len());
                self.lookahead = None;
                Ok(())
            }
            Found::Fault(at, reason) => Err((at, reason)),
        }
    }

    /// Rejects the text at the fault after the token ahead, and forgets that token.
    #[inline(never)]
    fn refuse(&mut self, alloc: Global, at: usize, reason: Reason) -> Fault
        requires { FacesFault self.old at }
        ensures refused { IfError (λ e. Refuses self.old e self.new) result }
        ensures never_failed { result ≢ Failed }
        ensures memory { result ≡ Memory → self.new ≡ self.old }
    {
        let pos = Pos::new(self.pos.file, at);
        match error(alloc, pos, reason) {
            Ok(error) => {
                self.pos = pos;
                self.lookahead = None;
                self.failed = true;
                Fault::Error(error)
            }
            Err(_) => Fault::Memory,
        }
    }

    /// Peeks at the token ahead and the position of its first byte.
    ///
    /// Returns `None` at the end of the text, and if the scanner has failed.
    pub fn peek(&self) -> Option<&(Pos, TokenRef<'src>)>
        ensures value { option_map (λ x. placed_ref x.now) result ≡ lookahead self.now }
        ensures within { IsWithin self.now }
        ensures rising { Rises 0 self.now.coming }
    {
        self.lookahead.as_ref()
    }

    /// Returns whether the text has no more tokens. A failed scanner returns `false`.
    pub fn eof(&self) -> bool
        ensures { result ≡ is_at_end self.now }
    {
        self.lookahead.is_none() && !self.failed
    }
}
