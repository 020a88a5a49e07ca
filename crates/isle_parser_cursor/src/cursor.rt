//! A cursor over the tokens of a text.
#![tactic(auto, unfolding(crate::specs::Reading::text, crate::specs::NumberReaders::integer_within, crate::specs::Reading::flag))]

ghost use Rattle.std.specs.Prelude.{◌≡◌, ◌≢◌, ◌+◌, ◌<◌, ◌^◌, IfOk, IfSome, None, OnOk, Some};
ghost use Rattle.std.specs.Prelude.{false, is_some, option_map, string_bytes, true, ℕ};
ghost use Rattle.isle_ast_names.specs.Words.{is_constant};
ghost use Rattle.isle_base.specs.Steps.{FacesFault, IfError, IsWithin, Rises, is_at_end};
ghost use Rattle.isle_base.specs.Steps.{is_failed, lookahead};
ghost use Rattle.isle_base.specs.Token.{at_sign, integer, is_int, is_symbol, lparen, rparen};
ghost use Rattle.isle_base.specs.TokenView.{token_of_ref};
ghost use Rattle.isle_base.specs.declared.fault.Fault.TheVariants.{Failed};
ghost use Rattle.isle_parser_cursor.specs.Outcomes.{GoesOn, IsParserRefusal, IsPlace};
ghost use Rattle.isle_parser_cursor.specs.Outcomes.{IsRefusalAt, ReadsOff, StandsAtFault, left};
ghost use Rattle.isle_parser_cursor.specs.Outcomes.{source, tokens};
ghost use Rattle.isle_parser_cursor.specs.NumberReaders.{integer_within};
ghost use Rattle.isle_parser_cursor.specs.Reading.{is_const, ends, expect, flag, is_ahead, is_at};
ghost use Rattle.isle_parser_cursor.specs.Reading.{is_lparen, is_rparen, is_symbol_of};
ghost use Rattle.isle_parser_cursor.specs.Reading.{pos_ahead, take, take_if, text, token_ahead};
ghost use Rattle.isle_parser_cursor.specs.declared.cursor.Stop.TheVariants.{Memory};

mod names;

use isle_base::error::{Error, Span};
use isle_base::lexer::{Fault, Pos};
use isle_base::scanner::{Scanner, TokenRef};
use std::alloc::{AllocError, AllocFailed, Global};

/// The remaining tokens of a text, which borrow from it.
///
/// Its methods take tokens and report errors for them. The parser decides what the tokens mean.
#[derive(Debug, Drop)]
pub struct Cursor<'src> {
    /// The source of the tokens.
    pub scanner: Scanner<'src>,
    /// Whether every position in the tree is the default position.
    pub disable_pos: bool,
    /// Whether the token ahead, which is the last before a fault, has been taken.
    pub is_spent: bool,
}

impl<'src> Clone for Cursor<'src> {
    ghost is_clone = { λ cursor copy. copy ≡ cursor };

    fn clone(&self) -> Result<Cursor<'src>, AllocError> {
        Ok(Cursor {
            scanner: self.scanner.clone()?,
            disable_pos: self.disable_pos,
            is_spent: self.is_spent,
        })
    }
}

/// Why parsing stops.
#[derive(Drop)]
pub enum Stop {
    /// The parser rejects the tokens.
    Parser(Box<Error>),
    /// Memory ran out.
    Memory,
}

impl From<AllocError> for Stop {
    ghost from_gives = { λ _ e. e ≡ Memory };

    fn from(_error: AllocError) -> Stop {
        Stop::Memory
    }
}

impl<T: Drop> From<AllocFailed<T>> for Stop {
    ghost from_gives = { λ _ e. e ≡ Memory };

    fn from(_error: AllocFailed<T>) -> Stop {
        Stop::Memory
    }
}

impl<'src> Cursor<'src> {
    /// Returns whether the lexer had failed before this call.
    pub fn is_failed(&self) -> bool
        ensures failed { result ≡ is_failed self.now.scanner }
        ensures rising { Rises 0 self.now.scanner.coming }
    {
        self.scanner.peek().is_none() && !self.scanner.eof()
    }

    /// Returns whether neither a token nor a fault is ahead.
    pub fn is_at_end(&self) -> bool
        requires { is_failed self.now.scanner ≡ false }
        ensures ends { result ≡ ends (tokens self.now) }
        ensures lexer { result ≡ is_at_end self.now.scanner }
    {
        self.scanner.eof()
    }

    /// The token ahead, unless it has been taken.
    #[tactic(auto, unfolding(crate::specs::Outcomes::left))]
    pub fn ahead(&self) -> Option<&TokenRef<'src>>
        ensures { option_map (λ t. token_of_ref t.now) result ≡ token_ahead (left self.now) }
    {
        if self.is_spent {
            return None;
        }
        self.scanner.peek().map(|(_, token)| token)
    }

    pub fn is_lparen(&self) -> bool
        ensures { result ≡ is_ahead is_lparen (left self.now) }
    {
        matches!(self.ahead(), Some(TokenRef::LParen))
    }

    pub fn is_rparen(&self) -> bool
        ensures { result ≡ is_ahead is_rparen (left self.now) }
    {
        matches!(self.ahead(), Some(TokenRef::RParen))
    }

    /// Returns whether this word is ahead, as a symbol.
    pub fn is_word(&self, word: &str) -> bool
        ensures { result ≡ is_ahead (is_symbol_of word.now) (left self.now) }
    {
        match self.ahead() {
            Some(TokenRef::Symbol(text)) => *text == word,
            _ => false,
        }
    }

    pub fn is_sym(&self) -> bool
        ensures { result ≡ is_ahead is_symbol (left self.now) }
    {
        matches!(self.ahead(), Some(TokenRef::Symbol(_)))
    }

    pub fn is_int(&self) -> bool
        ensures { result ≡ is_ahead is_int (left self.now) }
    {
        matches!(self.ahead(), Some(TokenRef::Int(_)))
    }

    /// Returns whether `@` is ahead.
    pub fn is_at(&self) -> bool
        ensures { result ≡ is_ahead is_at (left self.now) }
    {
        matches!(self.ahead(), Some(TokenRef::At))
    }

    /// Returns whether a constant is ahead: a symbol that begins with `$`.
    pub fn is_const(&self) -> bool
        ensures { result ≡ is_ahead is_const (left self.now) }
    {
        match self.ahead() {
            Some(TokenRef::Symbol(text)) => begins_constant(text),
            _ => false,
        }
    }

    /// The position of the token ahead for the tree.
    #[tactic(auto, unfolding(crate::specs::Outcomes::left))]
    pub fn pos(&self) -> Pos
        ensures { result ≡ pos_ahead (left self.now) }
    {
        if self.disable_pos {
            return Pos::default();
        }
        if self.is_spent {
            return Pos::default();
        }
        self.scanner.peek().map_or(Pos::default(), |(pos, _)| *pos)
    }

    /// The position of the token ahead in the text. With no token ahead, the end of the text or the
    /// fault.
    pub fn place(&self) -> Pos
        ensures place { IsPlace (source self.now) result }
        ensures within { IsWithin self.now.scanner }
    {
        match self.scanner.peek() {
            Some((pos, _)) => *pos,
            None => self.scanner.pos(),
        }
    }

    /// Rejects the byte at this place, or returns `Memory` if the message could not be built.
    pub fn refuse_at(&self, place: Pos, message: Result<String, AllocError>) -> Stop
        requires { IsPlace (source self.now) place }
        ensures { IsParserRefusal (source self.now) result }
    {
        refuse(place, message)
    }

    /// Rejects the token ahead, or the end of the text.
    pub fn unexpected(&self, alloc: Global) -> Stop
        ensures { IsParserRefusal (source self.now) result }
    {
        refuse(self.place(), unexpected_message(alloc, self.ahead()))
    }

    /// Takes the token ahead.
    #[inline(always)]
    #[tactic(auto, unfolding(crate::specs::Outcomes::left))]
    pub fn take(&mut self, alloc: Global) -> Result<TokenRef<'src>, Stop>
        ensures reads { ReadsOff token_of_ref take self.old result self.new }
        ensures goes_on { OnOk result (GoesOn self.new) }
    {
        if self.is_spent {
            return Err(self.unexpected(alloc));
        }
        match self.scanner.step() {
            Some((_, token)) => Ok(token),
            None => self.take_last(alloc),
        }
    }

    /// Takes the token ahead of a fault, or rejects the end of the text. The scanner is left alone,
    /// since it returns no token before a fault; `fault` asks it for the error.
    #[inline(never)]
    #[tactic(auto, unfolding(crate::specs::Outcomes::left))]
    fn take_last(&mut self, alloc: Global) -> Result<TokenRef<'src>, Stop>
        requires unspent { self.old.is_spent ≡ false }
        requires last { is_some (lookahead self.old.scanner) ≡ true
            → (at : ℕ) × FacesFault self.old.scanner at }
        ensures reads { ReadsOff token_of_ref take self.old result self.new }
        ensures goes_on { OnOk result (GoesOn self.new) }
    {
        let Some(token) = self.ahead().copied() else {
            return Err(self.unexpected(alloc));
        };
        self.is_spent = true;
        Ok(token)
    }

    /// The lexer's error, if the last token before a fault has been taken.
    ///
    /// Returns `None` and changes nothing if it has not been taken. Returns `Memory` if memory runs
    /// out.
    pub fn fault(&mut self, alloc: Global) -> Option<Fault>
        ensures spent { IfSome result (λ _. self.old.is_spent ≡ true) }
        ensures at_fault { IfSome result (IfError (StandsAtFault (source self.old))) }
        ensures never_failed { result ≢ Some Failed }
        ensures none { result ≡ None → GoesOn self.old → (self.old.is_spent ≡ false)
            × (self.new ≡ self.old) }
        ensures same { source self.new ≡ source self.old }
    {
        if self.scanner.peek().is_none() || !self.is_spent {
            return None;
        }
        match self.scanner.next(alloc) {
            Ok(_) | Err(Fault::Failed) => None,
            Err(fault) => Some(fault),
        }
    }

    /// Takes the token ahead if it is wanted, and rejects it otherwise.
    #[inline(always)]
    pub fn take_if(&mut self, alloc: Global, is_wanted: bool) -> Result<TokenRef<'src>, Stop>
        ensures reads { ReadsOff token_of_ref (take_if is_wanted) self.old result self.new }
        ensures goes_on { OnOk result (GoesOn self.new) }
    {
        if !is_wanted {
            return Err(self.unexpected(alloc));
        }
        self.take(alloc)
    }

    /// Takes `(`.
    #[tactic(auto, using(crate::proofs::Expected::expected_lparen))]
    pub fn expect_lparen(&mut self, alloc: Global) -> Result<(), Stop>
        ensures { ReadsOff (λ _. lparen) (expect is_lparen) self.old result self.new }
    {
        let is_wanted = self.is_lparen();
        self.take_if(alloc, is_wanted)?;
        Ok(())
    }

    /// Takes `)`.
    #[tactic(auto, using(crate::proofs::Expected::expected_rparen))]
    pub fn expect_rparen(&mut self, alloc: Global) -> Result<(), Stop>
        ensures reads { ReadsOff (λ _. rparen) (expect is_rparen) self.old result self.new }
        ensures goes_on { OnOk result (GoesOn self.new) }
    {
        let is_wanted = self.is_rparen();
        self.take_if(alloc, is_wanted)?;
        Ok(())
    }

    /// Takes the closing parenthesis after a node, and returns the node.
    pub fn close<T: Drop>(&mut self, alloc: Global, node: T) -> Result<T, Stop>
        ensures reads { ReadsOff (λ _. rparen) (expect is_rparen) self.old result self.new }
        ensures kept { IfOk result (λ n. n ≡ node) }
        ensures goes_on { OnOk result (GoesOn self.new) }
    {
        self.expect_rparen(alloc)?;
        Ok(node)
    }

    /// Takes `@`.
    #[tactic(auto, using(crate::proofs::Expected::expected_at))]
    pub fn expect_at(&mut self, alloc: Global) -> Result<(), Stop>
        ensures { ReadsOff (λ _. at_sign) (expect is_at) self.old result self.new }
    {
        let is_wanted = self.is_at();
        self.take_if(alloc, is_wanted)?;
        Ok(())
    }

    /// Takes a symbol, and returns its text without copying it.
    pub fn expect_word(&mut self, alloc: Global) -> Result<&'src str, Stop>
        ensures { ReadsOff (λ text. text.now) text self.old result self.new }
    {
        let is_wanted = self.is_sym();
        match self.take_if(alloc, is_wanted)? {
            TokenRef::Symbol(text) => Ok(text),
            _ => unreachable!(),
        }
    }

    /// Takes a symbol, and returns a copy of its text.
    pub fn expect_symbol(&mut self, alloc: Global) -> Result<String, Stop>
        ensures { ReadsOff string_bytes text self.old result self.new }
    {
        let text = self.expect_word(alloc)?;
        Ok(String::from_str(alloc, text)?)
    }

    /// Takes an integer.
    pub fn expect_int(&mut self, alloc: Global) -> Result<i128, Stop>
        ensures { ReadsOff (λ value. integer value) (expect is_int) self.old result self.new }
    {
        let is_wanted = self.is_int();
        match self.take_if(alloc, is_wanted)? {
            TokenRef::Int(value) => Ok(value),
            _ => unreachable!(),
        }
    }

    /// Parses an integer. Its value always fits an `i128`.
    pub fn parse_int(&mut self, alloc: Global) -> Result<i128, Stop>
        ensures { ReadsOff (λ value. value) (integer_within 127) self.old result self.new }
    {
        let value = self.expect_int(alloc)?;
        Ok(value)
    }

    /// Takes this word if it is ahead, and returns whether it was.
    pub fn eat_sym_str(&mut self, alloc: Global, word: &str) -> Result<bool, Stop>
        ensures { ReadsOff (λ eaten. eaten) (flag word.now) self.old result self.new }
    {
        let is_eaten = self.is_word(word);
        if is_eaten {
            self.take(alloc)?;
        }
        Ok(is_eaten)
    }
}

/// Returns whether the text begins with `$`.
pub fn begins_constant(text: &str) -> bool
    ensures { result ≡ is_constant text.now }
{
    text.starts_with('$')
}

/// The message for an unexpected token, or for the end of the text.
fn unexpected_message(alloc: Global, token: Option<&TokenRef>) -> Result<String, AllocError> {
    match token {
        None => String::from_str(alloc, "Unexpected EOF"),
        Some(TokenRef::LParen) => String::from_str(alloc, "Unexpected token LParen"),
        Some(TokenRef::RParen) => String::from_str(alloc, "Unexpected token RParen"),
        Some(TokenRef::At) => String::from_str(alloc, "Unexpected token At"),
        Some(TokenRef::Int(value)) => format!(in alloc; "Unexpected token Int({value})"),
        Some(TokenRef::Symbol(text)) => format!(in alloc; "Unexpected token Symbol(\"{text}\")"),
    }
}

/// Rejects the byte at this place, or returns `Memory` if the message could not be built.
fn refuse(place: Pos, message: Result<String, AllocError>) -> Stop
    requires { place.offset + 1 < 2 ^ 64 }
    ensures { IsRefusalAt place result }
{
    match message {
        Ok(msg) => refuse_with(place, msg),
        Err(error) => Stop::from(error),
    }
}

/// Rejects the byte at this place with this message.
fn refuse_with(place: Pos, msg: String) -> Stop
    requires { place.offset + 1 < 2 ^ 64 }
    ensures { IsRefusalAt place result }
{
    let alloc = *msg.allocator();
    let span = Span::new_single(place);
    match Box::new(alloc, Error::ParseError { msg, span }) {
        Ok(error) => Stop::Parser(error),
        Err(_) => Stop::Memory,
    }
}
