//! Tokens that own their texts, and tokens that borrow them.

ghost use Rattle.std.specs.Prelude.{◌≡◌, IfOk};
ghost use Rattle.isle_base.specs.Token.{is_int, is_symbol};
ghost use Rattle.isle_base.specs.TokenView.{token_of, token_of_ref};

use std::alloc::{AllocError, Global};

/// A token of ISLE source.
#[derive(Debug, PartialEq, Eq, Drop)]
pub enum Token {
    /// Left parenthesis.
    LParen,
    /// Right parenthesis.
    RParen,
    /// A symbol, such as `Foo`.
    Symbol(String),
    /// An integer.
    Int(i128),
    /// The at sign, `@`.
    At,
}

impl Token {
    pub fn is_int(&self) -> bool
        ensures { result ≡ is_int (token_of self.now) }
    {
        matches!(self, Token::Int(_))
    }

    pub fn is_sym(&self) -> bool
        ensures { result ≡ is_symbol (token_of self.now) }
    {
        matches!(self, Token::Symbol(_))
    }
}

impl Clone for Token {
    ghost is_clone = { λ a b. token_of b ≡ token_of a };

    fn clone(&self) -> Result<Token, AllocError> {
        Ok(match self {
            Token::LParen => Token::LParen,
            Token::RParen => Token::RParen,
            Token::Symbol(name) => Token::Symbol(name.clone()?),
            Token::Int(value) => Token::Int(*value),
            Token::At => Token::At,
        })
    }
}

/// A token of ISLE source that borrows its text.
#[derive(Clone, Copy, Debug)]
pub enum TokenRef<'src> {
    /// Left parenthesis.
    LParen,
    /// Right parenthesis.
    RParen,
    /// A symbol, such as `Foo`.
    Symbol(&'src str),
    /// An integer.
    Int(i128),
    /// The at sign, `@`.
    At,
}

impl<'src> TokenRef<'src> {
    /// Copies the token's text.
    pub fn to_token(&self, alloc: Global) -> Result<Token, AllocError>
        ensures { IfOk result (λ token. token_of token ≡ token_of_ref self.now) }
    {
        Ok(match self {
            TokenRef::LParen => Token::LParen,
            TokenRef::RParen => Token::RParen,
            TokenRef::Symbol(text) => Token::Symbol(String::from_str(alloc, text)?),
            TokenRef::Int(value) => Token::Int(*value),
            TokenRef::At => Token::At,
        })
    }
}
