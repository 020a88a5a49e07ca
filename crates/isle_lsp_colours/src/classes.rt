//! The classes of tokens.

ghost use Rattle.std.specs.Prelude.{◌≡◌, IfOk};
ghost use Rattle.serde_json.specs.View.{view};
ghost use Rattle.isle_lsp_colours.specs.Classes as wanted;
ghost use Rattle.isle_lsp_colours.specs.Classes.{modifiers, type_number};

use serde_json::{Value, json};
use std::alloc::{AllocError, Global};

/// What a token is.
#[derive(Clone, Copy)]
pub enum TokenKind {
    /// A word of the language.
    Keyword,
    /// The name of a type.
    Type,
    /// A variant of a type, by its own name or as the term `TYPE.VARIANT`.
    Variant,
    /// A term other than a variant.
    Term,
    /// A constant.
    Constant,
    /// A variable.
    Variable,
    /// A parameter of an extractor.
    Parameter,
    /// An integer.
    Number,
}

/// The class of a token.
#[derive(Clone, Copy)]
pub struct Class {
    /// What it is.
    pub kind: TokenKind,
    /// Whether it defines a name here, or a `let` binds one.
    pub is_declaration: bool,
}

impl TokenKind {
    /// The number of its type: its index in `token_types`.
    pub fn type_number(self) -> usize
        ensures { result ≡ type_number self }
    {
        match self {
            TokenKind::Keyword => 0,
            TokenKind::Type => 1,
            TokenKind::Variant => 2,
            TokenKind::Term => 3,
            TokenKind::Constant | TokenKind::Variable => 4,
            TokenKind::Parameter => 5,
            TokenKind::Number => 6,
        }
    }
}

impl Class {
    /// The set of its modifiers: bit `i` is that of index `i` in `token_modifiers`.
    pub fn modifiers(self) -> usize
        ensures { result ≡ modifiers self }
    {
        let declaration = if self.is_declaration { 1 } else { 0 };
        match self.kind {
            TokenKind::Constant => declaration + 2,
            _ => declaration,
        }
    }
}

/// The names of the types of tokens, by their numbers, as the server's legend lists them.
pub fn token_types(alloc: Global) -> Result<Value, AllocError>
    ensures { IfOk result (λ value. view value ≡ wanted.token_types) }
{
    json!(in alloc; [
        "keyword",
        "type",
        "enumMember",
        "function",
        "variable",
        "parameter",
        "number"
    ])
}

/// The names of the modifiers of tokens, by their bits, as the server's legend lists them.
pub fn token_modifiers(alloc: Global) -> Result<Value, AllocError>
    ensures { IfOk result (λ value. view value ≡ wanted.token_modifiers) }
{
    json!(in alloc; ["declaration", "readonly"])
}
