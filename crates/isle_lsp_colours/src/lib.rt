//! The semantic tokens of a document: what each token is, as editors colour it.
//!
//! A name is coloured by what its definition makes of it, as far as the definitions of the document
//! are known. Other symbols are coloured if they are words of the language.
#![tactic(auto)]

ghost use Rattle.std.specs.Prelude.{◌≡◌, ◌≤◌, IfOk};
ghost use Rattle.serde_json.specs.Data.{depth};
ghost use Rattle.serde_json.specs.View.{view};
ghost use Rattle.isle_lsp_colours.specs.Coloured.{AreTokens, offsets_of};
ghost use Rattle.isle_lsp_colours.specs.Tokens.{tokens_data};

mod classes;
mod encoding;
mod keywords;
mod known;
pub mod laws;
mod names;
mod tokens;

pub use classes::{Class, TokenKind, token_modifiers, token_types};
use encoding::token_values;
use isle_lsp_text::positions::{PositionEncoding, Range, offset_of};
use known::classes_of;
use serde_json::{Value, json};
use std::alloc::{AllocError, Global};
use tokens::{Token, tokens_in};

/// The semantic tokens of a text, as the result of `textDocument/semanticTokens/full`; with a
/// range, those that begin in it, as the result of `textDocument/semanticTokens/range`.
///
/// There are none after a lexical error. An `Err` means out of memory.
pub fn semantic_tokens(
    alloc: Global,
    encoding: PositionEncoding,
    text: &str,
    within: Option<Range>,
) -> Result<Value, AllocError>
    ensures tokens { IfOk result (λ value. AreTokens encoding text.now within (view value)) }
    ensures shallow { IfOk result (λ value. depth (view value) ≤ 2) }
{
    let classes = classes_of(alloc, text)?;
    let tokens = tokens_in(alloc, text, &classes, offsets_of(encoding, text, within))?;
    tokens_value(alloc, encoding, text, &tokens)
}

/// The byte offsets of the ends of a range, if there is one.
fn offsets_of(
    encoding: PositionEncoding,
    text: &str,
    within: Option<Range>,
) -> Option<(usize, usize)>
    ensures { result ≡ offsets_of encoding text.now within }
{
    match within {
        Some(range) => Some((
            offset_of(encoding, text, range.start),
            offset_of(encoding, text, range.end),
        )),
        None => None,
    }
}

/// Tokens as JSON.
fn tokens_value(
    alloc: Global,
    encoding: PositionEncoding,
    text: &str,
    tokens: &[Token],
) -> Result<Value, AllocError>
    ensures { IfOk result (λ value. view value ≡ tokens_data encoding text.now tokens.now) }
{
    let data = Value::Array(token_values(alloc, encoding, text, tokens)?);
    json!(in alloc; {"data": data})
}
