//! Identifiers and names.

use isle_syntax::ast::identifier::{begins_identifier, continues_identifier, is_identifier};
use isle_syntax::ast::{Ident, Variant};
use isle_syntax::lexer::Pos;
use isle_test_nodes::trees::ident;
use std::alloc::{AllocError, Global};
use std::cmp::Ordering;

/// Returns whether a text is an identifier, or its first character begins or continues one, as the
/// call asks.
pub fn is_of_identifiers(call: &str, text: &str) -> bool {
    let Some(first) = text.chars().next() else {
        return is_identifier(text);
    };
    match call {
        "begins_identifier" => begins_identifier(first),
        "continues_identifier" => continues_identifier(first),
        _ => is_identifier(text),
    }
}

/// The order of a name without a position and another one at an offset of file 0.
pub fn order_of(
    alloc: Global,
    name: &str,
    other: &str,
    offset: usize,
) -> Result<Ordering, AllocError> {
    let later = Ident(other.to_string(alloc)?, Pos::new(0, offset));
    Ok(ident(alloc, name)?.cmp(&later))
}

/// The full name of a variant at an offset of file 2.
pub fn full_name(
    alloc: Global,
    def: &str,
    variant: &str,
    offset: usize,
) -> Result<Ident, AllocError> {
    let variant = Ident(variant.to_string(alloc)?, Pos::new(2, offset));
    Variant::full_name(alloc, &ident(alloc, def)?, &variant)
}
