//! The names and numbers that can be written as text and read back.

ghost use Rattle.std.specs.Prelude.{◌≡◌, ◌∷◌, string_bytes};
ghost use Rattle.std.specs.List.{list_all};
ghost use Rattle.std.specs.Str.{chars};
ghost use Rattle.isle_ast_names.specs.Identifier.{continues_identifier, is_identifier};
ghost use Rattle.isle_ast_names.specs.TreeView.{name_of, names_of, optional_name_of};
ghost use Rattle.isle_ast_names.specs.WritableDeciders.{are_names, begins_with_dollar};
ghost use Rattle.isle_ast_names.specs.WritableDeciders.{has_dot, is_bool_name, is_constant_name};
ghost use Rattle.isle_ast_names.specs.WritableDeciders.{is_float_name, is_name, is_optional_name};
ghost use Rattle.isle_ast_names.specs.WritableDeciders.{is_signed, is_writable_variant_name};

use crate::Ident;
use crate::identifier::{continues_identifier, is_identifier};

/// Returns whether a name is an identifier.
pub fn is_name(name: &Ident) -> bool
    ensures { result ≡ is_name (name_of name.now) }
{
    is_identifier(&name.0)
}

/// Returns whether every name is an identifier.
pub fn are_names(names: &[Ident]) -> bool
    ensures { result ≡ are_names (names_of names.now) }
{
    names.iter().all(is_name)
}

/// Returns whether the name is absent or an identifier.
pub fn is_optional_name(name: &Option<Ident>) -> bool
    ensures { result ≡ is_optional_name (optional_name_of name.now) }
{
    match name {
        Some(name) => is_name(name),
        None => true,
    }
}

/// Returns whether a name is `true` or `false`.
pub fn is_bool_name(name: &Ident) -> bool
    ensures { result ≡ is_bool_name (name_of name.now) }
{
    matches!(name.0.as_str(), "true" | "false")
}

pub fn begins_with_dollar(name: &Ident) -> bool
    ensures { result ≡ begins_with_dollar (string_bytes name.now.0) }
{
    name.0.starts_with('$')
}

/// Returns whether a name is an identifier with a `$` before it.
pub fn is_constant_name(name: &Ident) -> bool
    ensures { result ≡ is_constant_name (name_of name.now) }
{
    is_constant(&name.0)
}

/// Returns whether a text is an identifier with a `$` before it: each of its characters may follow
/// the first one of an identifier.
fn is_constant(text: &str) -> bool
    ensures { result ≡ is_identifier (36 ∷ text.now) }
{
    all_continue(text)
}

/// Returns whether each character of a text may follow the first one of an identifier.
fn all_continue(text: &str) -> bool
    ensures { result ≡ list_all continues_identifier (chars text.now) }
{
    text.chars().all(continues_identifier)
}

/// Returns whether the names of an enum and its variant are writable: the enum's name has no dot,
/// and the two together are no operator.
pub fn is_variant_name(name: &Ident, variant: &Ident) -> bool
    ensures { result ≡ is_writable_variant_name (name_of name.now) (name_of variant.now) }
{
    is_name(name)
        && is_name(variant)
        && !has_dot(name)
        && !(name.0.as_str() == "fp" && is_float_name(&variant.0))
}

fn has_dot(name: &Ident) -> bool
    ensures { result ≡ has_dot (string_bytes name.now.0) }
{
    name.0.as_bytes().contains(&b'.')
}

/// The names of the operators on floats, after `fp.`.
const FLOAT_NAMES: [&str; 30] = [
    "eq",
    "ne",
    "lt",
    "gt",
    "le",
    "ge",
    "+oo",
    "-oo",
    "+zero",
    "-zero",
    "NaN",
    "add",
    "sub",
    "mul",
    "div",
    "min",
    "max",
    "neg",
    "ceil",
    "floor",
    "sqrt",
    "trunc",
    "nearest",
    "isZero",
    "isInfinite",
    "isNaN",
    "isNegative",
    "isPositive",
    "to_ubv",
    "to_sbv",
];

/// Returns whether an operator has this name after `fp.`.
fn is_float_name(name: &str) -> bool
    ensures { result ≡ is_float_name name.now }
{
    FLOAT_NAMES.contains(&name)
}

/// Every number of the type can be written.
pub fn is_whole_number(_number: i128) -> bool
    ensures { result ≡ is_signed 127 _number }
{
    true
}
