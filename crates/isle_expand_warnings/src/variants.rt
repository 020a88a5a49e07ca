//! The variants of an enum as terms, `TYPE.VARIANT`.

ghost use Rattle.std.specs.Prelude.{◌≡◌, ◌++◌, codes, map};
ghost use Rattle.std.specs.List.{list_any};
ghost use Rattle.std.specs.Str.{bytes_eq};
ghost use Rattle.isle_ast.specs.TreeView.{type_definition_of, variant_of};
ghost use Rattle.isle_ast_names.specs.TreeView.{name_of};
ghost use Rattle.isle_expand_warnings.specs.Variants.{has_variant, is_variant};

use isle_ast::ast::{Ident, TypeDef, TypeValue, Variant};

/// Returns whether a term is a variant of a type, `TYPE.VARIANT`.
pub fn has_variant(term: &Ident, type_def: &TypeDef) -> bool
    ensures { result
        ≡ has_variant (name_of term.now).text (type_definition_of type_def.now)
        (type_definition_of type_def.now).ty }
{
    match &type_def.ty {
        TypeValue::Enum(variants, _) => is_one_of(term, type_def, variants),
        _ => false,
    }
}

/// Returns whether a term is one of these variants of a type.
fn is_one_of(term: &Ident, type_def: &TypeDef, variants: &[Variant]) -> bool
    ensures { result
        ≡ list_any (is_variant (name_of term.now).text (type_definition_of type_def.now))
        (map variant_of variants.now) }
{
    for variant in variants {
        if is_variant(term, type_def, variant) {
            return true;
        }
    }
    false
}

/// Returns whether a term is this variant of a type, `TYPE.VARIANT`.
pub fn is_variant(term: &Ident, type_def: &TypeDef, variant: &Variant) -> bool
    ensures { result
        ≡ is_variant (name_of term.now).text (type_definition_of type_def.now)
        (variant_of variant.now) }
{
    is_joined(
        term.0.as_str().as_bytes(),
        type_def.name.0.as_str().as_bytes(),
        variant.name.0.as_str().as_bytes(),
    )
}

/// Returns whether bytes are `first`, a dot and `last`.
fn is_joined(bytes: &[u8], first: &[u8], last: &[u8]) -> bool
    ensures { result ≡ bytes_eq (first.now ++ codes "." ++ last.now) bytes.now }
{
    match bytes.strip_prefix(first) {
        Some(rest) => match rest.strip_prefix(b".") {
            Some(name) => last == name,
            None => false,
        },
        None => false,
    }
}
