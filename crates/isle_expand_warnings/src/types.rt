//! The types of terms, as far as the definitions say them.

ghost use Rattle.std.specs.Prelude.{◌≡◌, map, option_map};
ghost use Rattle.isle_ast.specs.TreeView.{definition_of, definitions_of, fields_of};
ghost use Rattle.isle_ast.specs.TreeView.{type_definition_of, variant_of};
ghost use Rattle.isle_ast_names.specs.TreeView.{name_of};
ghost use Rattle.isle_expand_warnings.specs.First.{first};
ghost use Rattle.isle_expand_warnings.specs.Types.{argument_type, argument_type_in, content_type};
ghost use Rattle.isle_expand_warnings.specs.Types.{field_type, value_type, value_type_in};
ghost use Rattle.isle_expand_warnings.specs.Types.{variant_type};

use crate::variants::{has_variant, is_variant};
use isle_ast::ast::{Def, Fields, Ident, TypeDef, TypeValue, Variant};

/// Returns the type of a term's value, if a declaration or an enum says it.
pub fn value_type<'d>(term: &Ident, defs: &'d [Def]) -> Option<&'d Ident>
    ensures { option_map (λ ty. (name_of ty.now).text) result
        ≡ value_type (definitions_of defs.now) (name_of term.now).text }
{
    for def in defs {
        if let Some(ty) = value_type_in(term, def) {
            return Some(ty);
        }
    }
    None
}

/// Returns the type of a term's value, if this definition says it.
fn value_type_in<'d>(term: &Ident, def: &'d Def) -> Option<&'d Ident>
    ensures { option_map (λ ty. (name_of ty.now).text) result
        ≡ value_type_in (name_of term.now).text (definition_of def.now) }
{
    match def {
        Def::Decl(decl) if decl.term.0 == term.0 => Some(&decl.ret_ty),
        Def::TypeDef(type_def) if has_variant(term, type_def) => Some(&type_def.name),
        _ => None,
    }
}

/// Returns the type of a term's argument, if a declaration or an enum says it. `number` counts the
/// arguments from 0.
pub fn argument_type<'d>(term: &Ident, number: usize, defs: &'d [Def]) -> Option<&'d Ident>
    ensures { option_map (λ ty. (name_of ty.now).text) result
        ≡ argument_type (definitions_of defs.now) (name_of term.now).text number }
{
    for def in defs {
        if let Some(ty) = argument_type_in(term, number, def) {
            return Some(ty);
        }
    }
    None
}

/// Returns the type of a term's argument, if this definition says it.
fn argument_type_in<'d>(term: &Ident, number: usize, def: &'d Def) -> Option<&'d Ident>
    ensures { option_map (λ ty. (name_of ty.now).text) result
        ≡ argument_type_in (name_of term.now).text number (definition_of def.now) }
{
    match def {
        Def::Decl(decl) if decl.term.0 == term.0 => decl.arg_tys.get(number),
        Def::TypeDef(type_def) => content_type(term, number, type_def),
        _ => None,
    }
}

/// Returns the type of a field, if the term is a variant of this type.
fn content_type<'d>(term: &Ident, number: usize, type_def: &'d TypeDef) -> Option<&'d Ident>
    ensures { option_map (λ ty. (name_of ty.now).text) result
        ≡ content_type (name_of term.now).text number (type_definition_of type_def.now)
        (type_definition_of type_def.now).ty }
{
    match &type_def.ty {
        TypeValue::Enum(variants, _) => variants_type(term, number, type_def, variants),
        _ => None,
    }
}

/// Returns the type of a field, if the term is one of these variants.
fn variants_type<'d>(
    term: &Ident,
    number: usize,
    type_def: &TypeDef,
    variants: &'d [Variant],
) -> Option<&'d Ident>
    ensures { option_map (λ ty. (name_of ty.now).text) result
        ≡ first (variant_type (name_of term.now).text number (type_definition_of type_def.now))
        (map variant_of variants.now) }
{
    for variant in variants {
        if let Some(ty) = variant_type(term, number, type_def, variant) {
            return Some(ty);
        }
    }
    None
}

/// Returns the type of a field, if the term is this variant.
fn variant_type<'d>(
    term: &Ident,
    number: usize,
    type_def: &TypeDef,
    variant: &'d Variant,
) -> Option<&'d Ident>
    ensures { option_map (λ ty. (name_of ty.now).text) result
        ≡ variant_type (name_of term.now).text number (type_definition_of type_def.now)
        (variant_of variant.now) }
{
    if is_variant(term, type_def, variant) {
        return field_type(number, &variant.fields);
    }
    None
}

fn field_type(number: usize, fields: &Fields) -> Option<&Ident>
    ensures { option_map (λ ty. (name_of ty.now).text) result
        ≡ field_type number (fields_of fields.now) }
{
    match fields {
        Fields::Unit => None,
        Fields::Struct(fields) => match fields.fields.get(number) {
            Some(field) => Some(&field.ty),
            None => None,
        },
        Fields::Tuple(fields) => match fields.fields.get(number) {
            Some(field) => Some(&field.ty),
            None => None,
        },
    }
}
