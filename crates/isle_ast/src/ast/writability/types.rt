//! The types that can be written as text and read back.

ghost use Rattle.std.specs.Prelude.{◌≡◌, map};
ghost use Rattle.std.specs.List.{list_all};
ghost use Rattle.isle_ast.specs.TreeView.{fields_of, indexed_field_of, named_field_of};
ghost use Rattle.isle_ast.specs.TreeView.{type_content_of, type_definition_of, variant_of};
ghost use Rattle.isle_ast.specs.WritableDeciders.{are_writable_fields, are_writable_indexed_fields};
ghost use Rattle.isle_ast.specs.WritableDeciders.{is_writable_named_field, is_writable_type};
ghost use Rattle.isle_ast.specs.WritableDeciders.{is_writable_type_content, is_writable_variant};

use crate::ast::{Fields, StructField, TupleField, TypeDef, TypeValue, Variant};
use isle_ast_names::writability::is_name;

pub(super) fn is_writable_type(def: &TypeDef) -> bool
    ensures { result ≡ is_writable_type (type_definition_of def.now) }
{
    is_name(&def.name) && is_writable_value(&def.ty)
}

/// Returns whether the contents of a type are writable.
fn is_writable_value(value: &TypeValue) -> bool
    ensures { result ≡ is_writable_type_content (type_content_of value.now) }
{
    match value {
        TypeValue::Primitive(name, _) => is_name(name),
        TypeValue::Enum(variants, _) => are_writable_variants(variants),
        TypeValue::Struct(fields, _) => are_writable_fields(fields),
    }
}

fn are_writable_variants(variants: &[Variant]) -> bool
    ensures { result ≡ list_all is_writable_variant (map variant_of variants.now) }
{
    variants.iter().all(is_writable_variant)
}

fn is_writable_variant(variant: &Variant) -> bool
    ensures { result ≡ is_writable_variant (variant_of variant.now) }
{
    is_name(&variant.name) && are_writable_fields(&variant.fields)
}

/// Returns whether fields are writable: if they are not `Unit`, there is at least one.
fn are_writable_fields(fields: &Fields) -> bool
    ensures { result ≡ are_writable_fields (fields_of fields.now) }
{
    match fields {
        Fields::Unit => true,
        Fields::Struct(named) => {
            !named.fields.is_empty() && are_writable_named_fields(&named.fields)
        }
        Fields::Tuple(placed) => {
            !placed.fields.is_empty() && are_at_their_places(&placed.fields)
        }
    }
}

fn are_writable_named_fields(fields: &[StructField]) -> bool
    ensures { result ≡ list_all is_writable_named_field (map named_field_of fields.now) }
{
    fields.iter().all(is_writable_named_field)
}

fn is_writable_named_field(field: &StructField) -> bool
    ensures { result ≡ is_writable_named_field (named_field_of field.now) }
{
    is_name(&field.name) && is_name(&field.ty)
}

/// Returns whether each positional field is writable and has its place as its index.
fn are_at_their_places(fields: &[TupleField]) -> bool
    ensures { result ≡ are_writable_indexed_fields 0 (map indexed_field_of fields.now) }
{
    for place in 0..fields.len() {
        if fields[place].index != place || !is_name(&fields[place].ty) {
            return false;
        }
    }
    true
}
