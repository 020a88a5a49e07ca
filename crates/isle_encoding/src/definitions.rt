//! Encodes definitions.

ghost use Rattle.std.specs.Prelude.{◌≡◌, ◌<◌, ◌++◌, ◌∷◌, OnOk, map, string_bytes};
ghost use Rattle.isle_ast.specs.TreeView.{attribute_of, conversion_of, declaration_of};
ghost use Rattle.isle_ast.specs.TreeView.{definition_of, extern_of, fields_of, form_of};
ghost use Rattle.isle_ast.specs.TreeView.{indexed_field_of, instantiation_of, kind_of};
ghost use Rattle.isle_ast.specs.TreeView.{model_content_of, model_definition_of, named_field_of};
ghost use Rattle.isle_ast.specs.TreeView.{signature_of, signatures_of, target_of};
ghost use Rattle.isle_ast.specs.TreeView.{type_content_of, type_definition_of, variant_of};
ghost use Rattle.isle_ast_verification.specs.TreeView.{type_model_of};
ghost use Rattle.isle_encoding.specs.Encoded.{attribute, attribute_kind, attribute_target};
ghost use Rattle.isle_encoding.specs.Encoded.{conversion, declaration, definition};
ghost use Rattle.isle_encoding.specs.Encoded.{extern_definition, fields, form_definition};
ghost use Rattle.isle_encoding.specs.Encoded.{indexed_field, model_content, model_definition};
ghost use Rattle.isle_encoding.specs.Encoded.{named_field, signature, term_instantiation};
ghost use Rattle.isle_encoding.specs.Encoded.{type_content, type_definition, variant};
ghost use Rattle.isle_encoding.specs.Numbers.{list};
ghost use Rattle.isle_encoding.specs.Verification.{type_model};

use crate::names::{put_name, put_names, put_optional_name, put_position};
use crate::numbers::{put_byte, put_flag, put_number};
use crate::rules::{put_extractor, put_rule};
use crate::verification::{put_model_type, put_spec, put_spec_expr, put_spec_macro, put_state};
use isle_ast::ast::{
    Attr, AttrKind, AttrTarget, Converter, Decl, Def, Extern, Fields, Form, Instantiation, Model,
    ModelType, ModelValue, Signature, StructField, TupleField, TypeDef, TypeValue, Variant,
};
use std::alloc::AllocError;

pub fn put_definition(out: &mut String, def: &Def) -> Result<(), AllocError>
    ensures { OnOk result
        (string_bytes out.new ≡ string_bytes out.old ++ definition (definition_of def.now)) }
{
    match def {
        Def::Pragma(pragma) => match *pragma {},
        Def::TypeDef(value) => put_type(out, 1, value),
        Def::Rule(value) => put_rule(out, 2, value),
        Def::Extractor(value) => put_extractor(out, 3, value),
        Def::Decl(value) => put_decl(out, 4, value),
        Def::Attr(value) => put_attr(out, 5, value),
        Def::Spec(value) => put_spec(out, 6, value),
        Def::SpecMacro(value) => put_spec_macro(out, 7, value),
        Def::Model(value) => put_model(out, 8, value),
        Def::State(value) => put_state(out, 9, value),
        Def::Form(value) => put_form(out, 10, value),
        Def::Instantiation(value) => put_instantiation(out, 11, value),
        Def::Extern(value) => put_extern(out, 12, value),
        Def::Converter(value) => put_converter(out, 13, value),
    }
}

fn put_type(out: &mut String, kind: u8, value: &TypeDef) -> Result<(), AllocError>
    requires { kind < 128 }
    ensures { OnOk result (string_bytes out.new
        ≡ string_bytes out.old ++ (kind ∷ type_definition (type_definition_of value.now))) }
{
    put_byte(out, kind)?;
    put_name(out, &value.name)?;
    put_flag(out, value.is_extern)?;
    put_flag(out, value.is_nodebug)?;
    put_type_value(out, &value.ty)?;
    put_position(out, value.pos)
}

/// Appends the contents of a type.
fn put_type_value(out: &mut String, value: &TypeValue) -> Result<(), AllocError>
    ensures { OnOk result
        (string_bytes out.new ≡ string_bytes out.old ++ type_content (type_content_of value.now)) }
{
    match value {
        TypeValue::Primitive(name, pos) => {
            put_byte(out, 0)?;
            put_name(out, name)?;
            put_position(out, *pos)
        }
        TypeValue::Enum(variants, pos) => {
            put_byte(out, 1)?;
            put_variants(out, variants)?;
            put_position(out, *pos)
        }
        TypeValue::Struct(fields, pos) => {
            put_byte(out, 2)?;
            put_fields(out, fields)?;
            put_position(out, *pos)
        }
    }
}

fn put_variants(out: &mut String, values: &[Variant]) -> Result<(), AllocError>
    ensures { OnOk result (string_bytes out.new
        ≡ string_bytes out.old ++ list variant (map variant_of values.now)) }
{
    put_number(out, values.len())?;
    for value in values {
        put_variant(out, value)?;
    }
    Ok(())
}

fn put_variant(out: &mut String, value: &Variant) -> Result<(), AllocError>
    ensures { OnOk result
        (string_bytes out.new ≡ string_bytes out.old ++ variant (variant_of value.now)) }
{
    put_name(out, &value.name)?;
    put_fields(out, &value.fields)?;
    put_position(out, value.pos)
}

fn put_fields(out: &mut String, value: &Fields) -> Result<(), AllocError>
    ensures { OnOk result
        (string_bytes out.new ≡ string_bytes out.old ++ fields (fields_of value.now)) }
{
    match value {
        Fields::Unit => put_byte(out, 0),
        Fields::Struct(value) => {
            put_byte(out, 1)?;
            put_struct_fields(out, &value.fields)?;
            put_position(out, value.pos)
        }
        Fields::Tuple(value) => {
            put_byte(out, 2)?;
            put_tuple_fields(out, &value.fields)?;
            put_position(out, value.pos)
        }
    }
}

fn put_struct_fields(out: &mut String, values: &[StructField]) -> Result<(), AllocError>
    ensures { OnOk result (string_bytes out.new
        ≡ string_bytes out.old ++ list named_field (map named_field_of values.now)) }
{
    put_number(out, values.len())?;
    for value in values {
        put_struct_field(out, value)?;
    }
    Ok(())
}

fn put_struct_field(out: &mut String, value: &StructField) -> Result<(), AllocError>
    ensures { OnOk result
        (string_bytes out.new ≡ string_bytes out.old ++ named_field (named_field_of value.now)) }
{
    put_name(out, &value.name)?;
    put_name(out, &value.ty)?;
    put_position(out, value.pos)
}

fn put_tuple_fields(out: &mut String, values: &[TupleField]) -> Result<(), AllocError>
    ensures { OnOk result (string_bytes out.new
        ≡ string_bytes out.old ++ list indexed_field (map indexed_field_of values.now)) }
{
    put_number(out, values.len())?;
    for value in values {
        put_tuple_field(out, value)?;
    }
    Ok(())
}

fn put_tuple_field(out: &mut String, value: &TupleField) -> Result<(), AllocError>
    ensures { OnOk result (string_bytes out.new
        ≡ string_bytes out.old ++ indexed_field (indexed_field_of value.now)) }
{
    put_number(out, value.index)?;
    put_name(out, &value.ty)?;
    put_position(out, value.pos)
}

fn put_decl(out: &mut String, kind: u8, value: &Decl) -> Result<(), AllocError>
    requires { kind < 128 }
    ensures { OnOk result (string_bytes out.new
        ≡ string_bytes out.old ++ (kind ∷ declaration (declaration_of value.now))) }
{
    put_byte(out, kind)?;
    put_name(out, &value.term)?;
    put_names(out, &value.arg_tys)?;
    put_name(out, &value.ret_ty)?;
    put_flag(out, value.pure)?;
    put_flag(out, value.multi)?;
    put_flag(out, value.partial)?;
    put_flag(out, value.rec)?;
    put_position(out, value.pos)
}

fn put_attr(out: &mut String, kind: u8, value: &Attr) -> Result<(), AllocError>
    requires { kind < 128 }
    ensures { OnOk result (string_bytes out.new
        ≡ string_bytes out.old ++ (kind ∷ attribute (attribute_of value.now))) }
{
    put_byte(out, kind)?;
    put_target(out, &value.target)?;
    put_kinds(out, &value.kinds)?;
    put_position(out, value.pos)
}

fn put_target(out: &mut String, value: &AttrTarget) -> Result<(), AllocError>
    ensures { OnOk result
        (string_bytes out.new ≡ string_bytes out.old ++ attribute_target (target_of value.now)) }
{
    match value {
        AttrTarget::Term(name) => {
            put_byte(out, 0)?;
            put_name(out, name)
        }
        AttrTarget::Rule(name) => {
            put_byte(out, 1)?;
            put_name(out, name)
        }
    }
}

fn put_kinds(out: &mut String, values: &[AttrKind]) -> Result<(), AllocError>
    ensures { OnOk result (string_bytes out.new
        ≡ string_bytes out.old ++ list attribute_kind (map kind_of values.now)) }
{
    put_number(out, values.len())?;
    for value in values {
        put_kind(out, value)?;
    }
    Ok(())
}

fn put_kind(out: &mut String, value: &AttrKind) -> Result<(), AllocError>
    ensures { OnOk result
        (string_bytes out.new ≡ string_bytes out.old ++ attribute_kind (kind_of value.now)) }
{
    match value {
        AttrKind::Chain => put_byte(out, 0),
        AttrKind::Priority => put_byte(out, 1),
        AttrKind::Tag(name) => {
            put_byte(out, 2)?;
            put_name(out, name)
        }
    }
}

fn put_model(out: &mut String, kind: u8, value: &Model) -> Result<(), AllocError>
    requires { kind < 128 }
    ensures { OnOk result (string_bytes out.new
        ≡ string_bytes out.old ++ (kind ∷ model_definition (model_definition_of value.now))) }
{
    put_byte(out, kind)?;
    put_name(out, &value.name)?;
    put_model_value(out, &value.val)
}

/// Appends the contents of a model.
fn put_model_value(out: &mut String, value: &ModelValue) -> Result<(), AllocError>
    ensures { OnOk result (string_bytes out.new
        ≡ string_bytes out.old ++ model_content (model_content_of value.now)) }
{
    match value {
        ModelValue::TypeValue(ty) => {
            put_byte(out, 0)?;
            put_model_type(out, ty)
        }
        ModelValue::ConstValue(value) => {
            put_byte(out, 1)?;
            put_spec_expr(out, value)
        }
    }
}

fn put_form(out: &mut String, kind: u8, value: &Form) -> Result<(), AllocError>
    requires { kind < 128 }
    ensures { OnOk result (string_bytes out.new
        ≡ string_bytes out.old ++ (kind ∷ form_definition (form_of value.now))) }
{
    put_byte(out, kind)?;
    put_name(out, &value.name)?;
    put_signatures(out, &value.signatures)?;
    put_position(out, value.pos)
}

fn put_signatures(out: &mut String, values: &[Signature]) -> Result<(), AllocError>
    ensures { OnOk result (string_bytes out.new
        ≡ string_bytes out.old ++ list signature (signatures_of values.now)) }
{
    put_number(out, values.len())?;
    for value in values {
        put_signature(out, value)?;
    }
    Ok(())
}

fn put_signature(out: &mut String, value: &Signature) -> Result<(), AllocError>
    ensures { OnOk result
        (string_bytes out.new ≡ string_bytes out.old ++ signature (signature_of value.now)) }
{
    put_model_types(out, &value.args)?;
    put_model_type(out, &value.ret)?;
    put_position(out, value.pos)
}

fn put_model_types(out: &mut String, values: &[ModelType]) -> Result<(), AllocError>
    ensures { OnOk result (string_bytes out.new
        ≡ string_bytes out.old ++ list type_model (map type_model_of values.now)) }
{
    put_number(out, values.len())?;
    for value in values {
        put_model_type(out, value)?;
    }
    Ok(())
}

fn put_instantiation(out: &mut String, kind: u8, value: &Instantiation) -> Result<(), AllocError>
    requires { kind < 128 }
    ensures { OnOk result (string_bytes out.new
        ≡ string_bytes out.old ++ (kind ∷ term_instantiation (instantiation_of value.now))) }
{
    put_byte(out, kind)?;
    put_name(out, &value.term)?;
    put_optional_name(out, &value.form)?;
    put_signatures(out, &value.signatures)?;
    put_names(out, &value.tags)?;
    put_position(out, value.pos)
}

fn put_extern(out: &mut String, kind: u8, value: &Extern) -> Result<(), AllocError>
    requires { kind < 128 }
    ensures { OnOk result (string_bytes out.new
        ≡ string_bytes out.old ++ (kind ∷ extern_definition (extern_of value.now))) }
{
    put_byte(out, kind)?;
    match value {
        Extern::Extractor {
            term,
            func,
            pos,
            infallible,
        } => {
            put_byte(out, 0)?;
            put_name(out, term)?;
            put_name(out, func)?;
            put_position(out, *pos)?;
            put_flag(out, *infallible)
        }
        Extern::Constructor { term, func, pos } => {
            put_byte(out, 1)?;
            put_name(out, term)?;
            put_name(out, func)?;
            put_position(out, *pos)
        }
        Extern::Const { name, ty, pos } => {
            put_byte(out, 2)?;
            put_name(out, name)?;
            put_name(out, ty)?;
            put_position(out, *pos)
        }
    }
}

fn put_converter(out: &mut String, kind: u8, value: &Converter) -> Result<(), AllocError>
    requires { kind < 128 }
    ensures { OnOk result (string_bytes out.new
        ≡ string_bytes out.old ++ (kind ∷ conversion (conversion_of value.now))) }
{
    put_byte(out, kind)?;
    put_name(out, &value.term)?;
    put_name(out, &value.inner_ty)?;
    put_name(out, &value.outer_ty)?;
    put_position(out, value.pos)
}
