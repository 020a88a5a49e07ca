//! Definitions of types.
#![tactic(auto, unfolding(crate::specs::TypeReaders::type_definition, crate::specs::TypeReaders::modifier, crate::specs::TypeReaders::type_content, isle_parser_cursor::specs::Reading::in_parentheses, crate::specs::TypeReaders::content_inside, crate::specs::TypeReaders::enum_content, crate::specs::TypeReaders::struct_content, crate::specs::TypeReaders::variant, crate::specs::TypeReaders::variant_inside, crate::specs::TypeReaders::fields, crate::specs::TypeReaders::named_field, crate::specs::TypeReaders::field_inside, isle_parser_cursor::specs::NameReaders::name))]

ghost use Rattle.std.specs.Prelude.{◌≡◌, IfOk, map, string_bytes};
ghost use Rattle.isle_ast.specs.TreeView.{fields_of, indexed_field_of, named_field_of};
ghost use Rattle.isle_ast.specs.TreeView.{struct_fields_of, tuple_fields_of, type_content_of};
ghost use Rattle.isle_ast.specs.TreeView.{type_definition_of, variant_of};
ghost use Rattle.isle_ast_names.specs.TreeView.{name_of};
ghost use Rattle.isle_parser.specs.TypeReaders.{content_inside, fields, indexed, indexed_fields};
ghost use Rattle.isle_parser.specs.TypeReaders.{modifier, modifier_flags, named_field};
ghost use Rattle.isle_parser.specs.TypeReaders.{named_fields, type_content, type_definition};
ghost use Rattle.isle_parser.specs.TypeReaders.{variant};
ghost use Rattle.isle_parser_cursor.specs.Outcomes.{IsPlace, ReadsOff, source};
ghost use Rattle.isle_parser_cursor.specs.NameReaders.{name};
ghost use Rattle.isle_parser_cursor.specs.Reading.{at_rparen, many};

use isle_ast::ast::{
    Fields, StructField, StructFields, TupleField, TupleFields, TypeDef, TypeValue, Variant,
};
use isle_base::lexer::Pos;
use isle_parser_cursor::cursor::{Cursor, Stop};
use std::alloc::Global;

pub(super) fn parse_type(cursor: &mut Cursor, alloc: Global) -> Result<TypeDef, Stop>
    ensures { ReadsOff type_definition_of type_definition cursor.old result cursor.new }
{
    let pos = cursor.pos();
    let name = cursor.parse_ident(alloc)?;
    let (is_extern, is_nodebug) = parse_modifiers(cursor, alloc)?;
    let ty = parse_typevalue(cursor, alloc)?;
    Ok(TypeDef {
        name,
        is_extern,
        is_nodebug,
        ty,
        pos,
    })
}

/// Parses the modifiers of a type, and returns whether `extern` and `nodebug` are among them.
fn parse_modifiers(cursor: &mut Cursor, alloc: Global) -> Result<(bool, bool), Stop>
    ensures { ReadsOff (λ set. set) modifier_flags cursor.old result cursor.new }
{
    let mut is_extern = false;
    let mut is_nodebug = false;
    while cursor.is_sym() {
        let word = parse_modifier(cursor, alloc)?;
        is_extern |= word.as_str() == "extern";
        is_nodebug |= word.as_str() == "nodebug";
    }
    Ok((is_extern, is_nodebug))
}

fn parse_modifier(cursor: &mut Cursor, alloc: Global) -> Result<String, Stop>
    ensures { ReadsOff string_bytes modifier cursor.old result cursor.new }
{
    let word = cursor.expect_symbol(alloc)?;
    if word.as_str() == "extern" || word.as_str() == "nodebug" {
        return Ok(word);
    }
    Err(cursor.refuse_at(
        cursor.place(),
        format!(in alloc; "unknown type declaration modifier: {word}"),
    ))
}

fn parse_typevalue(cursor: &mut Cursor, alloc: Global) -> Result<TypeValue, Stop>
    ensures { ReadsOff type_content_of type_content cursor.old result cursor.new }
{
    let place = cursor.place();
    let pos = cursor.pos();
    cursor.expect_lparen(alloc)?;
    let ty = parse_typevalue_inside(cursor, alloc, place, pos)?;
    cursor.close(alloc, ty)
}

/// Parses `primitive`, `enum` or `struct`, and the rest of the type. The `(` is at `place`.
fn parse_typevalue_inside(
    cursor: &mut Cursor,
    alloc: Global,
    place: Pos,
    pos: Pos,
) -> Result<TypeValue, Stop>
    requires { IsPlace (source cursor.old) place }
    ensures { ReadsOff type_content_of (content_inside pos) cursor.old result cursor.new }
{
    if cursor.eat_sym_str(alloc, "primitive")? {
        return Ok(TypeValue::Primitive(cursor.parse_ident(alloc)?, pos));
    }
    if cursor.eat_sym_str(alloc, "enum")? {
        return Ok(TypeValue::Enum(parse_type_variants(cursor, alloc)?, pos));
    }
    if cursor.eat_sym_str(alloc, "struct")? {
        return Ok(TypeValue::Struct(parse_fields(cursor, alloc)?, pos));
    }
    Err(cursor.refuse_at(place, String::from_str(alloc, "Unknown type definition")))
}

/// Parses variants, up to the closing parenthesis.
fn parse_type_variants(cursor: &mut Cursor, alloc: Global) -> Result<Vec<Variant>, Stop>
    ensures { ReadsOff (λ vs. map variant_of vs.items) (many at_rparen variant) cursor.old result
        cursor.new }
{
    let mut variants = Vec::new(alloc);
    while !cursor.is_rparen() {
        variants.push(parse_type_variant(cursor, alloc)?)?;
    }
    Ok(variants)
}

fn parse_type_variant(cursor: &mut Cursor, alloc: Global) -> Result<Variant, Stop>
    ensures { ReadsOff variant_of variant cursor.old result cursor.new }
{
    let pos = cursor.pos();
    if cursor.is_sym() {
        return Ok(Variant {
            name: cursor.parse_ident(alloc)?,
            fields: Fields::Unit,
            pos,
        });
    }
    cursor.expect_lparen(alloc)?;
    let name = cursor.parse_ident(alloc)?;
    let fields = parse_fields(cursor, alloc)?;
    cursor.close(alloc, Variant { name, fields, pos })
}

fn parse_fields(cursor: &mut Cursor, alloc: Global) -> Result<Fields, Stop>
    ensures { ReadsOff fields_of fields cursor.old result cursor.new }
{
    if cursor.is_rparen() {
        return Ok(Fields::Unit);
    }
    if cursor.is_lparen() {
        return Ok(Fields::Struct(parse_struct_fields(cursor, alloc)?));
    }
    Ok(Fields::Tuple(parse_tuple_fields(cursor, alloc)?))
}

fn parse_struct_fields(cursor: &mut Cursor, alloc: Global) -> Result<StructFields, Stop>
    ensures { ReadsOff struct_fields_of named_fields cursor.old result cursor.new }
{
    let pos = cursor.pos();
    let mut fields = Vec::new(alloc);
    while !cursor.is_rparen() {
        fields.push(parse_struct_field(cursor, alloc)?)?;
    }
    Ok(StructFields { fields, pos })
}

fn parse_struct_field(cursor: &mut Cursor, alloc: Global) -> Result<StructField, Stop>
    ensures { ReadsOff named_field_of named_field cursor.old result cursor.new }
{
    let pos = cursor.pos();
    cursor.expect_lparen(alloc)?;
    let name = cursor.parse_ident(alloc)?;
    let ty = cursor.parse_ident(alloc)?;
    cursor.close(alloc, StructField { name, ty, pos })
}

fn parse_tuple_fields(cursor: &mut Cursor, alloc: Global) -> Result<TupleFields, Stop>
    ensures { ReadsOff tuple_fields_of indexed_fields cursor.old result cursor.new }
{
    let pos = cursor.pos();
    let mut fields = Vec::new(alloc);
    while !cursor.is_rparen() {
        let index = fields.len();
        fields.push(parse_tuple_field(cursor, alloc, index)?)?;
    }
    Ok(TupleFields { fields, pos })
}

/// Parses a positional field. Its index is counted from 0.
fn parse_tuple_field(cursor: &mut Cursor, alloc: Global, index: usize) -> Result<TupleField, Stop>
    ensures reads { ReadsOff (λ f. name_of f.ty) name cursor.old result cursor.new }
    ensures field { IfOk result (λ f. indexed_field_of f ≡ indexed index (name_of f.ty)) }
{
    let pos = cursor.pos();
    let ty = cursor.parse_ident(alloc)?;
    Ok(TupleField { index, ty, pos })
}
