//! Models of types.
#![tactic(auto, unfolding(crate::specs::StructParts::model_front, crate::specs::StructParts::inside_front, crate::specs::StructParts::struct_front, crate::specs::StructParts::whole, crate::specs::StructParts::bit_vector, crate::specs::ModelReaders::named_inside, crate::specs::ModelReaders::width, crate::specs::ModelReaders::number, crate::specs::StructParts::both_closed, crate::specs::ModelReaders::tagged_types, crate::specs::ModelReaders::tagged_inside, isle_parser_cursor::specs::Reading::in_parentheses, crate::specs::ModelReaders::tagged_type, crate::specs::ModelReaders::tagged_one_inside))]

ghost use Rattle.std.specs.Prelude.{◌≡◌, ◌++◌, ◌∷◌, ◌<◌, [], IfErr, IfNone, IfOk, length, map};
ghost use Rattle.std.specs.Prelude.{option_map};
ghost use Rattle.isle_ast_verification.specs.TreeView.{type_model_of};
ghost use Rattle.isle_base.specs.Token.{rparen};
ghost use Rattle.isle_parser_cursor.specs.Outcomes.{IsPlace, ReadsOff, left, source};
ghost use Rattle.isle_parser_cursor.specs.Reading.{at_rparen, many};
ghost use Rattle.isle_parser_cursor.specs.declared.cursor.Stop.TheVariants.{Memory};
ghost use Rattle.isle_parser_verification.specs.ModelReaders.{model_ahead, model_type, model_word};
ghost use Rattle.isle_parser_verification.specs.ModelReaders.{named_inside, tagged_type};
ghost use Rattle.isle_parser_verification.specs.ModelReaders.{tagged_types, width};
ghost use Rattle.isle_parser_verification.specs.StructParts.{AppendsField, BeginsField, HasModel};
ghost use Rattle.isle_parser_verification.specs.StructParts.{HasStruct, both_closed, field};
ghost use Rattle.isle_parser_verification.specs.StructParts.{field_of, field_with, model_front};

use isle_ast_names::Ident;
use isle_ast_verification::{ModelField, ModelType};
use isle_base::lexer::Pos;
use isle_base::scanner::TokenRef;
use isle_parser_cursor::cursor::{Cursor, Stop};
use std::alloc::Global;

// The frames of one cycle limit the depth of nesting: a struct's fields, and one field. So a field
// is appended to its list before its struct is parsed, and all else is in functions of its own.

/// Parses a model of a type.
#[tactic(auto, using(crate::proofs::StructParts::front_is), unfolding(crate::specs::StructParts::struct_rest))]
pub fn parse_model_type(cursor: &mut Cursor, alloc: Global) -> Result<ModelType, Stop>
    ensures { ReadsOff type_model_of model_type cursor.old result cursor.new }
{
    match parse_model_front(cursor, alloc)? {
        Some(ty) => Ok(ty),
        None => {
            let fields = parse_model_fields(cursor, alloc)?;
            cursor.expect_rparen(alloc)?;
            Ok(ModelType::Struct(fields))
        }
    }
}

/// Parses a model that is not a struct, or `(struct`, which returns `None`.
#[inline(never)]
fn parse_model_front(cursor: &mut Cursor, alloc: Global) -> Result<Option<ModelType>, Stop>
    ensures reads { ReadsOff (option_map type_model_of) model_front cursor.old result cursor.new }
    ensures shorter { IfOk result (λ front. IfNone front
        (length (left cursor.new) < length (left cursor.old))) }
{
    if !cursor.is_lparen() {
        return Ok(Some(parse_model_word(cursor, alloc)?));
    }
    let place = cursor.place();
    cursor.expect_lparen(alloc)?;
    if cursor.eat_sym_str(alloc, "bv")? {
        let width = parse_width(cursor, alloc, place)?;
        cursor.expect_rparen(alloc)?;
        return Ok(Some(ModelType::BitVec(width)));
    }
    if cursor.eat_sym_str(alloc, "struct")? {
        return Ok(None);
    }
    let ty = parse_model_named(cursor, alloc, place)?;
    cursor.expect_rparen(alloc)?;
    Ok(Some(ty))
}

/// The model that the word ahead stands for.
fn model_ahead(cursor: &Cursor) -> Option<ModelType>
    ensures { option_map type_model_of result ≡ model_ahead (left cursor.now) }
{
    match cursor.ahead() {
        Some(TokenRef::Symbol(text)) => match *text {
            "!" => Some(ModelType::Unspecified),
            "_" => Some(ModelType::Auto),
            "Bool" => Some(ModelType::Bool),
            "Int" => Some(ModelType::Int),
            "Unit" => Some(ModelType::Unit),
            _ => None,
        },
        _ => None,
    }
}

/// Parses a model that is a single word.
#[inline(never)]
fn parse_model_word(cursor: &mut Cursor, alloc: Global) -> Result<ModelType, Stop>
    ensures { ReadsOff type_model_of model_word cursor.old result cursor.new }
{
    let place = cursor.place();
    match model_ahead(cursor) {
        Some(ty) => {
            cursor.take(alloc)?;
            Ok(ty)
        }
        None => Err(cursor.refuse_at(
            place,
            String::from_str(
                alloc,
                "Model type be a Bool, Int, BitVector (bv ...) or Struct (struct ...)",
            ),
        )),
    }
}

/// Parses `named` and the name after it. The model's `(` is at `place`.
#[inline(never)]
fn parse_model_named(cursor: &mut Cursor, alloc: Global, place: Pos) -> Result<ModelType, Stop>
    requires { IsPlace (source cursor.old) place }
    ensures { ReadsOff type_model_of named_inside cursor.old result cursor.new }
{
    if cursor.eat_sym_str(alloc, "named")? {
        let name = cursor.parse_ident(alloc)?;
        return Ok(ModelType::Named(name));
    }
    Err(cursor.refuse_at(
        place,
        String::from_str(
            alloc,
            "Badly formed model: should be BitVector (bv ...) or Struct (struct ...)",
        ),
    ))
}

/// Parses the width in bits of a bit vector, if there is one. The model's `(` is at `place`.
#[inline(never)]
fn parse_width(cursor: &mut Cursor, alloc: Global, place: Pos) -> Result<Option<usize>, Stop>
    requires { IsPlace (source cursor.old) place }
    ensures { ReadsOff (λ n. n) width cursor.old result cursor.new }
{
    if cursor.is_rparen() {
        return Ok(None);
    }
    if !cursor.is_int() {
        return Err(cursor.refuse_at(
            place,
            String::from_str(alloc, "Badly formed BitVector (bv ...)"),
        ));
    }
    let width = cursor.expect_int(alloc)?;
    match usize::try_from(width) {
        Ok(width) => Ok(Some(width)),
        Err(error) => Err(cursor.refuse_at(
            place,
            format!(in alloc; "Invalid BitVector width: {error}"),
        )),
    }
}

/// Parses the fields of a struct, up to the closing parenthesis.
#[cycle(model_fields)]
#[inline(always)]
fn parse_model_fields(cursor: &mut Cursor, alloc: Global) -> Result<Vec<ModelField>, Stop>
    ensures { ReadsOff (λ fs. map field_of fs.items) (many at_rparen field) cursor.old result
        cursor.new }
{
    let mut fields = Vec::new(alloc);
    while !cursor.is_rparen() {
        append_model_field(cursor, alloc, &mut fields)?;
    }
    Ok(fields)
}

/// Parses a field, and appends it to these.
#[cycle(model_fields)]
#[inline(never)]
fn append_model_field(
    cursor: &mut Cursor,
    alloc: Global,
    fields: &mut Vec<ModelField>,
) -> Result<(), Stop>
    ensures same { source cursor.new ≡ source cursor.old }
    ensures gives { AppendsField result
        fields.old.items (left cursor.old) fields.new.items cursor.new }
{
    if begin_model_field(cursor, alloc, fields)? {
        let inner = parse_model_fields(cursor, alloc)?;
        return end_model_field(cursor, alloc, fields, inner);
    }
    Ok(())
}

/// Appends a field whose model is not a struct, or the start of one up to `(struct`. Returns which.
#[inline(never)]
#[tactic(auto, using(crate::proofs::StructParts::field_is), unfolding(crate::specs::StructParts::field_in_parts))]
fn begin_model_field(
    cursor: &mut Cursor,
    alloc: Global,
    fields: &mut Vec<ModelField>,
) -> Result<bool, Stop>
    ensures same { source cursor.new ≡ source cursor.old }
    ensures gives { BeginsField result
        fields.old.items (left cursor.old) fields.new.items cursor.new }
{
    cursor.expect_lparen(alloc)?;
    let name = cursor.parse_ident(alloc)?;
    match parse_model_front(cursor, alloc)? {
        Some(ty) => {
            push_model_field(fields, name, ty)?;
            cursor.expect_rparen(alloc)?;
            Ok(false)
        }
        None => {
            push_model_field(fields, name, ModelType::Unit)?;
            Ok(true)
        }
    }
}

#[inline(never)]
fn push_model_field(fields: &mut Vec<ModelField>, name: Ident, ty: ModelType) -> Result<(), Stop>
    ensures items { IfOk result (λ _. fields.new.items
        ≡ fields.old.items ++ field_with name ty ∷ []) }
    ensures memory { IfErr result (λ e. e ≡ Memory) }
{
    fields.push(ModelField { name, ty })?;
    Ok(())
}

/// Parses the end of a field whose model is a struct with these fields, and sets the model of the
/// last field of the list.
#[inline(never)]
fn end_model_field(
    cursor: &mut Cursor,
    alloc: Global,
    fields: &mut Vec<ModelField>,
    inner: Vec<ModelField>,
) -> Result<(), Stop>
    ensures reads { ReadsOff (λ _. rparen) both_closed cursor.old result cursor.new }
    ensures items { IfOk result (λ _.
        HasStruct fields.old.items fields.new.items inner.items) }
{
    cursor.expect_rparen(alloc)?;
    cursor.expect_rparen(alloc)?;
    set_last_model(fields, ModelType::Struct(inner))
}

/// Replaces the model of the last field.
fn set_last_model(fields: &mut Vec<ModelField>, ty: ModelType) -> Result<(), Stop>
    ensures items { IfOk result (λ _.
        HasModel fields.old.items fields.new.items ty) }
    ensures memory { IfErr result (λ e. e ≡ Memory) }
{
    if let Some(last) = fields.pop() {
        return push_model_field(fields, last.name, ty);
    }
    Ok(())
}

/// Parses models after this word, in parentheses.
pub fn parse_tagged_types(
    cursor: &mut Cursor,
    alloc: Global,
    tag: &str,
) -> Result<Vec<ModelType>, Stop>
    ensures { ReadsOff (λ tys. map type_model_of tys.items) (tagged_types tag.now) cursor.old
        result cursor.new }
{
    cursor.expect_lparen(alloc)?;
    let place = cursor.place();
    if !cursor.eat_sym_str(alloc, tag)? {
        return Err(cursor.refuse_at(
            place,
            format!(in alloc; "Invalid {tag}: expected ({tag} <arg> ...)"),
        ));
    }
    let params = parse_model_types(cursor, alloc)?;
    cursor.close(alloc, params)
}

/// Parses models, up to the closing parenthesis.
fn parse_model_types(cursor: &mut Cursor, alloc: Global) -> Result<Vec<ModelType>, Stop>
    ensures { ReadsOff (λ tys. map type_model_of tys.items) (many at_rparen model_type) cursor.old
        result cursor.new }
{
    let mut params = Vec::new(alloc);
    while !cursor.is_rparen() {
        params.push(parse_model_type(cursor, alloc)?)?;
    }
    Ok(params)
}

/// Parses a model after this word, in parentheses.
pub fn parse_tagged_type(cursor: &mut Cursor, alloc: Global, tag: &str) -> Result<ModelType, Stop>
    ensures { ReadsOff type_model_of (tagged_type tag.now) cursor.old result cursor.new }
{
    cursor.expect_lparen(alloc)?;
    let place = cursor.place();
    if !cursor.eat_sym_str(alloc, tag)? {
        return Err(cursor.refuse_at(
            place,
            format!(in alloc; "Invalid {tag}: expected ({tag} <arg>)"),
        ));
    }
    let ty = parse_model_type(cursor, alloc)?;
    cursor.close(alloc, ty)
}
