//! Encodes models of types, specs and spec expressions.

ghost use Rattle.std.specs.Prelude.{◌≡◌, ◌<◌, ◌++◌, ◌∷◌, OnOk, map, string_bytes};
ghost use Rattle.isle_ast_names.specs.TreeView.{name_of, names_of};
ghost use Rattle.isle_ast_verification.specs.TreeView.{arm_list_of, field_init_list_of};
ghost use Rattle.isle_ast_verification.specs.TreeView.{model_list_of, modified_of};
ghost use Rattle.isle_ast_verification.specs.TreeView.{single_arm_of, single_arms_of};
ghost use Rattle.isle_ast_verification.specs.TreeView.{single_field_init_of, single_field_inits_of};
ghost use Rattle.isle_ast_verification.specs.TreeView.{single_model_field_of};
ghost use Rattle.isle_ast_verification.specs.TreeView.{single_model_fields_of};
ghost use Rattle.isle_ast_verification.specs.TreeView.{single_spec_lets_of};
ghost use Rattle.isle_ast_verification.specs.TreeView.{spec_definition_of, spec_let_list_of};
ghost use Rattle.isle_ast_verification.specs.TreeView.{spec_list_of, spec_macro_of, spec_of};
ghost use Rattle.isle_ast_verification.specs.TreeView.{specs_of, state_of, type_model_of};
ghost use Rattle.isle_encoding.specs.Names.{name, names, position};
ghost use Rattle.isle_encoding.specs.Numbers.{list, number, option};
ghost use Rattle.isle_encoding.specs.Operators.{operator};
ghost use Rattle.isle_encoding.specs.Verification.{arm_list, field_init_list, model_field_list};
ghost use Rattle.isle_encoding.specs.Verification.{modified, single_arm, single_field_init};
ghost use Rattle.isle_encoding.specs.Verification.{single_model_field, spec};
ghost use Rattle.isle_encoding.specs.Verification.{spec_definition, spec_let_list, spec_list};
ghost use Rattle.isle_encoding.specs.Verification.{spec_macro, state, type_model};

use crate::names::{put_name, put_names, put_optional_name, put_position};
use crate::nodes::{put_bool, put_int, put_named};
use crate::numbers::{put_byte, put_flag, put_large_number, put_number};
use isle_ast_names::Ident;
use isle_ast_verification::{
    Arm, FieldInit, ModelField, ModelType, Modifies, Spec, SpecExpr, SpecMacro, SpecOp, State,
};
use isle_base::lexer::Pos;
use std::alloc::AllocError;

pub fn put_spec(out: &mut String, kind: u8, value: &Spec) -> Result<(), AllocError>
    requires { kind < 128 }
    ensures { OnOk result (string_bytes out.new
        ≡ string_bytes out.old ++ (kind ∷ spec_definition (spec_definition_of value.now))) }
{
    put_byte(out, kind)?;
    put_name(out, &value.term)?;
    put_names(out, &value.args)?;
    put_clauses(out, &value.provides)?;
    put_clauses(out, &value.requires_)?;
    put_clauses(out, &value.matches)?;
    put_all_modified(out, &value.modifies)?;
    put_position(out, value.pos)
}

/// Appends the expressions of all clauses of one kind.
fn put_clauses(out: &mut String, values: &[SpecExpr]) -> Result<(), AllocError>
    ensures { OnOk result
        (string_bytes out.new ≡ string_bytes out.old ++ list spec (specs_of values.now)) }
{
    put_number(out, values.len())?;
    for value in values {
        put_spec_expr(out, value)?;
    }
    Ok(())
}

/// Appends the states that a term modifies.
fn put_all_modified(out: &mut String, values: &[Modifies]) -> Result<(), AllocError>
    ensures { OnOk result (string_bytes out.new
        ≡ string_bytes out.old ++ list modified (map modified_of values.now)) }
{
    put_number(out, values.len())?;
    for value in values {
        put_modified(out, value)?;
    }
    Ok(())
}

/// Appends a state that a term modifies.
fn put_modified(out: &mut String, value: &Modifies) -> Result<(), AllocError>
    ensures { OnOk result
        (string_bytes out.new ≡ string_bytes out.old ++ modified (modified_of value.now)) }
{
    put_name(out, &value.state)?;
    put_optional_name(out, &value.cond)
}

pub fn put_spec_macro(out: &mut String, kind: u8, value: &SpecMacro) -> Result<(), AllocError>
    requires { kind < 128 }
    ensures { OnOk result (string_bytes out.new
        ≡ string_bytes out.old ++ (kind ∷ spec_macro (spec_macro_of value.now))) }
{
    put_byte(out, kind)?;
    put_name(out, &value.name)?;
    put_names(out, &value.params)?;
    put_spec_expr(out, &value.body)?;
    put_position(out, value.pos)
}

pub fn put_state(out: &mut String, kind: u8, value: &State) -> Result<(), AllocError>
    requires { kind < 128 }
    ensures { OnOk result (string_bytes out.new
        ≡ string_bytes out.old ++ (kind ∷ state (state_of value.now))) }
{
    put_byte(out, kind)?;
    put_name(out, &value.name)?;
    put_model_type(out, &value.ty)?;
    put_spec_expr(out, &value.default)?;
    put_position(out, value.pos)
}

#[cycle(model)]
pub fn put_model_type(out: &mut String, value: &ModelType) -> Result<(), AllocError>
    ensures { OnOk result
        (string_bytes out.new ≡ string_bytes out.old ++ type_model (type_model_of value.now)) }
{
    match value {
        ModelType::Unspecified => put_byte(out, 0),
        ModelType::Auto => put_byte(out, 1),
        ModelType::Int => put_byte(out, 2),
        ModelType::Bool => put_byte(out, 3),
        ModelType::Unit => put_byte(out, 4),
        ModelType::BitVec(width) => {
            put_byte(out, 5)?;
            put_width(out, *width)
        }
        ModelType::Struct(fields) => {
            put_byte(out, 6)?;
            put_model_fields(out, fields)
        }
        ModelType::Named(name) => {
            put_byte(out, 7)?;
            put_name(out, name)
        }
    }
}

/// Appends a width in bits, or the mark that there is none.
fn put_width(out: &mut String, value: Option<usize>) -> Result<(), AllocError>
    ensures { OnOk result (string_bytes out.new ≡ string_bytes out.old ++ option number value) }
{
    put_flag(out, value.is_some())?;
    match value {
        Some(value) => put_number(out, value),
        None => Ok(()),
    }
}

#[cycle(model)]
fn put_model_fields(out: &mut String, values: &Vec<ModelField>) -> Result<(), AllocError>
    ensures { OnOk result (string_bytes out.new ≡ string_bytes out.old
        ++ model_field_list (model_list_of (single_model_fields_of values.now.items))) }
{
    put_number(out, values.len())?;
    for value in values {
        put_model_field(out, value)?;
    }
    Ok(())
}

#[cycle(model)]
fn put_model_field(out: &mut String, value: &ModelField) -> Result<(), AllocError>
    ensures { OnOk result (string_bytes out.new
        ≡ string_bytes out.old ++ single_model_field (single_model_field_of value.now)) }
{
    put_name(out, &value.name)?;
    put_model_type(out, &value.ty)
}

#[cycle(spec)]
#[tactic(auto, using(crate::proofs::Starts::puts))]
pub fn put_spec_expr(out: &mut String, value: &SpecExpr) -> Result<(), AllocError>
    ensures { OnOk result
        (string_bytes out.new ≡ string_bytes out.old ++ spec (spec_of value.now)) }
{
    match value {
        SpecExpr::ConstInt { val, pos } => put_int(out, 0, *val, *pos),
        SpecExpr::ConstBitVec { val, width, pos } => put_bit_vector(out, 1, *val, *width, *pos),
        SpecExpr::ConstBool { val, pos } => put_bool(out, 2, *val, *pos),
        SpecExpr::Var { var, pos } => put_named(out, 3, var, *pos),
        SpecExpr::As { x, ty, pos } => put_as(out, 4, x, ty, *pos),
        SpecExpr::Field { field, x, pos } => put_about(out, 5, field, x, *pos),
        SpecExpr::Discriminator { variant, x, pos } => put_about(out, 6, variant, x, *pos),
        SpecExpr::Op { op, args, pos } => put_op(out, 7, *op, args, *pos),
        SpecExpr::Match { x, arms, pos } => {
            put_first(out, 8, x)?;
            put_arms(out, arms)?;
            put_position(out, *pos)
        }
        SpecExpr::Let { defs, body, pos } => {
            put_byte(out, 9)?;
            put_spec_lets(out, defs)?;
            put_last(out, body, *pos)
        }
        SpecExpr::With { decls, body, pos } => put_under(out, 10, decls, body, *pos),
        SpecExpr::Macro { params, body, pos } => put_under(out, 11, params, body, *pos),
        SpecExpr::Expand { name, args, pos } => put_expansion(out, 12, name, args, *pos),
        SpecExpr::Pair { l, r, pos } => {
            put_first(out, 13, l)?;
            put_last(out, r, *pos)
        }
        SpecExpr::Enum {
            name,
            variant,
            args,
            pos,
        } => put_variant(out, 14, name, variant, args, *pos),
        SpecExpr::Struct { fields, pos } => put_struct(out, 15, fields, *pos),
    }
}

/// Appends a kind, then a spec expression.
#[cycle(spec)]
fn put_first(out: &mut String, kind: u8, x: &SpecExpr) -> Result<(), AllocError>
    requires { kind < 128 }
    ensures { OnOk result
        (string_bytes out.new ≡ string_bytes out.old ++ (kind ∷ spec (spec_of x.now))) }
{
    put_byte(out, kind)?;
    put_spec_expr(out, x)
}

/// Appends a spec expression, then a position.
#[cycle(spec)]
fn put_last(out: &mut String, x: &SpecExpr, pos: Pos) -> Result<(), AllocError>
    ensures { OnOk result
        (string_bytes out.new ≡ string_bytes out.old ++ (spec (spec_of x.now) ++ position pos)) }
{
    put_spec_expr(out, x)?;
    put_position(out, pos)
}

fn put_bit_vector(
    out: &mut String,
    kind: u8,
    value: u128,
    width: usize,
    pos: Pos,
) -> Result<(), AllocError>
    requires { kind < 128 }
    ensures { OnOk result (string_bytes out.new ≡ string_bytes out.old
        ++ (kind ∷ number value ++ number width ++ position pos)) }
{
    put_byte(out, kind)?;
    put_large_number(out, value)?;
    put_number(out, width)?;
    put_position(out, pos)
}

/// Appends an expression with a model of its type.
#[cycle(spec)]
fn put_as(
    out: &mut String,
    kind: u8,
    x: &SpecExpr,
    ty: &ModelType,
    pos: Pos,
) -> Result<(), AllocError>
    requires { kind < 128 }
    ensures { OnOk result (string_bytes out.new ≡ string_bytes out.old
        ++ (kind ∷ spec (spec_of x.now) ++ type_model (type_model_of ty.now) ++ position pos)) }
{
    put_byte(out, kind)?;
    put_spec_expr(out, x)?;
    put_model_type(out, ty)?;
    put_position(out, pos)
}

/// Appends an expression after a name: a field of a struct, or a test of a variant.
#[cycle(spec)]
fn put_about(
    out: &mut String,
    kind: u8,
    name_of_it: &Ident,
    x: &SpecExpr,
    pos: Pos,
) -> Result<(), AllocError>
    requires { kind < 128 }
    ensures { OnOk result (string_bytes out.new ≡ string_bytes out.old
        ++ (kind ∷ name (name_of name_of_it.now) ++ spec (spec_of x.now) ++ position pos)) }
{
    put_byte(out, kind)?;
    put_name(out, name_of_it)?;
    put_spec_expr(out, x)?;
    put_position(out, pos)
}

#[cycle(spec)]
fn put_op(
    out: &mut String,
    kind: u8,
    op: SpecOp,
    args: &Vec<SpecExpr>,
    pos: Pos,
) -> Result<(), AllocError>
    requires { kind < 128 }
    ensures { OnOk result (string_bytes out.new ≡ string_bytes out.old
        ++ (kind ∷ operator op ++ spec_list (spec_list_of (specs_of args.now.items))
        ++ position pos)) }
{
    put_byte(out, kind)?;
    put_operator(out, op)?;
    put_spec_exprs(out, args)?;
    put_position(out, pos)
}

/// Appends an expression after declared names: a `with`, or a macro.
#[cycle(spec)]
fn put_under(
    out: &mut String,
    kind: u8,
    under: &Vec<Ident>,
    body: &SpecExpr,
    pos: Pos,
) -> Result<(), AllocError>
    requires { kind < 128 }
    ensures { OnOk result (string_bytes out.new ≡ string_bytes out.old
        ++ (kind ∷ names (names_of under.now.items) ++ spec (spec_of body.now) ++ position pos)) }
{
    put_byte(out, kind)?;
    put_names(out, under)?;
    put_spec_expr(out, body)?;
    put_position(out, pos)
}

/// Appends the expansion of a macro.
#[cycle(spec)]
fn put_expansion(
    out: &mut String,
    kind: u8,
    macro_name: &Ident,
    args: &Vec<SpecExpr>,
    pos: Pos,
) -> Result<(), AllocError>
    requires { kind < 128 }
    ensures { OnOk result (string_bytes out.new ≡ string_bytes out.old
        ++ (kind ∷ name (name_of macro_name.now)
        ++ spec_list (spec_list_of (specs_of args.now.items))
        ++ position pos)) }
{
    put_byte(out, kind)?;
    put_name(out, macro_name)?;
    put_spec_exprs(out, args)?;
    put_position(out, pos)
}

/// Appends a variant of an enum.
#[cycle(spec)]
fn put_variant(
    out: &mut String,
    kind: u8,
    enum_name: &Ident,
    variant: &Ident,
    args: &Vec<SpecExpr>,
    pos: Pos,
) -> Result<(), AllocError>
    requires { kind < 128 }
    ensures { OnOk result (string_bytes out.new ≡ string_bytes out.old
        ++ (kind ∷ name (name_of enum_name.now) ++ name (name_of variant.now)
        ++ spec_list (spec_list_of (specs_of args.now.items))
        ++ position pos)) }
{
    put_byte(out, kind)?;
    put_name(out, enum_name)?;
    put_name(out, variant)?;
    put_spec_exprs(out, args)?;
    put_position(out, pos)
}

#[cycle(spec)]
fn put_struct(
    out: &mut String,
    kind: u8,
    fields: &Vec<FieldInit>,
    pos: Pos,
) -> Result<(), AllocError>
    requires { kind < 128 }
    ensures { OnOk result (string_bytes out.new ≡ string_bytes out.old
        ++ (kind ∷ field_init_list (field_init_list_of (single_field_inits_of fields.now.items))
        ++ position pos)) }
{
    put_byte(out, kind)?;
    put_field_inits(out, fields)?;
    put_position(out, pos)
}

fn put_operator(out: &mut String, value: SpecOp) -> Result<(), AllocError>
    ensures { OnOk result (string_bytes out.new ≡ string_bytes out.old ++ operator value) }
{
    put_byte(out, value as u8)
}

#[cycle(spec)]
fn put_spec_exprs(out: &mut String, values: &Vec<SpecExpr>) -> Result<(), AllocError>
    ensures { OnOk result (string_bytes out.new
        ≡ string_bytes out.old ++ spec_list (spec_list_of (specs_of values.now.items))) }
{
    put_number(out, values.len())?;
    for value in values {
        put_spec_expr(out, value)?;
    }
    Ok(())
}

#[cycle(spec)]
fn put_arms(out: &mut String, values: &Vec<Arm>) -> Result<(), AllocError>
    ensures { OnOk result (string_bytes out.new
        ≡ string_bytes out.old ++ arm_list (arm_list_of (single_arms_of values.now.items))) }
{
    put_number(out, values.len())?;
    for value in values {
        put_arm(out, value)?;
    }
    Ok(())
}

#[cycle(spec)]
fn put_arm(out: &mut String, value: &Arm) -> Result<(), AllocError>
    ensures { OnOk result
        (string_bytes out.new ≡ string_bytes out.old ++ single_arm (single_arm_of value.now)) }
{
    put_name(out, &value.variant)?;
    put_names(out, &value.args)?;
    put_spec_expr(out, &value.body)?;
    put_position(out, value.pos)
}

#[cycle(spec)]
fn put_spec_lets(out: &mut String, values: &Vec<(Ident, SpecExpr)>) -> Result<(), AllocError>
    ensures { OnOk result (string_bytes out.new ≡ string_bytes out.old
        ++ spec_let_list (spec_let_list_of (single_spec_lets_of values.now.items))) }
{
    put_number(out, values.len())?;
    for value in values {
        put_name(out, &value.0)?;
        put_spec_expr(out, &value.1)?;
    }
    Ok(())
}

#[cycle(spec)]
fn put_field_inits(out: &mut String, values: &Vec<FieldInit>) -> Result<(), AllocError>
    ensures { OnOk result (string_bytes out.new ≡ string_bytes out.old
        ++ field_init_list (field_init_list_of (single_field_inits_of values.now.items))) }
{
    put_number(out, values.len())?;
    for value in values {
        put_field_init(out, value)?;
    }
    Ok(())
}

#[cycle(spec)]
fn put_field_init(out: &mut String, value: &FieldInit) -> Result<(), AllocError>
    ensures { OnOk result (string_bytes out.new
        ≡ string_bytes out.old ++ single_field_init (single_field_init_of value.now)) }
{
    put_name(out, &value.name)?;
    put_spec_expr(out, &value.value)?;
    put_position(out, value.pos)
}
