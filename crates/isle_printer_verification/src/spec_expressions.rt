//! The S-expressions of spec expressions and of the arms and fields in them. Each function prepends
//! to the tape.

ghost use Rattle.std.specs.Prelude.{◌≡◌, ◌++◌, [], ◌∷◌, codes, OnOk};
ghost use Rattle.isle_ast_verification.specs.TreeView.{arm_list_of, field_init_list_of};
ghost use Rattle.isle_ast_verification.specs.TreeView.{single_arm_of};
ghost use Rattle.isle_ast_verification.specs.TreeView.{single_arms_of, single_field_init_of};
ghost use Rattle.isle_ast_verification.specs.TreeView.{single_field_inits_of, single_spec_lets_of};
ghost use Rattle.isle_ast_verification.specs.TreeView.{spec_let_list_of, spec_of, spec_list_of};
ghost use Rattle.isle_ast_verification.specs.TreeView.{specs_of};
ghost use Rattle.isle_ast_verification.specs.TreeView.{type_model_of};
ghost use Rattle.isle_ast_verification.specs.SpecGrammar.{dotted, expansion_mark};
ghost use Rattle.isle_ast_names.specs.TreeView.{name_of, names_of};
ghost use Rattle.isle_printer_layout.specs.Sexp.{atom, list_of};
ghost use Rattle.isle_printer_layout.specs.NameShapes.{form_shape, integer_shape, names_shape};
ghost use Rattle.isle_printer_layout.specs.Pieces.{put_before};
ghost use Rattle.isle_printer_verification.specs.SpecShapes.{arm_shape, arm_shapes};
ghost use Rattle.isle_printer_verification.specs.SpecShapes.{bit_vector_text};
ghost use Rattle.isle_printer_verification.specs.SpecShapes.{field_init_shape, field_init_shapes};
ghost use Rattle.isle_printer_verification.specs.SpecShapes.{model_shape, operator_shape};
ghost use Rattle.isle_printer_verification.specs.SpecShapes.{spec_let_shapes};
ghost use Rattle.isle_printer_verification.specs.SpecShapes.{spec_shape, spec_shapes};

use super::bit_vectors::bit_vector;
use super::models::model_type;
use super::operators::operator;
use isle_ast_names::Ident;
use isle_ast_verification::{Arm, FieldInit, ModelType, SpecExpr, SpecOp};
use isle_printer_layout::Tape;
use isle_printer_layout::names::{boolean, headed_names, integer, joined, name, names};
use std::alloc::AllocError;

/// Prepends a spec expression.
///
/// The frames of this function, and of the one that it calls for a node, limit the depth of
/// nesting. So most kinds of nodes have functions of their own, whose results are returned
/// unchanged.
#[cycle(specs)]
pub fn spec<'src>(node: &'src SpecExpr, tape: &mut Tape<'src>) -> Result<(), AllocError>
    ensures { OnOk result (tape.new ≡ put_before (spec_shape (spec_of node.now) ∷ []) tape.old) }
{
    match node {
        SpecExpr::ConstInt { val, .. } => spec_integer(*val, tape),
        SpecExpr::ConstBitVec { val, width, .. } => spec_bit_vector(*val, *width, tape),
        SpecExpr::ConstBool { val, .. } => boolean(*val, tape),
        SpecExpr::Var { var, .. } => name(var, tape),
        SpecExpr::As { x, ty, .. } => spec_as(x, ty, tape),
        SpecExpr::Field { field, x, .. } => marked_spec(x, ":", &field.0, tape),
        SpecExpr::Discriminator { variant, x, .. } => marked_spec(x, &variant.0, "?", tape),
        SpecExpr::Op { op, args, .. } => operation(args, op, tape),
        SpecExpr::Match { x, arms, .. } => {
            let outer = tape.close()?;
            each_arm(arms, tape)?;
            spec(x, tape)?;
            tape.atom("match")?;
            tape.open(outer)
        }
        SpecExpr::Let { defs, body, .. } => {
            let outer = tape.close()?;
            spec(body, tape)?;
            spec_lets(defs, tape)?;
            tape.atom("let")?;
            tape.open(outer)
        }
        SpecExpr::With { decls, body, .. } => body_after(body, "with", decls, tape),
        SpecExpr::Macro { params, body, .. } => body_after(body, "macro", params, tape),
        SpecExpr::Expand { name, args, .. } => expansion(args, name, tape),
        SpecExpr::Pair { l, r, .. } => {
            let outer = tape.close()?;
            spec(r, tape)?;
            spec(l, tape)?;
            tape.open(outer)
        }
        SpecExpr::Enum {
            name,
            variant,
            args,
            ..
        } => enum_value(args, name, variant, tape),
        SpecExpr::Struct { fields, .. } => field_inits(fields, tape),
    }
}

/// Prepends an integer, outside of the frame of `spec`.
#[inline(never)]
fn spec_integer(val: i128, tape: &mut Tape) -> Result<(), AllocError>
    ensures { OnOk result (tape.new ≡ put_before (integer_shape val ∷ []) tape.old) }
{
    integer(val, tape)
}

/// Prepends a bit vector, outside of the frame of `spec`.
#[inline(never)]
fn spec_bit_vector(val: u128, width: usize, tape: &mut Tape) -> Result<(), AllocError>
    ensures { OnOk result
        (tape.new ≡ put_before (atom (bit_vector_text val width) ∷ []) tape.old) }
{
    bit_vector(val, width, tape)
}

/// Prepends the list of `as`, a spec expression and a model.
#[cycle(specs)]
#[inline(never)]
fn spec_as<'src>(
    x: &'src SpecExpr,
    ty: &'src ModelType,
    tape: &mut Tape<'src>,
) -> Result<(), AllocError>
    ensures { OnOk result (tape.new
        ≡ put_before
        (form_shape (codes "as")
        (spec_shape (spec_of x.now) ∷ model_shape (type_model_of ty.now) ∷ []) ∷ [])
        tape.old) }
{
    let outer = tape.close()?;
    model_type(ty, tape)?;
    spec(x, tape)?;
    tape.atom("as")?;
    tape.open(outer)
}

/// Prepends the list of a word, made of two texts, and a spec expression.
#[cycle(specs)]
#[inline(never)]
fn marked_spec<'src>(
    x: &'src SpecExpr,
    front: &str,
    back: &str,
    tape: &mut Tape<'src>,
) -> Result<(), AllocError>
    ensures { OnOk result (tape.new
        ≡ put_before
        (form_shape (front.now ++ back.now) (spec_shape (spec_of x.now) ∷ []) ∷ [])
        tape.old) }
{
    let outer = tape.close()?;
    spec(x, tape)?;
    joined(front, back, tape)?;
    tape.open(outer)
}

/// Prepends the list of an operator and spec expressions.
#[cycle(specs)]
#[inline(never)]
fn operation<'src>(
    args: &'src [SpecExpr],
    op: &'src SpecOp,
    tape: &mut Tape<'src>,
) -> Result<(), AllocError>
    ensures { OnOk result (tape.new
        ≡ put_before
        (list_of (operator_shape op.now ∷ spec_shapes (spec_list_of (specs_of args.now))) ∷ [])
        tape.old) }
{
    let outer = tape.close()?;
    each_spec(args, tape)?;
    operator(op, tape)?;
    tape.open(outer)
}

/// Prepends the list of a word, names and a spec expression.
#[cycle(specs)]
#[inline(never)]
fn body_after<'src>(
    body: &'src SpecExpr,
    word: &'src str,
    idents: &'src [Ident],
    tape: &mut Tape<'src>,
) -> Result<(), AllocError>
    ensures { OnOk result (tape.new
        ≡ put_before
        (form_shape word.now
        (names_shape (names_of idents.now) ∷ spec_shape (spec_of body.now) ∷ []) ∷ [])
        tape.old) }
{
    let outer = tape.close()?;
    spec(body, tape)?;
    names(idents, tape)?;
    tape.atom(word)?;
    tape.open(outer)
}

/// Prepends the list of a macro's name with its `!`, and spec expressions.
#[cycle(specs)]
#[inline(never)]
fn expansion<'src>(
    args: &'src [SpecExpr],
    name: &Ident,
    tape: &mut Tape<'src>,
) -> Result<(), AllocError>
    ensures { OnOk result (tape.new
        ≡ put_before
        (form_shape (expansion_mark (name_of name.now).text)
        (spec_shapes (spec_list_of (specs_of args.now))) ∷ [])
        tape.old) }
{
    let outer = tape.close()?;
    each_spec(args, tape)?;
    joined(&name.0, "!", tape)?;
    tape.open(outer)
}

/// Prepends the list of an enum with its variant, and spec expressions.
#[cycle(specs)]
#[inline(never)]
fn enum_value<'src>(
    args: &'src [SpecExpr],
    name: &Ident,
    variant: &Ident,
    tape: &mut Tape<'src>,
) -> Result<(), AllocError>
    ensures { OnOk result (tape.new
        ≡ put_before
        (form_shape (dotted (name_of name.now) (name_of variant.now))
        (spec_shapes (spec_list_of (specs_of args.now))) ∷ [])
        tape.old) }
{
    let outer = tape.close()?;
    each_spec(args, tape)?;
    dotted(name, variant, tape)?;
    tape.open(outer)
}

/// Prepends spec expressions.
#[cycle(specs)]
#[inline(never)]
pub(crate) fn each_spec<'src>(
    nodes: &'src [SpecExpr],
    tape: &mut Tape<'src>,
) -> Result<(), AllocError>
    ensures { OnOk result (tape.new
        ≡ put_before (spec_shapes (spec_list_of (specs_of nodes.now))) tape.old) }
{
    for at in (0..nodes.len()).rev() {
        spec(&nodes[at], tape)?;
    }
    Ok(())
}

/// Prepends the arms of a `match`.
#[cycle(specs)]
#[inline(never)]
fn each_arm<'src>(nodes: &'src [Arm], tape: &mut Tape<'src>) -> Result<(), AllocError>
    ensures { OnOk result (tape.new
        ≡ put_before (arm_shapes (arm_list_of (single_arms_of nodes.now))) tape.old) }
{
    for at in (0..nodes.len()).rev() {
        arm(&nodes[at], tape)?;
    }
    Ok(())
}

/// Prepends an arm of a `match`.
#[cycle(specs)]
pub fn arm<'src>(node: &'src Arm, tape: &mut Tape<'src>) -> Result<(), AllocError>
    ensures { OnOk result
        (tape.new ≡ put_before (arm_shape (single_arm_of node.now) ∷ []) tape.old) }
{
    let outer = tape.close()?;
    spec(&node.body, tape)?;
    headed_names(&node.variant, &node.args, tape)?;
    tape.open(outer)
}

/// Prepends the list of the definitions of a `let`.
#[cycle(specs)]
#[inline(never)]
fn spec_lets<'src>(
    nodes: &'src [(Ident, SpecExpr)],
    tape: &mut Tape<'src>,
) -> Result<(), AllocError>
    ensures { OnOk result (tape.new
        ≡ put_before
        (list_of (spec_let_shapes (spec_let_list_of (single_spec_lets_of nodes.now))) ∷ [])
        tape.old) }
{
    let outer = tape.close()?;
    for at in (0..nodes.len()).rev() {
        let node = &nodes[at];
        let inner = tape.close()?;
        spec(&node.1, tape)?;
        name(&node.0, tape)?;
        tape.open(inner)?;
    }
    tape.open(outer)
}

/// Prepends a `struct`.
#[cycle(specs)]
#[inline(never)]
fn field_inits<'src>(nodes: &'src [FieldInit], tape: &mut Tape<'src>) -> Result<(), AllocError>
    ensures { OnOk result (tape.new
        ≡ put_before
        (form_shape (codes "struct")
        (field_init_shapes (field_init_list_of (single_field_inits_of nodes.now))) ∷ [])
        tape.old) }
{
    let outer = tape.close()?;
    for at in (0..nodes.len()).rev() {
        field_init(&nodes[at], tape)?;
    }
    tape.atom("struct")?;
    tape.open(outer)
}

/// Prepends a field of a struct with its value.
#[cycle(specs)]
pub fn field_init<'src>(node: &'src FieldInit, tape: &mut Tape<'src>) -> Result<(), AllocError>
    ensures { OnOk result (tape.new
        ≡ put_before (field_init_shape (single_field_init_of node.now) ∷ []) tape.old) }
{
    let outer = tape.close()?;
    spec(&node.value, tape)?;
    name(&node.name, tape)?;
    tape.open(outer)
}

/// Prepends an atom of an enum and its variant, with a dot between them.
fn dotted(name: &Ident, variant: &Ident, tape: &mut Tape) -> Result<(), AllocError>
    ensures { OnOk result (tape.new
        ≡ put_before (atom (dotted (name_of name.now) (name_of variant.now)) ∷ []) tape.old) }
{
    let mut text = String::from_str(tape.alloc(), &name.0)?;
    text.push('.')?;
    text.push_str(&variant.0)?;
    tape.owned(text)
}
