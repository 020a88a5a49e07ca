//! The S-expressions of expressions and of the definitions of a `let`. Functions prepend to the
//! tape.

ghost use Rattle.std.specs.Prelude.{◌≡◌, [], ◌∷◌, OnOk};
ghost use Rattle.isle_ast_rules.specs.TreeView.{expression_list_of, expression_of, expressions_of};
ghost use Rattle.isle_ast_rules.specs.TreeView.{let_list_of, single_let_of, single_lets_of};
ghost use Rattle.isle_printer.specs.RuleShapes.{expression_shape, expression_shapes};
ghost use Rattle.isle_printer.specs.RuleShapes.{let_shape, let_shapes};
ghost use Rattle.isle_printer_layout.specs.Pieces.{put_before};

use super::to_sexpr::Put;
use isle_ast::ast::{Expr, LetDef};
use isle_printer_layout::Tape;
use isle_printer_layout::names::{boolean, constant, integer, name};
use std::alloc::AllocError;

impl Put for Expr {
    ghost shape = { λ x. expression_shape (expression_of x) };

    fn put<'src>(&'src self, tape: &mut Tape<'src>) -> Result<(), AllocError> {
        expression(self, tape)
    }
}

impl Put for LetDef {
    ghost shape = { λ d. let_shape (single_let_of d) };

    fn put<'src>(&'src self, tape: &mut Tape<'src>) -> Result<(), AllocError> {
        let_definition(self, tape)
    }
}

/// Prepends an expression.
#[cycle(expressions)]
pub(super) fn expression<'src>(node: &'src Expr, tape: &mut Tape<'src>) -> Result<(), AllocError>
    ensures { OnOk result
        (tape.new ≡ put_before (expression_shape (expression_of node.now) ∷ []) tape.old) }
{
    match node {
        Expr::Term { sym, args, pos: _ } => {
            let outer = tape.close()?;
            each_expression(args, tape)?;
            name(sym, tape)?;
            tape.open(outer)
        }
        Expr::Var { name: var, pos: _ } => name(var, tape),
        Expr::ConstBool { val, pos: _ } => boolean(*val, tape),
        Expr::ConstInt { val, pos: _ } => integer(*val, tape),
        Expr::ConstPrim { val, pos: _ } => constant(val, tape),
        Expr::Let { defs, body, pos: _ } => {
            let outer = tape.close()?;
            expression(body, tape)?;
            let inner = tape.close()?;
            each_let_definition(defs, tape)?;
            tape.open(inner)?;
            tape.atom("let")?;
            tape.open(outer)
        }
    }
}

/// Prepends expressions.
#[cycle(expressions)]
fn each_expression<'src>(nodes: &'src Vec<Expr>, tape: &mut Tape<'src>) -> Result<(), AllocError>
    ensures { OnOk result (tape.new
        ≡ put_before (expression_shapes (expression_list_of (expressions_of nodes.now.items)))
        tape.old) }
{
    for at in (0..nodes.len()).rev() {
        expression(&nodes[at], tape)?;
    }
    Ok(())
}

/// Prepends the definitions of a `let`.
#[cycle(expressions)]
fn each_let_definition<'src>(
    nodes: &'src Vec<LetDef>,
    tape: &mut Tape<'src>,
) -> Result<(), AllocError>
    ensures { OnOk result (tape.new
        ≡ put_before (let_shapes (let_list_of (single_lets_of nodes.now.items))) tape.old) }
{
    for at in (0..nodes.len()).rev() {
        let_definition(&nodes[at], tape)?;
    }
    Ok(())
}

/// Prepends a definition of a `let`.
#[cycle(expressions)]
fn let_definition<'src>(node: &'src LetDef, tape: &mut Tape<'src>) -> Result<(), AllocError>
    ensures { OnOk result
        (tape.new ≡ put_before (let_shape (single_let_of node.now) ∷ []) tape.old) }
{
    let outer = tape.close()?;
    expression(&node.val, tape)?;
    name(&node.ty, tape)?;
    name(&node.var, tape)?;
    tape.open(outer)
}
