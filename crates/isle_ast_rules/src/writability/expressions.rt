//! The expressions that can be written as text and read back.

ghost use Rattle.std.specs.Prelude.{◌≡◌};
ghost use Rattle.isle_ast_rules.specs.TreeView.{expression_of, expression_list_of, expressions_of};
ghost use Rattle.isle_ast_rules.specs.TreeView.{let_list_of, single_let_of, single_lets_of};
ghost use Rattle.isle_ast_rules.specs.WritableDeciders.{are_writable_expressions};
ghost use Rattle.isle_ast_rules.specs.WritableDeciders.{are_writable_lets, is_writable_expression};
ghost use Rattle.isle_ast_rules.specs.WritableDeciders.{is_writable_single_let};

use crate::writability::names::is_expression_variable;
use crate::{Expr, LetDef};
use isle_ast_names::writability::{is_constant_name, is_name, is_whole_number};

/// Returns whether an expression is writable.
#[cycle(writable)]
pub(super) fn is_writable_expr(expr: &Expr) -> bool
    ensures { result ≡ is_writable_expression (expression_of expr.now) }
{
    match expr {
        Expr::Term { sym, args, .. } => {
            is_name(sym) && sym.0.as_str() != "let" && are_writable_exprs(args)
        }
        Expr::Var { name, .. } => is_expression_variable(name),
        Expr::ConstBool { .. } => true,
        Expr::ConstInt { val, .. } => is_whole_number(*val),
        Expr::ConstPrim { val, .. } => is_constant_name(val),
        Expr::Let { defs, body, .. } => are_writable_lets(defs) && is_writable_expr(body),
    }
}

#[cycle(writable)]
fn are_writable_exprs(exprs: &Vec<Expr>) -> bool
    ensures { result
        ≡ are_writable_expressions (expression_list_of (expressions_of exprs.now.items)) }
{
    for expr in exprs {
        if !is_writable_expr(expr) {
            return false;
        }
    }
    true
}

/// Returns whether each definition of a `let` is writable.
#[cycle(writable)]
fn are_writable_lets(defs: &Vec<LetDef>) -> bool
    ensures { result ≡ are_writable_lets (let_list_of (single_lets_of defs.now.items)) }
{
    for def in defs {
        if !is_writable_let(def) {
            return false;
        }
    }
    true
}

#[cycle(writable)]
fn is_writable_let(def: &LetDef) -> bool
    ensures { result ≡ is_writable_single_let (single_let_of def.now) }
{
    is_name(&def.var) && is_name(&def.ty) && is_writable_expr(&def.val)
}
