//! Comparison of expressions.

ghost use Rattle.std.specs.Prelude.{◌≡◌, ◌&&◌};
ghost use Rattle.std.specs.Cmp.{partial_equiv_from_equiv};
ghost use Rattle.std.specs.Ordering.{on};
ghost use Rattle.isle_ast_rules.specs.SameExpression.{expressions_equiv, let_defs_equiv};
ghost use Rattle.isle_ast_rules.specs.SameExpression.{same_expression, same_expressions, same_lets};
ghost use Rattle.isle_ast_rules.specs.SameExpression.{same_single_let};
ghost use Rattle.isle_ast_rules.specs.TreeView.{expression_of, expression_list_of, expressions_of};
ghost use Rattle.isle_ast_rules.specs.TreeView.{let_list_of, single_let_of, single_lets_of};

use crate::{Expr, LetDef};

impl PartialEq for Expr {
    ghost eq = { on expression_of same_expression };

    ghost laws = { partial_equiv_from_equiv expressions_equiv };

    fn eq(&self, other: &Expr) -> bool {
        same_expr(self, other)
    }
}

impl Eq for Expr {
    ghost laws = { expressions_equiv };
}

impl PartialEq for LetDef {
    ghost eq = { on single_let_of same_single_let };

    ghost laws = { partial_equiv_from_equiv let_defs_equiv };

    fn eq(&self, other: &LetDef) -> bool {
        same_let(self, other)
    }
}

impl Eq for LetDef {
    ghost laws = { let_defs_equiv };
}

#[cycle(same)]
fn same_expr(a: &Expr, b: &Expr) -> bool
    ensures { result ≡ same_expression (expression_of a.now) (expression_of b.now) }
{
    match a {
        Expr::Term { sym, args, pos } => {
            matches!(b, Expr::Term { sym: other, args: others, pos: place }
                if sym == other && same_exprs(args, others) && pos == place)
        }
        Expr::Var { name, pos } => {
            matches!(b, Expr::Var { name: other, pos: place } if name == other && pos == place)
        }
        Expr::ConstBool { val, pos } => {
            matches!(b, Expr::ConstBool { val: other, pos: place } if val == other && pos == place)
        }
        Expr::ConstInt { val, pos } => {
            matches!(b, Expr::ConstInt { val: other, pos: place } if val == other && pos == place)
        }
        Expr::ConstPrim { val, pos } => {
            matches!(b, Expr::ConstPrim { val: other, pos: place } if val == other && pos == place)
        }
        Expr::Let { defs, body, pos } => {
            matches!(b, Expr::Let { defs: others, body: inner, pos: place }
                if same_let_defs(defs, others) && same_expr(body, inner) && pos == place)
        }
    }
}

#[cycle(same)]
fn same_exprs(exprs: &Vec<Expr>, others: &Vec<Expr>) -> bool
    ensures { result
        ≡ same_expressions (expression_list_of (expressions_of exprs.now.items))
        (expression_list_of (expressions_of others.now.items)) }
{
    if exprs.len() != others.len() {
        return false;
    }
    for i in 0..exprs.len() {
        if !same_expr(&exprs[i], &others[i]) {
            return false;
        }
    }
    true
}

#[cycle(same)]
fn same_let_defs(defs: &Vec<LetDef>, others: &Vec<LetDef>) -> bool
    ensures { result
        ≡ same_lets (let_list_of (single_lets_of defs.now.items))
        (let_list_of (single_lets_of others.now.items)) }
{
    if defs.len() != others.len() {
        return false;
    }
    for i in 0..defs.len() {
        if !same_let(&defs[i], &others[i]) {
            return false;
        }
    }
    true
}

#[cycle(same)]
fn same_let(def: &LetDef, other: &LetDef) -> bool
    ensures { result ≡ same_single_let (single_let_of def.now) (single_let_of other.now) }
{
    def.var == other.var
        && def.ty == other.ty
        && same_expr(&def.val, &other.val)
        && def.pos == other.pos
}
