//! The variables of expressions: which are used, unused or shadowed.

ghost use Rattle.std.specs.Prelude.{◌≡◌, ◌++◌, OnOk};
ghost use Rattle.isle_ast_rules.specs.TreeView.{expression_of, expression_list_of, expressions_of};
ghost use Rattle.isle_ast_rules.specs.TreeView.{let_list_of, single_lets_of};
ghost use Rattle.isle_lint_core.specs.Names.{names_at};
ghost use Rattle.isle_lint_core.specs.Shadowed.{let_names, let_shadowed, list_shadowed, shadowed};
ghost use Rattle.isle_lint_core.specs.Unused.{let_unused, list_unused, unused};
ghost use Rattle.isle_lint_core.specs.Uses.{let_uses, list_uses, uses};

use crate::names::{add_if, has};
use isle_ast::ast::{Expr, Ident, LetDef};
use std::alloc::AllocError;

/// Returns whether an expression uses the variable of this name that is bound around it.
#[cycle(uses)]
pub fn uses(expr: &Expr, name: &str) -> bool
    ensures { result ≡ uses (expression_of expr.now) name.now }
{
    match expr {
        Expr::Term { args, .. } => list_uses(args, name),
        Expr::Var { name: var, .. } => var.0.as_str() == name,
        Expr::Let { defs, body, .. } => {
            let body = uses(body, name);
            let_uses(defs, name, body)
        }
        Expr::ConstBool { .. } | Expr::ConstInt { .. } | Expr::ConstPrim { .. } => false,
    }
}

#[cycle(uses)]
fn list_uses(exprs: &Vec<Expr>, name: &str) -> bool
    ensures { result
        ≡ list_uses (expression_list_of (expressions_of exprs.now.items)) name.now }
{
    for expr in exprs {
        if uses(expr, name) {
            return true;
        }
    }
    false
}

/// Returns whether a `let` uses a variable. `body` says whether its body does.
#[cycle(uses)]
fn let_uses(defs: &[LetDef], name: &str, body: bool) -> bool
    ensures { result ≡ let_uses (let_list_of (single_lets_of defs.now)) name.now body }
{
    for def in defs {
        if uses(&def.val, name) {
            return true;
        }
        if def.var.0.as_str() == name {
            return false;
        }
    }
    body
}

/// Adds the variables that a `let` in the expression binds and nothing uses.
#[cycle(unused)]
pub fn add_unused<'a>(expr: &'a Expr, found: &mut Vec<&'a Ident>) -> Result<(), AllocError>
    ensures { OnOk result (names_at found.new.items
        ≡ names_at found.old.items ++ unused (expression_of expr.now)) }
{
    match expr {
        Expr::Term { args, .. } => add_list_unused(args, found),
        Expr::Let { defs, body, .. } => {
            add_let_unused(defs, body, found)?;
            add_unused(body, found)
        }
        Expr::Var { .. }
        | Expr::ConstBool { .. }
        | Expr::ConstInt { .. }
        | Expr::ConstPrim { .. } => Ok(()),
    }
}

#[cycle(unused)]
fn add_list_unused<'a>(exprs: &'a Vec<Expr>, found: &mut Vec<&'a Ident>) -> Result<(), AllocError>
    ensures { OnOk result (names_at found.new.items
        ≡ names_at found.old.items
        ++ list_unused (expression_list_of (expressions_of exprs.now.items))) }
{
    for expr in exprs {
        add_unused(expr, found)?;
    }
    Ok(())
}

/// Adds the variables of a `let` that nothing uses, and those of each `let` in its values.
#[cycle(unused)]
fn add_let_unused<'a>(
    defs: &'a Vec<LetDef>,
    body: &Expr,
    found: &mut Vec<&'a Ident>,
) -> Result<(), AllocError>
    ensures { OnOk result (names_at found.new.items ≡ names_at found.old.items
        ++ let_unused (let_list_of (single_lets_of defs.now.items))
        (uses (expression_of body.now))) }
{
    for (i, def) in defs.iter().enumerate() {
        let name = def.var.0.as_str();
        let is_used = let_uses(&defs[i + 1..], name, uses(body, name));
        add_if(!is_used, &def.var, found)?;
        add_unused(&def.val, found)?;
    }
    Ok(())
}

/// Adds the variables that a `let` in the expression binds although they are bound already. The
/// names `bound` are bound around it.
#[cycle(shadowed)]
pub fn add_shadowed<'a>(
    expr: &'a Expr,
    bound: &mut Vec<&'a Ident>,
    found: &mut Vec<&'a Ident>,
) -> Result<(), AllocError>
    ensures added { OnOk result (names_at found.new.items
        ≡ names_at found.old.items
        ++ shadowed (expression_of expr.now) (names_at bound.old.items)) }
    ensures bound { OnOk result (names_at bound.new.items ≡ names_at bound.old.items) }
{
    match expr {
        Expr::Term { args, .. } => add_list_shadowed(args, bound, found)?,
        Expr::Let { defs, body, .. } => {
            let around = bound.len();
            add_let_shadowed(defs, bound, found)?;
            add_shadowed(body, bound, found)?;
            bound.truncate(around);
        }
        Expr::Var { .. }
        | Expr::ConstBool { .. }
        | Expr::ConstInt { .. }
        | Expr::ConstPrim { .. } => {}
    }
    Ok(())
}

#[cycle(shadowed)]
fn add_list_shadowed<'a>(
    exprs: &'a Vec<Expr>,
    bound: &mut Vec<&'a Ident>,
    found: &mut Vec<&'a Ident>,
) -> Result<(), AllocError>
    ensures added { OnOk result (names_at found.new.items ≡ names_at found.old.items
        ++ list_shadowed (expression_list_of (expressions_of exprs.now.items))
        (names_at bound.old.items)) }
    ensures bound { OnOk result (names_at bound.new.items ≡ names_at bound.old.items) }
{
    for expr in exprs {
        add_shadowed(expr, bound, found)?;
    }
    Ok(())
}

/// Adds the variables of a `let` that are bound already, and those of each `let` in its values.
/// Adds its own to `bound`.
#[cycle(shadowed)]
fn add_let_shadowed<'a>(
    defs: &'a Vec<LetDef>,
    bound: &mut Vec<&'a Ident>,
    found: &mut Vec<&'a Ident>,
) -> Result<(), AllocError>
    ensures added { OnOk result (names_at found.new.items ≡ names_at found.old.items
        ++ let_shadowed (let_list_of (single_lets_of defs.now.items)) (names_at bound.old.items)) }
    ensures bound { OnOk result (names_at bound.new.items ≡ names_at bound.old.items
        ++ let_names (let_list_of (single_lets_of defs.now.items))) }
{
    for def in defs {
        add_shadowed(&def.val, bound, found)?;
        let is_bound = has(bound, def.var.0.as_str());
        add_if(is_bound, &def.var, found)?;
        bound.push(&def.var)?;
    }
    Ok(())
}
