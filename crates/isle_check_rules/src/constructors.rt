//! Terms of expressions that have no constructor.

ghost use Rattle.std.specs.Prelude.{◌≡◌, ◌++◌, ◌∷◌, [], OnOk};
ghost use Rattle.std.specs.List.{filter};
ghost use Rattle.isle_ast_names.specs.TreeView.{name_of};
ghost use Rattle.isle_ast_rules.specs.TermHeads.{expression_heads, expression_list_heads};
ghost use Rattle.isle_ast_rules.specs.TermHeads.{let_list_heads};
ghost use Rattle.isle_ast_rules.specs.TreeView.{expression_list_of, expression_of};
ghost use Rattle.isle_ast_rules.specs.TreeView.{expressions_of, let_list_of, single_let_of};
ghost use Rattle.isle_ast_rules.specs.TreeView.{single_lets_of};
ghost use Rattle.isle_check_environment.specs.signatures.Views.{environment_of};
ghost use Rattle.isle_check_rules.specs.Constructors.{lacks_constructor};
ghost use Rattle.isle_check_rules.specs.Views.{heads_at};

use isle_ast_names::Ident;
use isle_ast_rules::{Expr, LetDef};
use isle_base::lexer::Pos;
use isle_check_environment::signatures::Environment;
use std::alloc::AllocError;

/// A term with its position.
pub type Head<'a> = (Pos, &'a Ident);

/// Adds the terms of an expression that have no constructor, in the order of the text: a term comes
/// before those of its arguments. Terms that are not known are left out.
#[cycle(expression)]
pub fn add_without_constructor<'a>(
    env: &Environment,
    expr: &'a Expr,
    found: &mut Vec<Head<'a>>,
) -> Result<(), AllocError>
    ensures { OnOk result (heads_at found.new.items ≡ heads_at found.old.items
        ++ filter (lacks_constructor (environment_of env.now))
        (expression_heads (expression_of expr.now))) }
{
    match expr {
        Expr::Term { sym, args, pos } => {
            add_head(env, *pos, sym, found)?;
            add_of_each(env, args, found)
        }
        Expr::Let { defs, body, .. } => {
            add_of_values(env, defs, found)?;
            add_without_constructor(env, body, found)
        }
        Expr::Var { .. }
        | Expr::ConstBool { .. }
        | Expr::ConstInt { .. }
        | Expr::ConstPrim { .. } => Ok(()),
    }
}

#[cycle(expression)]
fn add_of_each<'a>(
    env: &Environment,
    exprs: &'a Vec<Expr>,
    found: &mut Vec<Head<'a>>,
) -> Result<(), AllocError>
    ensures { OnOk result (heads_at found.new.items ≡ heads_at found.old.items
        ++ filter (lacks_constructor (environment_of env.now))
        (expression_list_heads (expression_list_of (expressions_of exprs.now.items)))) }
{
    for expr in exprs {
        add_without_constructor(env, expr, found)?;
    }
    Ok(())
}

#[cycle(expression)]
fn add_of_values<'a>(
    env: &Environment,
    defs: &'a Vec<LetDef>,
    found: &mut Vec<Head<'a>>,
) -> Result<(), AllocError>
    ensures { OnOk result (heads_at found.new.items ≡ heads_at found.old.items
        ++ filter (lacks_constructor (environment_of env.now))
        (let_list_heads (let_list_of (single_lets_of defs.now.items)))) }
{
    for def in defs {
        add_of_value(env, def, found)?;
    }
    Ok(())
}

#[cycle(expression)]
fn add_of_value<'a>(
    env: &Environment,
    def: &'a LetDef,
    found: &mut Vec<Head<'a>>,
) -> Result<(), AllocError>
    ensures { OnOk result (heads_at found.new.items ≡ heads_at found.old.items
        ++ filter (lacks_constructor (environment_of env.now))
        (expression_heads (single_let_of def.now).val)) }
{
    add_without_constructor(env, &def.val, found)
}

fn add_head<'a>(
    env: &Environment,
    pos: Pos,
    term: &'a Ident,
    found: &mut Vec<Head<'a>>,
) -> Result<(), AllocError>
    ensures { OnOk result (heads_at found.new.items ≡ heads_at found.old.items
        ++ filter (lacks_constructor (environment_of env.now)) ((pos, name_of term.now) ∷ [])) }
{
    let text = term.0.as_str();
    if env.term(text).is_some() && !env.has_constructor(text) {
        found.push((pos, term))?;
    }
    Ok(())
}
