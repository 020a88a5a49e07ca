//! The types of expressions.

ghost use Rattle.std.specs.Prelude.{[], map, string_bytes};
ghost use Rattle.isle_ast_names.specs.TreeView.{name_of};
ghost use Rattle.isle_ast_rules.specs.TreeView.{expression_list_of, expression_of};
ghost use Rattle.isle_ast_rules.specs.TreeView.{expressions_of, let_list_of, single_lets_of};
ghost use Rattle.isle_check_environment.specs.signatures.Views.{environment_of, term_of};
ghost use Rattle.isle_check_typing.specs.Progress.{find};
ghost use Rattle.isle_check_typing.specs.Views.{GivesTyping, GivesTypings, progress_of};
ghost use Rattle.isle_check_typing.specs.expressions.ExpressionTypes.{arguments_by, expression_at};
ghost use Rattle.isle_check_typing.specs.expressions.ExpressionTypes.{let_by, lets_by, own_by};
ghost use Rattle.isle_check_typing.specs.expressions.ExpressionTypes.{put_by};
ghost use Rattle.isle_check_typing.specs.expressions.ExpressionTypes.{step, term_as, term_by};
ghost use Rattle.isle_check_typing.specs.expressions.ExpressionTypes.{type_let};
ghost use Rattle.isle_check_typing.specs.expressions.ExpressionTypes.{other_than, variable_by};
ghost use Rattle.isle_check_typing.specs.expressions.TypedView.{typed_expression_of, typed_let_of};
ghost use Rattle.isle_check_typing.specs.expressions.Views.{parts_by, type_text};

use crate::expressions::flags::Flags;
use crate::expressions::leaves::{other_than, type_bool, type_constant, type_integer};
use crate::expressions::parts::{add_expression, add_let, close, define, own_converter, put};
use crate::expressions::tells::{
    tell_let_type, tell_term_type, tell_term_unknown, tell_variable_type, tell_variable_unknown,
};
use crate::expressions::typed::{TypedExpression, TypedLet};
use crate::expressions::uses::{check_use, converting};
use crate::names::{known_term, known_type};
use crate::{Progress, Refusal, find, hide_since};
use isle_ast_names::Ident;
use isle_ast_rules::{Expr, LetDef};
use isle_base::lexer::Pos;
use isle_check_environment::signatures::{Environment, Term};
use std::alloc::Global;
use std::slice;

/// What the parts of an expression are typed with.
#[derive(Clone, Copy)]
pub struct Typer<'e, 'a> {
    alloc: Global,
    /// As many expressions may lie in one another in each part.
    depth: usize,
    env: &'e Environment<'a>,
    flags: Flags,
}

/// Types an expression of the type `wanted`, or of any type if that is `None`. Tells its errors in
/// `progress`, and binds the variables of each `let`, which are hidden where it ends. Returns its
/// typed expression, if it has one.
///
/// `TooDeep` means that more than `depth` expressions lie in one another once conversions are
/// written out. `Memory` means out of memory. After both nothing is known of `progress`.
#[cycle(expression)]
pub fn type_expression<'e>(
    alloc: Global,
    depth: usize,
    env: &'e Environment,
    flags: Flags,
    expr: &Expr,
    wanted: Option<&'e str>,
    progress: &mut Progress<'e>,
) -> Result<Option<TypedExpression<'e>>, Refusal>
    ensures { GivesTyping typed_expression_of result progress.new
        (expression_at depth (environment_of env.now) flags (expression_of expr.now)
        (type_text wanted.entry) (progress_of progress.old)) }
{
    if depth == 0 {
        return Err(Refusal::TooDeep);
    }
    let typer = Typer {
        alloc,
        depth: depth - 1,
        env,
        flags,
    };
    type_step(typer, expr, wanted, progress)
}

#[cycle(expression)]
fn type_step<'e>(
    typer: Typer<'e, '_>,
    expr: &Expr,
    wanted: Option<&'e str>,
    progress: &mut Progress<'e>,
) -> Result<Option<TypedExpression<'e>>, Refusal>
    ensures { GivesTyping typed_expression_of result progress.new
        (step (parts_by typer.entry) (environment_of typer.entry.env.now) typer.entry.flags
        (expression_of expr.now) (type_text wanted.entry) (progress_of progress.old)) }
{
    match expr {
        Expr::Term { sym, args, pos } => {
            type_term(typer, expr, sym, args, *pos, wanted, progress)
        }
        Expr::Var { name, pos } => type_variable(typer, expr, name, *pos, wanted, progress),
        Expr::ConstBool { val, pos } => {
            Ok(Some(type_bool(typer.alloc, *val, *pos, wanted, progress)?))
        }
        Expr::ConstInt { val, pos } => Ok(type_integer(
            typer.alloc,
            typer.env,
            *val,
            *pos,
            wanted,
            progress,
        )?),
        Expr::ConstPrim { val, pos } => Ok(type_constant(
            typer.alloc,
            typer.env,
            val,
            *pos,
            wanted,
            progress,
        )?),
        Expr::Let { defs, body, pos } => type_let(typer, defs, body, *pos, wanted, progress),
    }
}

/// Types a part of an expression.
#[cycle(expression)]
fn type_part<'e>(
    typer: Typer<'e, '_>,
    expr: &Expr,
    wanted: Option<&'e str>,
    progress: &mut Progress<'e>,
) -> Result<Option<TypedExpression<'e>>, Refusal>
    ensures { GivesTyping typed_expression_of result progress.new
        (parts_by typer.entry (expression_of expr.now) (type_text wanted.entry)
        (progress_of progress.old)) }
{
    type_expression(
        typer.alloc,
        typer.depth,
        typer.env,
        typer.flags,
        expr,
        wanted,
        progress,
    )
}

/// Types an expression that is put into a converter. One that gives the wanted type needs no
/// conversion, so the expression isn't copied for it.
#[cycle(expression)]
fn type_put<'e>(
    typer: Typer<'e, '_>,
    converter: &String,
    expr: &Expr,
    pos: Pos,
    ty: &'e str,
    progress: &mut Progress<'e>,
) -> Result<Option<TypedExpression<'e>>, Refusal>
    ensures { GivesTyping typed_expression_of result progress.new
        (put_by (parts_by typer.entry) (string_bytes converter.now) (expression_of expr.now) pos
        ty.now (progress_of progress.old)) }
{
    match own_converter(typer.depth, typer.env, converter, ty) {
        None => type_copied(typer, converter, expr, pos, ty, progress),
        Some((name, term)) => {
            let deeper = Typer {
                alloc: typer.alloc,
                depth: typer.depth - 1,
                env: typer.env,
                flags: typer.flags,
            };
            type_own(deeper, term, name, slice::from_ref(expr), pos, progress)
        }
    }
}

/// Types the term of a converter with a copy of an expression.
#[cycle(expression)]
fn type_copied<'e>(
    typer: Typer<'e, '_>,
    converter: &String,
    expr: &Expr,
    pos: Pos,
    ty: &'e str,
    progress: &mut Progress<'e>,
) -> Result<Option<TypedExpression<'e>>, Refusal>
    ensures { GivesTyping typed_expression_of result progress.new
        (put_by (parts_by typer.entry) (string_bytes converter.now) (expression_of expr.now) pos
        ty.now (progress_of progress.old)) }
{
    let put = put(typer.alloc, converter, expr, pos)?;
    type_part(typer, &put, Some(ty), progress)
}

/// Types a variable.
#[cycle(expression)]
fn type_variable<'e>(
    typer: Typer<'e, '_>,
    expr: &Expr,
    name: &Ident,
    pos: Pos,
    wanted: Option<&'e str>,
    progress: &mut Progress<'e>,
) -> Result<Option<TypedExpression<'e>>, Refusal>
    ensures { GivesTyping typed_expression_of result progress.new
        (variable_by (parts_by typer.entry) (environment_of typer.entry.env.now)
        (find (progress_of progress.old).bound (name_of name.now).text) (expression_of expr.now)
        (name_of name.now).text pos (type_text wanted.entry) (progress_of progress.old)) }
{
    let Some(found) = find(&progress.bound, name.0.as_str()) else {
        tell_variable_unknown(name, pos, progress)?;
        return Ok(None);
    };
    if let Some(ty) = other_than(found.ty, wanted) {
        if let Some(converter) = converting(typer.env, found.ty, ty) {
            return type_put(typer, converter, expr, pos, ty, progress);
        }
        tell_variable_type(typer.alloc, name, ty, found.ty, pos, progress)?;
    }
    Ok(Some(TypedExpression::Var {
        variable: found.number,
        ty: found.ty,
    }))
}

/// Types a term with arguments.
#[cycle(expression)]
fn type_term<'e>(
    typer: Typer<'e, '_>,
    expr: &Expr,
    sym: &Ident,
    args: &[Expr],
    pos: Pos,
    wanted: Option<&'e str>,
    progress: &mut Progress<'e>,
) -> Result<Option<TypedExpression<'e>>, Refusal>
    ensures { GivesTyping typed_expression_of result progress.new
        (term_by (parts_by typer.entry) (environment_of typer.entry.env.now) typer.entry.flags
        ((environment_of typer.entry.env.now).terms (name_of sym.now).text) (expression_of expr.now)
        (name_of sym.now).text (expression_list_of (expressions_of args.now)) pos
        (type_text wanted.entry) (progress_of progress.old)) }
{
    let Some((name, term)) = known_term(typer.env, sym.0.as_str()) else {
        tell_term_unknown(sym, pos, progress)?;
        return Ok(None);
    };
    let other = other_than(term.ret.as_str(), wanted);
    type_term_as(typer, expr, term, name, args, pos, other, progress)
}

/// Types a term that is known. `other` is the type that is wanted, if the term has another one.
#[cycle(expression)]
fn type_term_as<'e>(
    typer: Typer<'e, '_>,
    expr: &Expr,
    term: &'e Term,
    sym: &'e str,
    args: &[Expr],
    pos: Pos,
    other: Option<&'e str>,
    progress: &mut Progress<'e>,
) -> Result<Option<TypedExpression<'e>>, Refusal>
    ensures { GivesTyping typed_expression_of result progress.new
        (term_as (parts_by typer.entry) (environment_of typer.entry.env.now) typer.entry.flags
        (term_of term.now) (type_text other.entry) (expression_of expr.now) sym.now
        (expression_list_of (expressions_of args.now)) pos (progress_of progress.old)) }
{
    if let Some(ty) = other {
        if let Some(converter) = converting(typer.env, term.ret.as_str(), ty) {
            return type_put(typer, converter, expr, pos, ty, progress);
        }
        tell_term_type(typer.alloc, term, ty, pos, progress)?;
    }
    type_own(typer, term, sym, args, pos, progress)
}

/// Types a term that isn't converted.
#[cycle(expression)]
fn type_own<'e>(
    typer: Typer<'e, '_>,
    term: &'e Term,
    sym: &'e str,
    args: &[Expr],
    pos: Pos,
    progress: &mut Progress<'e>,
) -> Result<Option<TypedExpression<'e>>, Refusal>
    ensures { GivesTyping typed_expression_of result progress.new
        (own_by (parts_by typer.entry) typer.entry.flags (term_of term.now) sym.now
        (expression_list_of (expressions_of args.now)) pos (progress_of progress.old)) }
{
    check_use(typer.alloc, typer.flags, term, sym, args, pos, progress)?;
    let args = type_arguments(typer, args, &term.args, progress)?;
    Ok(Some(TypedExpression::Term {
        term: sym,
        ty: term.ret.as_str(),
        args,
    }))
}

/// Types expressions, each of its type, as many as there are types.
#[cycle(expression)]
fn type_arguments<'e>(
    typer: Typer<'e, '_>,
    exprs: &[Expr],
    types: &'e Vec<String>,
    progress: &mut Progress<'e>,
) -> Result<Vec<TypedExpression<'e>>, Refusal>
    ensures { GivesTypings typed_expression_of result progress.new
        (arguments_by (parts_by typer.entry) (expression_list_of (expressions_of exprs.now))
        (map string_bytes types.now.items) [] (progress_of progress.old)) }
{
    let mut typed = Vec::with_capacity(typer.alloc, exprs.len())?;
    for (number, expr) in exprs.iter().enumerate() {
        if number >= types.len() {
            return Ok(typed);
        }
        let made = type_part(typer, expr, Some(types[number].as_str()), progress)?;
        add_expression(&mut typed, made)?;
    }
    Ok(typed)
}

/// Types a `let`.
#[cycle(expression)]
fn type_let<'e>(
    typer: Typer<'e, '_>,
    defs: &Vec<LetDef>,
    body: &Expr,
    pos: Pos,
    wanted: Option<&'e str>,
    progress: &mut Progress<'e>,
) -> Result<Option<TypedExpression<'e>>, Refusal>
    ensures { GivesTyping typed_expression_of result progress.new
        (type_let (parts_by typer.entry) (environment_of typer.entry.env.now)
        (let_list_of (single_lets_of defs.now.items)) (expression_of body.now) pos
        (type_text wanted.entry) (progress_of progress.old)) }
{
    let count = progress.bound.len();
    let defs = type_lets(typer, defs, pos, progress)?;
    let body = type_part(typer, body, wanted, progress)?;
    hide_since(progress, count);
    Ok(close(typer.alloc, defs, body)?)
}

/// Types the values of the variables of a `let` at this position, and binds the variables.
#[cycle(expression)]
fn type_lets<'e>(
    typer: Typer<'e, '_>,
    defs: &Vec<LetDef>,
    pos: Pos,
    progress: &mut Progress<'e>,
) -> Result<Vec<TypedLet<'e>>, Refusal>
    ensures { GivesTypings typed_let_of result progress.new
        (lets_by (parts_by typer.entry) (environment_of typer.entry.env.now) pos
        (let_list_of (single_lets_of defs.now.items)) [] (progress_of progress.old)) }
{
    let mut typed = Vec::with_capacity(typer.alloc, defs.len())?;
    for def in defs {
        let made = type_let_def(typer, def, pos, progress)?;
        add_let(&mut typed, made)?;
    }
    Ok(typed)
}

/// Types the value of a variable of a `let` at this position, and binds the variable.
#[cycle(expression)]
fn type_let_def<'e>(
    typer: Typer<'e, '_>,
    def: &LetDef,
    pos: Pos,
    progress: &mut Progress<'e>,
) -> Result<Option<TypedLet<'e>>, Refusal>
    ensures { GivesTyping typed_let_of result progress.new
        (let_by (parts_by typer.entry) (environment_of typer.entry.env.now) pos
        (name_of def.now.var).text (name_of def.now.ty).text (expression_of def.now.val.value)
        (progress_of progress.old)) }
{
    let Some(ty) = known_type(typer.env, def.ty.0.as_str()) else {
        tell_let_type(&def.var, &def.ty, pos, progress)?;
        return Ok(None);
    };
    let val = type_part(typer, &def.val, Some(ty), progress)?;
    Ok(define(typer.alloc, &def.var, ty, val, progress)?)
}
