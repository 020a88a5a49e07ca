//! Typed expressions that are made of typed parts, and expressions that are put into converters.

ghost use Rattle.std.specs.Prelude.{◌≡◌, ◌<◌, ◌-◌, IfOk, IfSome, OnOk, map, option_map};
ghost use Rattle.std.specs.Prelude.{string_bytes};
ghost use Rattle.isle_base_source.specs.declared.pos.Pos.{Pos};
ghost use Rattle.isle_ast_names.specs.TreeView.{name_of};
ghost use Rattle.isle_ast_rules.specs.Tree.{Expression, more_expression, no_expression};
ghost use Rattle.isle_ast_rules.specs.TreeView.{expression_of};
ghost use Rattle.isle_check_environment.specs.signatures.Views.{environment_of, term_of};
ghost use Rattle.isle_check_typing.specs.Progress.{ProgressNode};
ghost use Rattle.isle_check_typing.specs.Typings.{with_typed};
ghost use Rattle.isle_check_typing.specs.Views.{progress_of};
ghost use Rattle.isle_check_typing.specs.declared.expressions.flags.Flags.{Flags};
ghost use Rattle.isle_check_typing.specs.expressions.ExpressionTypes.{closed, defined_by};
ghost use Rattle.isle_check_typing.specs.expressions.ExpressionTypes.{expression_at, own_by};
ghost use Rattle.isle_check_typing.specs.expressions.ExpressionTypes.{put_by, put_in};
ghost use Rattle.isle_check_typing.specs.expressions.TypedView.{typed_expression_of, typed_let_of};

use crate::Progress;
use crate::expressions::typed::{TypedExpression, TypedLet};
use crate::names::known_term;
use crate::progress::bind_next;
use isle_ast_names::Ident;
use isle_ast_rules::Expr;
use isle_base::lexer::Pos;
use isle_check_environment::signatures::{Environment, Term};
use std::alloc::{AllocError, Global};

/// Puts a copy of an expression into a converter.
pub fn put(alloc: Global, converter: &String, expr: &Expr, pos: Pos) -> Result<Expr, AllocError>
    ensures { IfOk result (λ made. expression_of made
        ≡ put_in (string_bytes converter.now) (expression_of expr.now) pos) }
{
    let mut args = Vec::new(alloc);
    args.push(expr.clone()?)?;
    Ok(Expr::Term {
        sym: Ident(converter.clone()?, pos),
        args,
        pos,
    })
}

/// Adds a typed expression, if there is one.
pub fn add_expression<'e>(
    typed: &mut Vec<TypedExpression<'e>>,
    made: Option<TypedExpression<'e>>,
) -> Result<(), AllocError>
    ensures { OnOk result (map typed_expression_of typed.new.items
        ≡ with_typed (map typed_expression_of typed.old.items)
        (option_map typed_expression_of made.entry)) }
{
    if let Some(made) = made {
        typed.push(made)?;
    }
    Ok(())
}

/// Adds a variable of a `let`, if it has a typed value.
pub fn add_let<'e>(
    typed: &mut Vec<TypedLet<'e>>,
    made: Option<TypedLet<'e>>,
) -> Result<(), AllocError>
    ensures { OnOk result (map typed_let_of typed.new.items
        ≡ with_typed (map typed_let_of typed.old.items) (option_map typed_let_of made.entry)) }
{
    if let Some(made) = made {
        typed.push(made)?;
    }
    Ok(())
}

/// Makes a `let` of its typed variables and its typed body, if there is one.
pub fn close<'e>(
    alloc: Global,
    defs: Vec<TypedLet<'e>>,
    body: Option<TypedExpression<'e>>,
) -> Result<Option<TypedExpression<'e>>, AllocError>
    ensures { IfOk result (λ made. option_map typed_expression_of made
        ≡ closed (map typed_let_of defs.entry.items)
        (option_map typed_expression_of body.entry)) }
{
    let Some(body) = body else {
        return Ok(None);
    };
    Ok(Some(TypedExpression::Let {
        ty: body.ty(),
        defs,
        body: Box::new(alloc, body)?,
    }))
}

/// Binds a variable of a `let` to its typed value, if there is one.
pub fn define<'e>(
    alloc: Global,
    name: &Ident,
    ty: &'e str,
    val: Option<TypedExpression<'e>>,
    progress: &mut Progress<'e>,
) -> Result<Option<TypedLet<'e>>, AllocError>
    ensures { IfOk result (λ made. record {
      typed = option_map typed_let_of made;
      after = progress_of progress.new;
    }
        ≡ defined_by (option_map typed_expression_of val.entry) (name_of name.now).text ty.now
        (progress_of progress.old)) }
{
    let Some(val) = val else {
        return Ok(None);
    };
    let variable = bind_next(progress, name, ty)?;
    Ok(Some(TypedLet {
        variable,
        val: Box::new(alloc, val)?,
    }))
}

/// Returns the term of a converter with its name, if it has the type that is wanted and one more
/// expression may lie in another. What is put into the converter is then typed as that term, with
/// no conversion.
pub fn own_converter<'e>(
    depth: usize,
    env: &'e Environment,
    converter: &String,
    ty: &str,
) -> Option<(&'e str, &'e Term)>
    ensures deep { IfSome result (λ t. 0 < depth) }
    ensures own { IfSome result (λ t. (flags : Flags) (e : Expression) (place : Pos)
        (s : ProgressNode)
        → put_by (expression_at depth (environment_of env.now) flags) (string_bytes converter.now)
        e place ty.now s
        ≡ own_by (expression_at (depth - 1) (environment_of env.now) flags) flags
        (term_of t.1.now) t.0.now (more_expression e no_expression) place s) }
{
    let Some((name, term)) = known_term(env, converter.as_str()) else {
        return None;
    };
    if depth == 0 || term.ret.as_str() != ty {
        return None;
    }
    Some((name, term))
}
