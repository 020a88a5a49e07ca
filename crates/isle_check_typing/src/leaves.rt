//! The types of variables, literals and constants in patterns.

ghost use Rattle.std.specs.Prelude.{◌≡◌, IfOk, Some, option_map};
ghost use Rattle.isle_ast_names.specs.TreeView.{name_of};
ghost use Rattle.isle_check_environment.specs.signatures.Views.{environment_of};
ghost use Rattle.isle_check_typing.specs.PatternTypes.{new_variable, type_bool, type_constant};
ghost use Rattle.isle_check_typing.specs.PatternTypes.{type_integer, type_variable};
ghost use Rattle.isle_check_typing.specs.TypedView.{typed_of};
ghost use Rattle.isle_check_typing.specs.Views.{progress_of};

use crate::names::known_constant;
use crate::progress::{Progress, bind_next, find};
use crate::tells::{
    tell_bool, tell_constant_type, tell_constant_unknown, tell_integer, tell_variable_type,
};
use crate::typed::TypedPattern;
use isle_ast_names::Ident;
use isle_base::lexer::Pos;
use isle_check_environment::signatures::Environment;
use std::alloc::{AllocError, Global};

/// Types a variable: the first of its name is bound, a later one is compared.
pub fn type_variable<'e>(
    alloc: Global,
    var: &Ident,
    pos: Pos,
    ty: &'e str,
    progress: &mut Progress<'e>,
) -> Result<TypedPattern<'e>, AllocError>
    ensures { IfOk result (λ made. record {
      typed = Some (typed_of made);
      after = progress_of progress.new;
    }
        ≡ type_variable (name_of var.now) pos ty.now (progress_of progress.old)) }
{
    match find(&progress.bound, var.0.as_str()) {
        None => new_variable(alloc, var, ty, progress),
        Some(found) => {
            tell_variable_type(alloc, var, ty, found.ty, pos, progress)?;
            Ok(TypedPattern::Var {
                variable: found.number,
                ty: found.ty,
            })
        }
    }
}

/// Binds a variable to a value of any kind.
fn new_variable<'e>(
    alloc: Global,
    var: &Ident,
    ty: &'e str,
    progress: &mut Progress<'e>,
) -> Result<TypedPattern<'e>, AllocError>
    ensures { IfOk result (λ made. record {
      typed = Some (typed_of made);
      after = progress_of progress.new;
    }
        ≡ new_variable (name_of var.now) ty.now (progress_of progress.old)) }
{
    let variable = bind_next(progress, var, ty)?;
    let subpat = TypedPattern::Wildcard { ty };
    Ok(TypedPattern::Bind {
        variable,
        ty,
        subpat: Box::new(alloc, subpat)?,
    })
}

/// Types `true` or `false`.
pub fn type_bool<'e>(
    alloc: Global,
    val: bool,
    pos: Pos,
    ty: &'e str,
    progress: &mut Progress<'e>,
) -> Result<TypedPattern<'e>, AllocError>
    ensures { IfOk result (λ made. record {
      typed = Some (typed_of made);
      after = progress_of progress.new;
    }
        ≡ type_bool val pos ty.now (progress_of progress.old)) }
{
    if ty != "bool" {
        tell_bool(alloc, val, ty, pos, progress)?;
    }
    Ok(TypedPattern::Bool { val })
}

/// Types an integer.
pub fn type_integer<'e>(
    alloc: Global,
    env: &'e Environment,
    val: i128,
    pos: Pos,
    ty: &'e str,
    progress: &mut Progress<'e>,
) -> Result<TypedPattern<'e>, AllocError>
    ensures { IfOk result (λ made. record {
      typed = Some (typed_of made);
      after = progress_of progress.new;
    }
        ≡ type_integer (environment_of env.now) val pos ty.now
        (progress_of progress.old)) }
{
    tell_integer(alloc, env, val, ty, pos, progress)?;
    Ok(TypedPattern::Int { val, ty })
}

/// Types a constant.
pub fn type_constant<'e>(
    alloc: Global,
    env: &'e Environment,
    name: &Ident,
    pos: Pos,
    ty: &'e str,
    progress: &mut Progress<'e>,
) -> Result<Option<TypedPattern<'e>>, AllocError>
    ensures { IfOk result (λ made. record {
      typed = option_map typed_of made;
      after = progress_of progress.new;
    }
        ≡ type_constant (environment_of env.now) (name_of name.now) pos ty.now
        (progress_of progress.old)) }
{
    match known_constant(env, name.0.as_str()) {
        None => {
            tell_constant_unknown(name, pos, progress)?;
            Ok(None)
        }
        Some((name, known)) => {
            tell_constant_type(alloc, ty, known, pos, progress)?;
            Ok(Some(TypedPattern::Const { name, ty: known }))
        }
    }
}
