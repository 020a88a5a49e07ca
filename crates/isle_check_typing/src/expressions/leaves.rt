//! The types of literals and constants.

ghost use Rattle.std.specs.Prelude.{◌≡◌, IfOk, Some, option_map};
ghost use Rattle.isle_ast_names.specs.TreeView.{name_of};
ghost use Rattle.isle_check_environment.specs.signatures.Views.{environment_of};
ghost use Rattle.isle_check_typing.specs.Views.{progress_of};
ghost use Rattle.isle_check_typing.specs.expressions.ExpressionTypes.{other_than, type_bool};
ghost use Rattle.isle_check_typing.specs.expressions.ExpressionTypes.{type_constant, type_integer};
ghost use Rattle.isle_check_typing.specs.expressions.TypedView.{typed_expression_of};
ghost use Rattle.isle_check_typing.specs.expressions.Views.{type_text};

use crate::expressions::tells::tell_constant_type;
use crate::expressions::typed::TypedExpression;
use crate::names::known_constant;
use crate::tells::{tell_bool, tell_constant_unknown, tell_integer};
use crate::{Kind, Progress, tell};
use isle_ast_names::Ident;
use isle_base::lexer::Pos;
use isle_check_environment::signatures::Environment;
use std::alloc::{AllocError, Global};

/// Returns the type that is wanted, if it is another one than what is found.
pub fn other_than<'e>(found: &str, wanted: Option<&'e str>) -> Option<&'e str>
    ensures { type_text result ≡ other_than found.now (type_text wanted.entry) }
{
    match wanted {
        None => None,
        Some(ty) => { if found == ty { None } else { Some(ty) } }
    }
}

/// Types `true` or `false`.
pub fn type_bool<'e>(
    alloc: Global,
    val: bool,
    pos: Pos,
    wanted: Option<&'e str>,
    progress: &mut Progress<'e>,
) -> Result<TypedExpression<'e>, AllocError>
    ensures { IfOk result (λ made. record {
      typed = Some (typed_expression_of made);
      after = progress_of progress.new;
    }
        ≡ type_bool val pos (type_text wanted.entry) (progress_of progress.old)) }
{
    if let Some(ty) = other_than("bool", wanted) {
        tell_bool(alloc, val, ty, pos, progress)?;
    }
    Ok(TypedExpression::Bool { val })
}

/// Types an integer.
pub fn type_integer<'e>(
    alloc: Global,
    env: &'e Environment,
    val: i128,
    pos: Pos,
    wanted: Option<&'e str>,
    progress: &mut Progress<'e>,
) -> Result<Option<TypedExpression<'e>>, AllocError>
    ensures { IfOk result (λ made. record {
      typed = option_map typed_expression_of made;
      after = progress_of progress.new;
    }
        ≡ type_integer (environment_of env.now) val pos (type_text wanted.entry)
        (progress_of progress.old)) }
{
    match wanted {
        None => {
            tell(progress, Kind::IntegerWithoutType, pos)?;
            Ok(None)
        }
        Some(ty) => {
            tell_integer(alloc, env, val, ty, pos, progress)?;
            Ok(Some(TypedExpression::Int { val, ty }))
        }
    }
}

/// Types a constant.
pub fn type_constant<'e>(
    alloc: Global,
    env: &'e Environment,
    name: &Ident,
    pos: Pos,
    wanted: Option<&'e str>,
    progress: &mut Progress<'e>,
) -> Result<Option<TypedExpression<'e>>, AllocError>
    ensures { IfOk result (λ made. record {
      typed = option_map typed_expression_of made;
      after = progress_of progress.new;
    }
        ≡ type_constant (environment_of env.now) (name_of name.now).text pos
        (type_text wanted.entry) (progress_of progress.old)) }
{
    match known_constant(env, name.0.as_str()) {
        None => {
            tell_constant_unknown(name, pos, progress)?;
            Ok(None)
        }
        Some((text, known)) => match other_than(known, wanted) {
            None => Ok(Some(TypedExpression::Const {
                name: text,
                ty: known,
            })),
            Some(ty) => {
                tell_constant_type(alloc, name, ty, known, pos, progress)?;
                Ok(None)
            }
        },
    }
}
