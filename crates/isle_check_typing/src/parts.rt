//! Typed patterns that are made of typed parts, and patterns that are put into converters.

ghost use Rattle.std.specs.Prelude.{◌≡◌, ◌<◌, ◌-◌, IfOk, IfSome, OnOk, is_none, length};
ghost use Rattle.std.specs.Prelude.{option_map, string_bytes};
ghost use Rattle.isle_base_source.specs.declared.pos.Pos.{Pos};
ghost use Rattle.isle_ast_names.specs.TreeView.{name_of};
ghost use Rattle.isle_ast_rules.specs.Tree.{PatternNode, more_pattern, no_pattern};
ghost use Rattle.isle_ast_rules.specs.TreeView.{pattern_of};
ghost use Rattle.isle_check_environment.specs.signatures.Views.{environment_of, term_of};
ghost use Rattle.isle_check_typing.specs.Faults.{variable_bound};
ghost use Rattle.isle_check_typing.specs.PatternTypes.{bound_by, own_by, put_by, put_in};
ghost use Rattle.isle_check_typing.specs.PatternTypes.{type_at};
ghost use Rattle.isle_check_typing.specs.Progress.{ProgressNode, bind, find, unless};
ghost use Rattle.isle_check_typing.specs.TypedView.{all_typed_of, typed_of};
ghost use Rattle.isle_check_typing.specs.Typings.{with_typed};
ghost use Rattle.isle_check_typing.specs.Views.{progress_of};

use crate::names::known_term;
use crate::progress::{Progress, bind};
use crate::tells::tell_bound;
use crate::typed::TypedPattern;
use isle_ast_names::Ident;
use isle_ast_rules::Pattern;
use isle_base::lexer::Pos;
use isle_check_environment::signatures::{Environment, Term};
use std::alloc::{AllocError, Global};

/// Puts a copy of a pattern into a converter.
pub fn put(
    alloc: Global,
    converter: &String,
    pattern: &Pattern,
    pos: Pos,
) -> Result<Pattern, AllocError>
    ensures { IfOk result (λ made. pattern_of made
        ≡ put_in (string_bytes converter.now) (pattern_of pattern.now) pos) }
{
    let mut args = Vec::new(alloc);
    args.push(pattern.clone()?)?;
    Ok(Pattern::Term {
        sym: Ident(converter.clone()?, pos),
        args,
        pos,
    })
}

/// Adds a typed pattern, if there is one.
pub fn add_pattern<'e>(
    typed: &mut Vec<TypedPattern<'e>>,
    made: Option<TypedPattern<'e>>,
) -> Result<(), AllocError>
    ensures { OnOk result (all_typed_of typed.new.items
        ≡ with_typed (all_typed_of typed.old.items) (option_map typed_of made.entry)) }
{
    if let Some(made) = made {
        typed.push(made)?;
    }
    Ok(())
}

/// Binds a variable to the value that a typed pattern matches, if there is one. It isn't bound
/// before.
pub fn bound_by<'e>(
    alloc: Global,
    inner: Option<TypedPattern<'e>>,
    var: &Ident,
    pos: Pos,
    progress: &mut Progress<'e>,
) -> Result<Option<TypedPattern<'e>>, AllocError>
    ensures { IfOk result (λ made. record {
      typed = option_map typed_of made;
      after = progress_of progress.new;
    }
        ≡ bound_by (option_map typed_of inner.entry) (name_of var.now) pos
        (progress_of progress.old)) }
{
    let Some(inner) = inner else {
        return Ok(None);
    };
    let ty = inner.ty();
    let variable = bind_once(var, ty, pos, progress)?;
    Ok(Some(TypedPattern::Bind {
        variable,
        ty,
        subpat: Box::new(alloc, inner)?,
    }))
}

/// Binds a variable, which isn't bound before, and returns its number.
fn bind_once<'e>(
    var: &Ident,
    ty: &'e str,
    pos: Pos,
    progress: &mut Progress<'e>,
) -> Result<usize, AllocError>
    ensures number { IfOk result
        (λ number. number ≡ length (progress_of progress.old).bound) }
    ensures bound { OnOk result (progress_of progress.new
        ≡ bind (name_of var.now).text ty.now
        (unless (is_none (find (progress_of progress.old).bound (name_of var.now).text))
        (variable_bound (name_of var.now).text) pos (progress_of progress.old))) }
{
    let variable = progress.bound.len();
    tell_bound(var, pos, progress)?;
    bind(progress, var.0.clone()?, ty)?;
    Ok(variable)
}

/// Returns the term of a converter with its name, if it has the type that is wanted and one more
/// pattern may lie in another. What is put into the converter is then typed as that term, with no
/// conversion.
pub fn own_converter<'e>(
    depth: usize,
    env: &'e Environment,
    converter: &String,
    ty: &str,
) -> Option<(&'e str, &'e Term)>
    ensures deep { IfSome result (λ t. 0 < depth) }
    ensures own { IfSome result (λ t. (p : PatternNode) (place : Pos) (s : ProgressNode)
        → put_by (type_at depth (environment_of env.now)) (string_bytes converter.now) p place
        ty.now s
        ≡ own_by (type_at (depth - 1) (environment_of env.now)) (environment_of env.now)
        (term_of t.1.now) t.0.now (more_pattern p no_pattern) place ty.now s) }
{
    let Some((name, term)) = known_term(env, converter.as_str()) else {
        return None;
    };
    if depth == 0 || term.ret.as_str() != ty {
        return None;
    }
    Some((name, term))
}
