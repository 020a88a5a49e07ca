//! How a term is used: its flags, its arguments and its converters.

ghost use Rattle.std.specs.Prelude.{◌≡◌, OnOk, option_map, string_bytes};
ghost use Rattle.isle_ast_rules.specs.TreeView.{expression_list_of, expressions_of};
ghost use Rattle.isle_check_environment.specs.signatures.Views.{environment_of, term_of};
ghost use Rattle.isle_check_typing.specs.Views.{progress_of};
ghost use Rattle.isle_check_typing.specs.expressions.ExpressionTypes.{converting, count_arguments};
ghost use Rattle.isle_check_typing.specs.expressions.ExpressionTypes.{count_expressions};
ghost use Rattle.isle_check_typing.specs.expressions.ExpressionTypes.{tell_impure, tell_multi};
ghost use Rattle.isle_check_typing.specs.expressions.ExpressionTypes.{tell_partial, use_term};

use crate::expressions::flags::Flags;
use crate::tells::tell_count;
use crate::{Kind, Progress, tell};
use isle_ast_rules::Expr;
use isle_base::lexer::Pos;
use isle_check_environment::signatures::{Environment, Term};
use std::alloc::{AllocError, Global};

/// Tells if a term is used where its flags don't allow it, or has another number of arguments than
/// are declared.
pub fn check_use(
    alloc: Global,
    flags: Flags,
    term: &Term,
    sym: &str,
    args: &[Expr],
    pos: Pos,
    progress: &mut Progress,
) -> Result<(), AllocError>
    ensures { OnOk result (progress_of progress.new
        ≡ count_arguments (term_of term.now) sym.now
        (count_expressions (expression_list_of (expressions_of args.now))) pos
        (use_term flags (term_of term.now) sym.now pos (progress_of progress.old))) }
{
    use_term(alloc, flags, term, sym, pos, progress)?;
    tell_count(alloc, term, sym, count_expressions(args), pos, progress)?;
    Ok(())
}

/// Tells if a term is used where its flags don't allow it.
fn use_term(
    alloc: Global,
    flags: Flags,
    term: &Term,
    sym: &str,
    pos: Pos,
    progress: &mut Progress,
) -> Result<(), AllocError>
    ensures { OnOk result (progress_of progress.new
        ≡ use_term flags (term_of term.now) sym.now pos
        (progress_of progress.old)) }
{
    tell_impure(alloc, flags, term, sym, pos, progress)?;
    tell_multi(alloc, flags, term, sym, pos, progress)?;
    tell_partial(alloc, flags, term, sym, pos, progress)
}

/// Tells if a term isn't pure where it must be.
fn tell_impure(
    alloc: Global,
    flags: Flags,
    term: &Term,
    sym: &str,
    pos: Pos,
    progress: &mut Progress,
) -> Result<(), AllocError>
    ensures { OnOk result (progress_of progress.new
        ≡ tell_impure flags (term_of term.now) sym.now pos
        (progress_of progress.old)) }
{
    if flags.pure && !term.pure && !term.is_variant {
        let term = String::from_str(alloc, sym)?;
        tell(progress, Kind::ImpureTerm(term), pos)?;
    }
    Ok(())
}

/// Tells if a term is multi where it must not be.
fn tell_multi(
    alloc: Global,
    flags: Flags,
    term: &Term,
    sym: &str,
    pos: Pos,
    progress: &mut Progress,
) -> Result<(), AllocError>
    ensures { OnOk result (progress_of progress.new
        ≡ tell_multi flags (term_of term.now) sym.now pos
        (progress_of progress.old)) }
{
    if term.multi && !flags.multi {
        let term = String::from_str(alloc, sym)?;
        tell(progress, Kind::MultiTerm(term), pos)?;
    }
    Ok(())
}

/// Tells if a term is partial where it must not be.
fn tell_partial(
    alloc: Global,
    flags: Flags,
    term: &Term,
    sym: &str,
    pos: Pos,
    progress: &mut Progress,
) -> Result<(), AllocError>
    ensures { OnOk result (progress_of progress.new
        ≡ tell_partial flags (term_of term.now) sym.now pos
        (progress_of progress.old)) }
{
    if term.partial && !flags.partial {
        let kind = Kind::PartialTerm {
            term: String::from_str(alloc, sym)?,
            is_multi: flags.multi,
        };
        tell(progress, kind, pos)?;
    }
    Ok(())
}

/// Counts expressions.
#[tactic(auto, using(crate::proofs::expressions::Counts::count_of))]
fn count_expressions(exprs: &[Expr]) -> usize
    ensures { result ≡ count_expressions (expression_list_of (expressions_of exprs.now)) }
{
    exprs.len()
}

/// Returns the term that converts in expressions, if there is one.
pub fn converting<'a>(env: &'a Environment, inner: &str, outer: &str) -> Option<&'a String>
    ensures { option_map (λ c. string_bytes c.now) result
        ≡ converting (environment_of env.now) inner.now outer.now }
{
    match env.converter(inner, outer) {
        Some(converter) => {
            if env.has_constructor(converter.as_str()) {
                Some(converter)
            } else {
                None
            }
        }
        None => None,
    }
}
