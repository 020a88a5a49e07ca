//! Errors of patterns, and errors that patterns and expressions share.

ghost use Rattle.std.specs.Prelude.{◌≡◌, ◌==◌, IfOk, OnOk, if◌then◌else◌, is_none, length};
ghost use Rattle.std.specs.Str.{bytes_eq};
ghost use Rattle.isle_ast_names.specs.TreeView.{name_of};
ghost use Rattle.isle_check_environment.specs.signatures.Views.{environment_of, term_of};
ghost use Rattle.isle_check_typing.specs.Faults.{argument_count, bool_type, constant_type};
ghost use Rattle.isle_check_typing.specs.Faults.{constant_unknown, integer_type, no_extractor};
ghost use Rattle.isle_check_typing.specs.Faults.{parameter_without_argument, term_type};
ghost use Rattle.isle_check_typing.specs.Faults.{term_unknown, variable_bound, variable_type};
ghost use Rattle.isle_check_typing.specs.Progress.{find, tell, unless};
ghost use Rattle.isle_check_typing.specs.Views.{progress_of};

use crate::fault::Kind;
use crate::progress::{Progress, find, tell};
use isle_ast_names::Ident;
use isle_base::lexer::Pos;
use isle_check_environment::signatures::{Environment, Term};
use std::alloc::{AllocError, Global};

/// Tells that `true` or `false` stands for a value of a type that is not `bool`.
pub fn tell_bool(
    alloc: Global,
    val: bool,
    ty: &str,
    pos: Pos,
    progress: &mut Progress,
) -> Result<(), AllocError>
    ensures { OnOk result (progress_of progress.new
        ≡ tell (bool_type val ty.now) pos (progress_of progress.old)) }
{
    let kind = Kind::BoolType {
        val,
        ty: String::from_str(alloc, ty)?,
    };
    tell(progress, kind, pos)
}

/// Tells if an integer stands for a value of a type that has no integers.
pub fn tell_integer(
    alloc: Global,
    env: &Environment,
    val: i128,
    ty: &str,
    pos: Pos,
    progress: &mut Progress,
) -> Result<(), AllocError>
    ensures { OnOk result (progress_of progress.new
        ≡ unless ((environment_of env.now).is_number ty.now) (integer_type val ty.now) pos
        (progress_of progress.old)) }
{
    if !env.is_number(ty) {
        let kind = Kind::IntegerType {
            val,
            ty: String::from_str(alloc, ty)?,
        };
        tell(progress, kind, pos)?;
    }
    Ok(())
}

/// Tells that a constant is not known.
pub fn tell_constant_unknown(
    name: &Ident,
    pos: Pos,
    progress: &mut Progress,
) -> Result<(), AllocError>
    ensures { OnOk result (progress_of progress.new
        ≡ tell (constant_unknown (name_of name.now).text) pos (progress_of progress.old)) }
{
    tell(progress, Kind::ConstantUnknown(name.0.clone()?), pos)
}

/// Tells if a constant in a pattern has another type than is wanted.
pub fn tell_constant_type(
    alloc: Global,
    expected: &str,
    found: &str,
    pos: Pos,
    progress: &mut Progress,
) -> Result<(), AllocError>
    ensures { OnOk result (progress_of progress.new
        ≡ unless (bytes_eq found.now expected.now) (constant_type expected.now found.now) pos
        (progress_of progress.old)) }
{
    if found != expected {
        let kind = Kind::ConstantType {
            expected: String::from_str(alloc, expected)?,
            found: String::from_str(alloc, found)?,
        };
        tell(progress, kind, pos)?;
    }
    Ok(())
}

/// Tells if a variable of this name is bound.
pub fn tell_bound(var: &Ident, pos: Pos, progress: &mut Progress) -> Result<(), AllocError>
    ensures { OnOk result (progress_of progress.new
        ≡ unless (is_none (find (progress_of progress.old).bound (name_of var.now).text))
        (variable_bound (name_of var.now).text) pos (progress_of progress.old)) }
{
    if find(&progress.bound, var.0.as_str()).is_some() {
        tell(progress, Kind::VariableBound(var.0.clone()?), pos)?;
    }
    Ok(())
}

/// Tells if a variable in a pattern has another type than is wanted.
pub fn tell_variable_type(
    alloc: Global,
    var: &Ident,
    expected: &str,
    found: &str,
    pos: Pos,
    progress: &mut Progress,
) -> Result<(), AllocError>
    ensures { OnOk result (progress_of progress.new
        ≡ unless (bytes_eq found.now expected.now)
        (variable_type (name_of var.now).text expected.now found.now) pos
        (progress_of progress.old)) }
{
    if found != expected {
        let kind = Kind::VariableType {
            name: var.0.clone()?,
            expected: String::from_str(alloc, expected)?,
            found: String::from_str(alloc, found)?,
        };
        tell(progress, kind, pos)?;
    }
    Ok(())
}

/// Tells that a term in a pattern is not known.
pub fn tell_term_unknown(sym: &Ident, pos: Pos, progress: &mut Progress) -> Result<(), AllocError>
    ensures { OnOk result (progress_of progress.new
        ≡ tell (term_unknown (name_of sym.now).text) pos (progress_of progress.old)) }
{
    tell(progress, Kind::TermUnknown(sym.0.clone()?), pos)
}

/// Tells that a term in a pattern has another type than is wanted, and is not converted.
pub fn tell_term_type(
    alloc: Global,
    term: &Term,
    expected: &str,
    pos: Pos,
    progress: &mut Progress,
) -> Result<(), AllocError>
    ensures { OnOk result (progress_of progress.new
        ≡ tell (term_type expected.now (term_of term.now).ret) pos (progress_of progress.old)) }
{
    let kind = Kind::TermType {
        expected: String::from_str(alloc, expected)?,
        found: term.ret.clone()?,
    };
    tell(progress, kind, pos)
}

/// Tells if a term has no extractor.
pub fn tell_extractor(
    alloc: Global,
    env: &Environment,
    sym: &str,
    pos: Pos,
    progress: &mut Progress,
) -> Result<(), AllocError>
    ensures { OnOk result (progress_of progress.new
        ≡ unless ((environment_of env.now).has_extractor sym.now) (no_extractor sym.now) pos
        (progress_of progress.old)) }
{
    if !env.has_extractor(sym) {
        let term = String::from_str(alloc, sym)?;
        tell(progress, Kind::NoExtractor(term), pos)?;
    }
    Ok(())
}

/// Tells that a template has a parameter without an argument, if the number of arguments is right.
pub fn tell_parameter(
    alloc: Global,
    counts: bool,
    sym: &str,
    pos: Pos,
    progress: &mut Progress,
) -> Result<(), AllocError>
    ensures { OnOk result (progress_of progress.new
        ≡ (if counts then tell (parameter_without_argument sym.now) pos (progress_of progress.old)
        else progress_of progress.old)) }
{
    if counts {
        let term = String::from_str(alloc, sym)?;
        tell(progress, Kind::ParameterWithoutArgument(term), pos)?;
    }
    Ok(())
}

/// Tells if a term has another number of arguments than are declared. Returns whether it has not.
pub fn tell_count(
    alloc: Global,
    term: &Term,
    sym: &str,
    given: usize,
    pos: Pos,
    progress: &mut Progress,
) -> Result<bool, AllocError>
    ensures counts { IfOk result (λ counts. counts ≡ (length (term_of term.now).args == given)) }
    ensures told { OnOk result (progress_of progress.new
        ≡ unless (length (term_of term.now).args == given)
        (argument_count sym.now given (length (term_of term.now).args)) pos
        (progress_of progress.old)) }
{
    let expected = term.args.len();
    if expected == given {
        return Ok(true);
    }
    let kind = Kind::ArgumentCount {
        term: String::from_str(alloc, sym)?,
        given,
        expected,
    };
    tell(progress, kind, pos)?;
    Ok(false)
}
