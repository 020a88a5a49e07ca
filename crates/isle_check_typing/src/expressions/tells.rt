//! Errors of variables and terms in expressions.

ghost use Rattle.std.specs.Prelude.{◌≡◌, OnOk, is_some};
ghost use Rattle.isle_ast_names.specs.TreeView.{name_of};
ghost use Rattle.isle_check_environment.specs.signatures.Views.{term_of};
ghost use Rattle.isle_check_typing.specs.Faults.{expression_constant_type, expression_term_type};
ghost use Rattle.isle_check_typing.specs.Faults.{expression_term_unknown};
ghost use Rattle.isle_check_typing.specs.Faults.{expression_variable_type, let_type_unknown};
ghost use Rattle.isle_check_typing.specs.Faults.{variable_unknown};
ghost use Rattle.isle_check_typing.specs.Progress.{find, tell};
ghost use Rattle.isle_check_typing.specs.Views.{progress_of};

use crate::{Kind, Progress, find, tell};
use isle_ast_names::Ident;
use isle_base::lexer::Pos;
use isle_check_environment::signatures::Term;
use std::alloc::{AllocError, Global};

/// Tells that a constant has another type than is wanted.
pub fn tell_constant_type(
    alloc: Global,
    name: &Ident,
    expected: &str,
    found: &str,
    pos: Pos,
    progress: &mut Progress,
) -> Result<(), AllocError>
    ensures { OnOk result (progress_of progress.new
        ≡ tell (expression_constant_type (name_of name.now).text expected.now found.now) pos
        (progress_of progress.old)) }
{
    let kind = Kind::ExpressionConstantType {
        name: name.0.clone()?,
        expected: String::from_str(alloc, expected)?,
        found: String::from_str(alloc, found)?,
    };
    tell(progress, kind, pos)
}

/// Tells that a variable is not known.
pub fn tell_variable_unknown(
    name: &Ident,
    pos: Pos,
    progress: &mut Progress,
) -> Result<(), AllocError>
    ensures { OnOk result (progress_of progress.new
        ≡ tell (variable_unknown (name_of name.now).text) pos (progress_of progress.old)) }
{
    tell(progress, Kind::VariableUnknown(name.0.clone()?), pos)
}

/// Tells that a variable has another type than is wanted, and is not converted.
pub fn tell_variable_type(
    alloc: Global,
    name: &Ident,
    expected: &str,
    found: &str,
    pos: Pos,
    progress: &mut Progress,
) -> Result<(), AllocError>
    ensures { OnOk result (progress_of progress.new
        ≡ tell (expression_variable_type (name_of name.now).text expected.now found.now) pos
        (progress_of progress.old)) }
{
    let kind = Kind::ExpressionVariableType {
        name: name.0.clone()?,
        expected: String::from_str(alloc, expected)?,
        found: String::from_str(alloc, found)?,
    };
    tell(progress, kind, pos)
}

/// Tells that a term is not known.
pub fn tell_term_unknown(sym: &Ident, pos: Pos, progress: &mut Progress) -> Result<(), AllocError>
    ensures { OnOk result (progress_of progress.new
        ≡ tell (expression_term_unknown (name_of sym.now).text
        (is_some (find (progress_of progress.old).bound (name_of sym.now).text))) pos
        (progress_of progress.old)) }
{
    let is_variable = find(&progress.bound, sym.0.as_str()).is_some();
    let kind = Kind::ExpressionTermUnknown {
        term: sym.0.clone()?,
        is_variable,
    };
    tell(progress, kind, pos)
}

/// Tells that a term has another type than is wanted, and is not converted.
pub fn tell_term_type(
    alloc: Global,
    term: &Term,
    expected: &str,
    pos: Pos,
    progress: &mut Progress,
) -> Result<(), AllocError>
    ensures { OnOk result (progress_of progress.new
        ≡ tell (expression_term_type expected.now (term_of term.now).ret) pos
        (progress_of progress.old)) }
{
    let kind = Kind::ExpressionTermType {
        expected: String::from_str(alloc, expected)?,
        found: term.ret.clone()?,
    };
    tell(progress, kind, pos)
}

/// Tells that the type of a variable of a `let` is not known.
pub fn tell_let_type(
    name: &Ident,
    ty: &Ident,
    pos: Pos,
    progress: &mut Progress,
) -> Result<(), AllocError>
    ensures { OnOk result (progress_of progress.new
        ≡ tell (let_type_unknown (name_of name.now).text (name_of ty.now).text) pos
        (progress_of progress.old)) }
{
    let kind = Kind::LetTypeUnknown {
        name: name.0.clone()?,
        ty: ty.0.clone()?,
    };
    tell(progress, kind, pos)
}
