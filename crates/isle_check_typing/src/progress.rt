//! What is known after a part of a rule.

ghost use Rattle.std.specs.Prelude.{◌≡◌, ◌++◌, ◌∷◌, [], IfOk, OnOk, length, option_map};
ghost use Rattle.std.specs.Prelude.{string_bytes};
ghost use Rattle.isle_ast_names.specs.TreeView.{name_of};
ghost use Rattle.isle_check_typing.specs.Progress.{ProgressNode, bind, find, hide_since, tell};
ghost use Rattle.isle_check_typing.specs.Views.{found_of, kind_of, progress_of, variables_of};

use crate::fault::{Fault, Kind};
use isle_ast_names::Ident;
use isle_base::lexer::Pos;
use std::alloc::{AllocError, Global};

/// A variable that was bound.
#[derive(Drop)]
pub struct Variable<'e> {
    /// Its name.
    pub name: String,
    /// Its type.
    pub ty: &'e str,
    /// Whether it may be named: it is no variable of a `let` that has ended.
    pub is_visible: bool,
}

/// What is known after a part of a rule.
#[derive(Drop)]
pub struct Progress<'e> {
    /// The variables that were bound, in order. A variable's number is its index.
    pub bound: Vec<Variable<'e>>,
    /// The errors, in order.
    pub faults: Vec<Fault>,
}

/// A variable that was found.
#[derive(Clone, Copy)]
pub struct Found<'e> {
    /// Its number.
    pub number: usize,
    /// Its type.
    pub ty: &'e str,
}

/// Returns the progress before a rule: nothing is bound.
pub fn no_progress<'e>(alloc: Global) -> Progress<'e>
    ensures { progress_of result ≡ record { bound = []; faults = [] } }
{
    Progress {
        bound: Vec::new(alloc),
        faults: Vec::new(alloc),
    }
}

/// Adds an error. An `Err` means out of memory.
pub fn tell(progress: &mut Progress, kind: Kind, pos: Pos) -> Result<(), AllocError>
    ensures { OnOk result
        (progress_of progress.new ≡ tell (kind_of kind) pos (progress_of progress.old)) }
{
    progress.faults.push(Fault { kind, pos })?;
    Ok(())
}

/// Binds a variable. An `Err` means out of memory.
pub fn bind<'e>(progress: &mut Progress<'e>, name: String, ty: &'e str) -> Result<(), AllocError>
    ensures { OnOk result
        (progress_of progress.new
        ≡ bind (string_bytes name) ty.now (progress_of progress.old)) }
{
    progress.bound.push(Variable {
        name,
        ty,
        is_visible: true,
    })?;
    Ok(())
}

/// Binds a variable, and returns its number. An `Err` means out of memory.
pub fn bind_next<'e>(
    progress: &mut Progress<'e>,
    name: &Ident,
    ty: &'e str,
) -> Result<usize, AllocError>
    ensures number { IfOk result
        (λ number. number ≡ length (progress_of progress.old).bound) }
    ensures bound { OnOk result
        (progress_of progress.new
        ≡ bind (name_of name.now).text ty.now (progress_of progress.old)) }
{
    let number = progress.bound.len();
    bind(progress, name.0.clone()?, ty)?;
    Ok(number)
}

/// Hides the variables that were bound since there were `count`.
pub fn hide_since(progress: &mut Progress, count: usize)
    ensures { progress_of progress.new ≡ hide_since count (progress_of progress.old) }
{
    for number in count..progress.bound.len() {
        progress.bound[number].is_visible = false;
    }
}

/// Returns the last variable of this name that is visible.
pub fn find<'e>(bound: &[Variable<'e>], name: &str) -> Option<Found<'e>>
    ensures { option_map found_of result ≡ find (variables_of bound.now) name.now }
{
    let mut found = None;
    for (number, variable) in bound.iter().enumerate() {
        if variable.is_visible && variable.name.as_str() == name {
            found = Some(Found {
                number,
                ty: variable.ty,
            });
        }
    }
    found
}
