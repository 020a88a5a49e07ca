//! Internal extractors that use themselves, and conversions that do not come to an end.
#![tactic(auto)]

mod conversions;
mod cycles;
mod uses;
mod walks;

ghost use Rattle.std.specs.Prelude.{◌≡◌, ◌++◌, IfOk, None, OnOk, map, option_map};
ghost use Rattle.isle_ast.specs.TreeView.{definitions_of};
ghost use Rattle.isle_ast_rules.specs.TreeView.{pattern_of};
ghost use Rattle.isle_check_recursion.specs.Walks.{AreEnds};
ghost use Rattle.isle_check_environment.specs.Views.{decls_at};
ghost use Rattle.isle_check_recursion.specs.Recursion.{last_template, name_of_number, names};
ghost use Rattle.isle_check_recursion.specs.Recursion.{recursion, recursions, recursions_from};
ghost use Rattle.isle_check_recursion.specs.Recursion.{recursions_of};
ghost use Rattle.isle_check_recursion.specs.Views.{names_at, recursions_at};
ghost use Rattle.isle_check_environment.specs.signatures.Environment.{environment};
ghost use Rattle.isle_check_environment.specs.signatures.Views.{environment_of};

pub use conversions::endless_conversions;
use cycles::{ends, is_set};
use isle_ast::ast::{Decl, Def, Ident, Pattern};
use isle_base::lexer::Pos;
use isle_check_environment::parts::decls_in;
use isle_check_environment::signatures::Environment;
use std::alloc::{AllocError, Global};
use uses::uses_of;
use walks::endless_walk;

/// An internal extractor that uses itself, or one that does.
#[derive(Drop)]
pub struct Recursion<'a> {
    /// Terms each of which uses the next one in its template. The first one is that of the
    /// extractor, and the last one is among those before it.
    pub path: Vec<&'a Ident>,
    /// The position of the last one's template.
    pub pos: Pos,
}

/// Returns the internal extractors of a program whose expansion does not come to an end, in the
/// order in which their terms are declared. `env` is the program's environment. An `Err` means out
/// of memory.
pub fn recursions<'a>(
    alloc: Global,
    env: &Environment,
    defs: &'a [Def],
) -> Result<Vec<Recursion<'a>>, AllocError>
    requires { environment_of env.now ≡ environment (definitions_of defs.now) }
    ensures { IfOk result
        (λ found. recursions_at found.items ≡ recursions (definitions_of defs.now)) }
{
    let decls = decls_in(alloc, defs)?;
    recursions_of(alloc, env, &decls)
}

fn recursions_of<'a>(
    alloc: Global,
    env: &Environment,
    decls: &[&'a Decl],
) -> Result<Vec<Recursion<'a>>, AllocError>
    ensures { IfOk result (λ found. recursions_at found.items
        ≡ recursions_of (environment_of env.now).templates (decls_at decls.now)) }
{
    let next = uses_of(alloc, env, decls)?;
    let ends = ends(alloc, &next)?;
    collected(alloc, env, decls, &next, &ends)
}

/// Collects the recursion of each declared term. `ends` are those of `next`.
fn collected<'a>(
    alloc: Global,
    env: &Environment,
    decls: &[&'a Decl],
    next: &[Vec<usize>],
    ends: &[bool],
) -> Result<Vec<Recursion<'a>>, AllocError>
    requires { AreEnds (map (λ v. v.items) next.now) ends.now }
    ensures { IfOk result (λ found. recursions_at found.items
        ≡ recursions_from (environment_of env.now).templates (decls_at decls.now)
        (map (λ v. v.items) next.now) 0 (decls_at decls.now)) }
{
    let mut found = Vec::new(alloc);
    for (root, _decl) in decls.iter().enumerate() {
        add_recursion(alloc, env, decls, next, ends, root, &mut found)?;
    }
    Ok(found)
}

fn add_recursion<'a>(
    alloc: Global,
    env: &Environment,
    decls: &[&'a Decl],
    next: &[Vec<usize>],
    ends: &[bool],
    root: usize,
    found: &mut Vec<Recursion<'a>>,
) -> Result<(), AllocError>
    requires { AreEnds (map (λ v. v.items) next.now) ends.now }
    ensures { OnOk result (recursions_at found.new.items ≡ recursions_at found.old.items
        ++ recursion (environment_of env.now).templates (decls_at decls.now)
        (map (λ v. v.items) next.now) root) }
{
    if is_set(ends, root) {
        return Ok(());
    }
    let path = names(alloc, decls, &endless_walk(alloc, next, ends, root)?)?;
    match last_template(env, &path) {
        Some(template) => {
            let pos = template.pos();
            found.push(Recursion { path, pos })?;
            Ok(())
        }
        None => Ok(()),
    }
}

/// Returns the names of terms by number.
fn names<'a>(
    alloc: Global,
    decls: &[&'a Decl],
    path: &[usize],
) -> Result<Vec<&'a Ident>, AllocError>
    ensures { IfOk result (λ found. names_at found.items ≡ names (decls_at decls.now) path.now) }
{
    let mut found = Vec::new(alloc);
    for place in path {
        add_name(decls, *place, &mut found)?;
    }
    Ok(found)
}

fn add_name<'a>(
    decls: &[&'a Decl],
    place: usize,
    found: &mut Vec<&'a Ident>,
) -> Result<(), AllocError>
    ensures { OnOk result (names_at found.new.items
        ≡ names_at found.old.items ++ name_of_number (decls_at decls.now) place) }
{
    if place < decls.len() {
        found.push(&decls[place].term)?;
    }
    Ok(())
}

/// Returns the template of the last of these terms, if it has an internal extractor.
fn last_template<'e>(env: &'e Environment, path: &[&Ident]) -> Option<&'e Pattern>
    ensures { option_map (λ p. pattern_of p.now) result
        ≡ last_template (environment_of env.now).templates None (names_at path.now) }
{
    let mut template = None;
    for name in path {
        template = env.template(name.0.as_str());
    }
    template
}
