//! Which terms the templates of internal extractors use.

ghost use Rattle.std.specs.Prelude.{◌≡◌, ◌++◌, ◌∷◌, ℕ, [], IfOk, List, OnOk, map};
ghost use Rattle.std.specs.Prelude.{option_map, string_bytes};
ghost use Rattle.std.specs.List.{flat_map};
ghost use Rattle.isle_ast_names.specs.TreeView.{name_of};
ghost use Rattle.isle_ast_rules.specs.TermHeads.{heads, list_heads};
ghost use Rattle.isle_ast_rules.specs.TreeView.{pattern_list_of, pattern_of, patterns_of};
ghost use Rattle.isle_check_environment.specs.Views.{decls_at};
ghost use Rattle.isle_check_recursion.specs.Recursion.{number, numbered, used, used_at};
ghost use Rattle.isle_check_recursion.specs.Recursion.{uses, uses_of};
ghost use Rattle.isle_check_recursion.specs.Views.{number_in};
ghost use Rattle.isle_check_environment.specs.signatures.Entries.{Entry, Holds, entry};
ghost use Rattle.isle_check_environment.specs.signatures.Views.{environment_of};

use isle_ast::ast::{Decl, Ident, Pattern};
use isle_check_environment::by_text::ByText;
use isle_check_environment::signatures::Environment;
use std::alloc::{AllocError, Global};

/// Declared terms by name, each with the number of its last declaration.
type Numbers = ByText<usize>;

/// Returns, for each declared term, the numbers of the declared terms that its internal extractor
/// uses. An `Err` means out of memory.
pub fn uses_of(
    alloc: Global,
    env: &Environment,
    decls: &[&Decl],
) -> Result<Vec<Vec<usize>>, AllocError>
    ensures { IfOk result (λ found. map (λ v. v.items) found.items
        ≡ uses_of (environment_of env.now).templates (number (decls_at decls.now))
        (decls_at decls.now)) }
{
    let numbers = numbers(alloc, decls)?;
    uses_by(alloc, env, &numbers, decls)
}

fn uses_by(
    alloc: Global,
    env: &Environment,
    numbers: &Numbers,
    decls: &[&Decl],
) -> Result<Vec<Vec<usize>>, AllocError>
    ensures { IfOk result (λ found. map (λ v. v.items) found.items
        ≡ uses_of (environment_of env.now).templates (number_in numbers.now)
        (decls_at decls.now)) }
{
    let mut found = Vec::with_capacity(alloc, decls.len())?;
    for decl in decls {
        found.push(uses(alloc, numbers, env.template(decl.term.0.as_str()))?)?;
    }
    Ok(found)
}

fn numbers(alloc: Global, decls: &[&Decl]) -> Result<Numbers, AllocError>
    ensures { IfOk result (λ numbers. Holds (λ n. n) numbers (numbered 0 (decls_at decls.now))) }
{
    let mut numbers = no_numbers(alloc);
    for (number, decl) in decls.iter().enumerate() {
        put_number(&mut numbers, decl.term.0.clone()?, number)?;
    }
    Ok(numbers)
}

fn no_numbers(alloc: Global) -> Numbers
    ensures { Holds (λ n. n) result [] }
{
    ByText::new(alloc)
}

fn put_number(numbers: &mut Numbers, name: String, number: usize) -> Result<(), AllocError>
    ensures { OnOk result ((entries : List (Entry ℕ)) → Holds (λ n. n) numbers.old entries
        → Holds (λ n. n) numbers.new (entries ++ entry (string_bytes name) number ∷ [])) }
{
    numbers.insert(name, number)?;
    Ok(())
}

/// Returns the numbers of the declared terms in a template, if there is one.
fn uses(
    alloc: Global,
    numbers: &Numbers,
    template: Option<&Pattern>,
) -> Result<Vec<usize>, AllocError>
    ensures { IfOk result (λ found. found.items
        ≡ uses (number_in numbers.now) (option_map (λ p. pattern_of p.now) template.entry)) }
{
    let mut found = Vec::new(alloc);
    if let Some(pattern) = template {
        add_uses(numbers, pattern, &mut found)?;
    }
    Ok(found)
}

#[cycle(uses)]
fn add_uses(numbers: &Numbers, pattern: &Pattern, found: &mut Vec<usize>) -> Result<(), AllocError>
    ensures { OnOk result (found.new.items ≡ found.old.items
        ++ flat_map (used_at (number_in numbers.now)) (heads (pattern_of pattern.now))) }
{
    match pattern {
        Pattern::BindPattern { subpat, .. } => add_uses(numbers, subpat, found),
        Pattern::Term { sym, args, .. } => {
            add_use(numbers, sym, found)?;
            add_uses_of(numbers, args, found)
        }
        Pattern::And { subpats, .. } => add_uses_of(numbers, subpats, found),
        Pattern::Var { .. }
        | Pattern::ConstBool { .. }
        | Pattern::ConstInt { .. }
        | Pattern::ConstPrim { .. }
        | Pattern::Wildcard { .. }
        | Pattern::MacroArg { .. } => Ok(()),
    }
}

#[cycle(uses)]
fn add_uses_of(
    numbers: &Numbers,
    patterns: &Vec<Pattern>,
    found: &mut Vec<usize>,
) -> Result<(), AllocError>
    ensures { OnOk result (found.new.items ≡ found.old.items
        ++ flat_map (used_at (number_in numbers.now))
        (list_heads (pattern_list_of (patterns_of patterns.now.items)))) }
{
    for pattern in patterns {
        add_uses(numbers, pattern, found)?;
    }
    Ok(())
}

fn add_use(numbers: &Numbers, term: &Ident, found: &mut Vec<usize>) -> Result<(), AllocError>
    ensures { OnOk result (found.new.items
        ≡ found.old.items ++ used (number_in numbers.now) (name_of term.now).text) }
{
    if let Some(number) = numbers.get(term.0.as_str()) {
        found.push(*number)?;
    }
    Ok(())
}
