//! Conversions that do not come to an end.

ghost use Rattle.std.specs.Prelude.{◌≡◌, ◌++◌, ◌∷◌, ◌+◌, ℕ, IfOk, List, OnOk, map};
ghost use Rattle.std.specs.Prelude.{option_map};
ghost use Rattle.isle_ast.specs.Tree.{Conversion};
ghost use Rattle.isle_ast.specs.TreeView.{conversion_of, definitions_of};
ghost use Rattle.isle_check_recursion.specs.Conversions.{endless_among, endless_conversions};
ghost use Rattle.isle_check_recursion.specs.Conversions.{endless_from, if_endless, needed};
ghost use Rattle.isle_check_recursion.specs.Conversions.{needed_before, needs, needs_by};
ghost use Rattle.isle_check_recursion.specs.Conversions.{needs_of, number_from};
ghost use Rattle.isle_check_recursion.specs.Walks.{AreEnds};
ghost use Rattle.isle_check_environment.specs.Views.{converters_at};
ghost use Rattle.isle_check_environment.specs.signatures.ByTexts.{get_by_texts};
ghost use Rattle.isle_check_environment.specs.signatures.Views.{environment_of, term_of};

use crate::cycles::{ends, is_set};
use isle_ast::ast::{Converter, Def};
use isle_check_environment::by_text::ByText;
use isle_check_environment::parts::converters_in;
use isle_check_environment::signatures::by_texts::{ByTexts, put_value, value_at};
use isle_check_environment::signatures::{Environment, Term};
use std::alloc::{AllocError, Global};

/// The numbers of converters, by the inner and the outer type.
type Numbers = ByTexts<usize>;

/// Returns the converters of a program whose conversion does not come to an end, in order: it needs
/// itself, or another one that does. Upstream then overflows its stack where a rule needs it.
///
/// The conversion of `inner` to `outer` by a term makes `inner` the term's first argument, and what
/// the term gives `outer`; each of the two needs a conversion where types differ. What the template
/// of an extractor converts is not looked at. `env` is the program's environment. An `Err` means
/// out of memory.
pub fn endless_conversions<'a>(
    alloc: Global,
    env: &Environment,
    defs: &'a [Def],
) -> Result<Vec<&'a Converter>, AllocError>
    ensures { IfOk result (λ found. converters_at found.items
        ≡ endless_conversions (environment_of env.now).terms (definitions_of defs.now)) }
{
    let converters = converters_in(alloc, defs)?;
    endless_among(alloc, env, &converters)
}

fn endless_among<'a>(
    alloc: Global,
    env: &Environment,
    converters: &[&'a Converter],
) -> Result<Vec<&'a Converter>, AllocError>
    ensures { IfOk result (λ found. converters_at found.items
        ≡ endless_among (environment_of env.now).terms (converters_at converters.now)) }
{
    let needs = needs(alloc, env, converters)?;
    let ends = ends(alloc, &needs)?;
    collected(alloc, converters, &needs, &ends)
}

/// Collects the converters whose conversion does not come to an end. `ends` are those of `needs`.
fn collected<'a>(
    alloc: Global,
    converters: &[&'a Converter],
    needs: &[Vec<usize>],
    ends: &[bool],
) -> Result<Vec<&'a Converter>, AllocError>
    requires { AreEnds (map (λ v. v.items) needs.now) ends.now }
    ensures { IfOk result (λ found. converters_at found.items
        ≡ endless_from (map (λ v. v.items) needs.now) 0 (converters_at converters.now)) }
{
    let mut found = Vec::new(alloc);
    for (number, converter) in converters.iter().enumerate() {
        add_if_endless(needs, ends, number, converter, &mut found)?;
    }
    Ok(found)
}

/// Adds a converter, if its conversion does not come to an end.
fn add_if_endless<'a>(
    needs: &[Vec<usize>],
    ends: &[bool],
    number: usize,
    converter: &'a Converter,
    found: &mut Vec<&'a Converter>,
) -> Result<(), AllocError>
    requires { AreEnds (map (λ v. v.items) needs.now) ends.now }
    ensures { OnOk result (converters_at found.new.items ≡ converters_at found.old.items
        ++ if_endless (map (λ v. v.items) needs.now) number (conversion_of converter.now)) }
{
    if !is_set(ends, number) {
        found.push(converter)?;
    }
    Ok(())
}

/// Returns, for each converter, the numbers of those that its conversion needs.
fn needs(
    alloc: Global,
    env: &Environment,
    converters: &[&Converter],
) -> Result<Vec<Vec<usize>>, AllocError>
    ensures { IfOk result (λ found. map (λ v. v.items) found.items
        ≡ needs (environment_of env.now).terms (converters_at converters.now)) }
{
    let numbers = numbers(alloc, converters)?;
    needs_of(alloc, env, &numbers, converters)
}

/// Returns the number of the first converter of each two types.
fn numbers(alloc: Global, converters: &[&Converter]) -> Result<Numbers, AllocError>
    ensures { IfOk result (λ numbers. (inner outer : List ℕ) → get_by_texts numbers inner outer
        ≡ number_from 0 (converters_at converters.now) inner outer) }
{
    let mut numbers = ByText::new(alloc);
    for number in (0..converters.len()).rev() {
        put_number(alloc, converters[number], number, &mut numbers)?;
    }
    Ok(numbers)
}

/// Puts the number of a converter in place of that of a later one.
fn put_number(
    alloc: Global,
    converter: &Converter,
    number: usize,
    numbers: &mut Numbers,
) -> Result<(), AllocError>
    ensures { OnOk result ((later : List Conversion)
        → ((inner outer : List ℕ) → get_by_texts numbers.old inner outer
        ≡ number_from (number + 1) later inner outer)
        → (inner outer : List ℕ) → get_by_texts numbers.new inner outer
        ≡ number_from number (conversion_of converter.now ∷ later) inner outer) }
{
    let inner = converter.inner_ty.0.clone()?;
    let outer = converter.outer_ty.0.clone()?;
    put_value(alloc, numbers, inner, outer, number)
}

fn needs_of(
    alloc: Global,
    env: &Environment,
    numbers: &Numbers,
    converters: &[&Converter],
) -> Result<Vec<Vec<usize>>, AllocError>
    ensures { IfOk result (λ found. map (λ v. v.items) found.items
        ≡ needs_of (get_by_texts numbers.now) (environment_of env.now).terms
        (converters_at converters.now)) }
{
    let mut found = Vec::with_capacity(alloc, converters.len())?;
    for converter in converters {
        let term = env.term(converter.term.0.as_str());
        found.push(needs_by(alloc, numbers, converter, term)?)?;
    }
    Ok(found)
}

/// Returns the numbers of those that a conversion by a term needs.
fn needs_by(
    alloc: Global,
    numbers: &Numbers,
    converter: &Converter,
    term: Option<&Term>,
) -> Result<Vec<usize>, AllocError>
    ensures { IfOk result (λ found. found.items ≡ needs_by (get_by_texts numbers.now)
        (conversion_of converter.now) (option_map (λ t. term_of t.now) term.entry)) }
{
    let mut found = Vec::new(alloc);
    let Some(term) = term else {
        return Ok(found);
    };
    add_needed_before(numbers, converter.inner_ty.0.as_str(), term, &mut found)?;
    add_needed(
        numbers,
        term.ret.as_str(),
        converter.outer_ty.0.as_str(),
        &mut found,
    )?;
    Ok(found)
}

/// Adds the converter of a type to that of a term's first argument.
fn add_needed_before(
    numbers: &Numbers,
    inner: &str,
    term: &Term,
    found: &mut Vec<usize>,
) -> Result<(), AllocError>
    ensures { OnOk result (found.new.items ≡ found.old.items
        ++ needed_before (get_by_texts numbers.now) inner.now (term_of term.now).args) }
{
    match term.args.first() {
        Some(arg) => add_needed(numbers, inner, arg.as_str(), found),
        None => Ok(()),
    }
}

/// Adds the converter of two types, if they differ and there is one.
fn add_needed(
    numbers: &Numbers,
    inner: &str,
    outer: &str,
    found: &mut Vec<usize>,
) -> Result<(), AllocError>
    ensures { OnOk result (found.new.items ≡ found.old.items
        ++ needed (get_by_texts numbers.now) inner.now outer.now) }
{
    if inner == outer {
        return Ok(());
    }
    if let Some(number) = value_at(numbers, inner, outer).copied() {
        found.push(number)?;
    }
    Ok(())
}
