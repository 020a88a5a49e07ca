//! Extractors of multi terms in the patterns of rules.

ghost use Rattle.std.specs.Prelude.{◌≡◌, ◌++◌, ◌∷◌, [], IfOk, OnOk, map};
ghost use Rattle.std.specs.List.{filter, flat_map};
ghost use Rattle.isle_check_environment.specs.signatures.Views.{environment_of};
ghost use Rattle.isle_check_typing.specs.TypedView.{all_typed_of, typed_list_of, typed_of};
ghost use Rattle.isle_check_rules.specs.Views.{texts_at, typed_conditions_of, typed_rule_of};
ghost use Rattle.isle_check_rules.specs.Views.{typed_rules_of, warnings_of};
ghost use Rattle.isle_check_rules.specs.Warnings.{is_multi, list_terms_in, multi_extractors};
ghost use Rattle.isle_check_rules.specs.Warnings.{multi_warning, rule_multi_extractors};
ghost use Rattle.isle_check_rules.specs.Warnings.{terms_in, terms_in_patterns};

use crate::typed::{TypedIfLet, TypedRule};
use crate::warnings::{Warning, WarningKind};
use isle_base::lexer::Pos;
use isle_check_environment::signatures::Environment;
use isle_check_typing::TypedPattern;
use std::alloc::{AllocError, Global};

/// Returns a warning for each extractor of a multi term in a typed rule whose term is not multi: in
/// the order of the rules, and in each that of its patterns. `env` is the environment of the
/// program. An `Err` means out of memory.
pub fn multi_extractors(
    alloc: Global,
    env: &Environment,
    rules: &[TypedRule],
) -> Result<Vec<Warning>, AllocError>
    ensures { IfOk result (λ found. warnings_of found.items
        ≡ multi_extractors (environment_of env.now) (typed_rules_of rules.now)) }
{
    let mut found = Vec::new(alloc);
    for rule in rules {
        add_multi_extractors(alloc, env, rule, &mut found)?;
    }
    Ok(found)
}

/// Adds the warnings of a rule, if its term is not multi.
fn add_multi_extractors(
    alloc: Global,
    env: &Environment,
    rule: &TypedRule,
    found: &mut Vec<Warning>,
) -> Result<(), AllocError>
    ensures { OnOk result (warnings_of found.new.items ≡ warnings_of found.old.items
        ++ rule_multi_extractors (environment_of env.now) (typed_rule_of rule.now)) }
{
    if is_multi(env, rule.term) {
        return Ok(());
    }
    let terms = multi_terms(alloc, env, rule)?;
    add_multi_warnings(alloc, rule.pos, &terms, found)
}

/// Returns whether a term is known, and multi.
fn is_multi(env: &Environment, term: &str) -> bool
    ensures { result ≡ is_multi (environment_of env.now) term.now }
{
    match env.term(term) {
        Some(term) => term.multi,
        None => false,
    }
}

/// Returns the multi terms of a rule's patterns.
fn multi_terms<'a>(
    alloc: Global,
    env: &Environment,
    rule: &'a TypedRule,
) -> Result<Vec<&'a str>, AllocError>
    ensures { IfOk result (λ found. texts_at found.items
        ≡ filter (is_multi (environment_of env.now)) (terms_in_patterns (typed_rule_of rule.now))) }
{
    let mut found = Vec::new(alloc);
    add_multi_terms_of(env, &rule.args, &mut found)?;
    add_of_conditions(env, &rule.iflets, &mut found)?;
    Ok(found)
}

fn add_of_conditions<'a>(
    env: &Environment,
    iflets: &'a [TypedIfLet],
    found: &mut Vec<&'a str>,
) -> Result<(), AllocError>
    ensures { OnOk result (texts_at found.new.items ≡ texts_at found.old.items
        ++ filter (is_multi (environment_of env.now))
        (flat_map (λ c. terms_in c.pattern) (typed_conditions_of iflets.now))) }
{
    for iflet in iflets {
        add_multi_terms(env, &iflet.pattern, found)?;
    }
    Ok(())
}

/// Adds the multi terms of a typed pattern: a term comes before those of its arguments.
#[cycle(pattern)]
fn add_multi_terms<'a>(
    env: &Environment,
    pattern: &'a TypedPattern,
    found: &mut Vec<&'a str>,
) -> Result<(), AllocError>
    ensures { OnOk result (texts_at found.new.items ≡ texts_at found.old.items
        ++ filter (is_multi (environment_of env.now)) (terms_in (typed_of pattern.now))) }
{
    match pattern {
        TypedPattern::Bind { subpat, .. } => add_multi_terms(env, subpat, found),
        TypedPattern::Term { term, args, .. } => {
            add_if_multi(env, term, found)?;
            add_multi_terms_of(env, args, found)
        }
        TypedPattern::And { subpats, .. } => add_multi_terms_of(env, subpats, found),
        TypedPattern::Var { .. }
        | TypedPattern::Bool { .. }
        | TypedPattern::Int { .. }
        | TypedPattern::Const { .. }
        | TypedPattern::Wildcard { .. } => Ok(()),
    }
}

#[cycle(pattern)]
fn add_multi_terms_of<'a>(
    env: &Environment,
    patterns: &'a Vec<TypedPattern>,
    found: &mut Vec<&'a str>,
) -> Result<(), AllocError>
    ensures { OnOk result (texts_at found.new.items ≡ texts_at found.old.items
        ++ filter (is_multi (environment_of env.now))
        (list_terms_in (typed_list_of (all_typed_of patterns.now.items)))) }
{
    for pattern in patterns {
        add_multi_terms(env, pattern, found)?;
    }
    Ok(())
}

fn add_if_multi<'a>(
    env: &Environment,
    term: &'a str,
    found: &mut Vec<&'a str>,
) -> Result<(), AllocError>
    ensures { OnOk result (texts_at found.new.items ≡ texts_at found.old.items
        ++ filter (is_multi (environment_of env.now)) (term.now ∷ [])) }
{
    if is_multi(env, term) {
        found.push(term)?;
    }
    Ok(())
}

fn add_multi_warnings(
    alloc: Global,
    pos: Pos,
    terms: &[&str],
    found: &mut Vec<Warning>,
) -> Result<(), AllocError>
    ensures { OnOk result (warnings_of found.new.items
        ≡ warnings_of found.old.items ++ map (multi_warning pos) (texts_at terms.now)) }
{
    for term in terms {
        found.push(Warning {
            kind: WarningKind::MultiExtractor(String::from_str(alloc, term)?),
            pos,
        })?;
    }
    Ok(())
}
