//! What typed rules match.

ghost use Rattle.std.specs.Prelude.{◌≡◌, ◌==◌, IfOk, length, option_map};
ghost use Rattle.isle_ast.specs.TreeView.{definitions_of};
ghost use Rattle.isle_check_matchings.specs.Infallible.{program_terms};
ghost use Rattle.isle_check_matchings.specs.Matchings.{constraints_of, equalities_of};
ghost use Rattle.isle_check_matchings.specs.Matchings.{has_several, matching, matchings};
ghost use Rattle.isle_check_matchings.specs.Matchings.{rule_overlaps};
ghost use Rattle.isle_check_matchings.specs.Views.{asks_of, terms_of};
ghost use Rattle.isle_check_overlaps.specs.Views.{matching_of, matchings_of, comparison_of};
ghost use Rattle.isle_check_places.specs.Views.{all_constrained_of, all_equalities_of};
ghost use Rattle.isle_check_rules.specs.Views.{typed_rule_of, typed_rules_of};
ghost use Rattle.isle_check_rules.specs.Warnings.{multi_by};
ghost use Rattle.isle_check_environment.specs.signatures.Views.{environment_of, term_of};

use crate::asks::Ask;
use crate::infallible::infallible_extractors;
use crate::openings::Terms;
use crate::rules::rule_asks;
use crate::values::variable_value;
use isle_ast::ast::Def;
use isle_check_environment::signatures::{Environment, Term};
use isle_check_overlaps::{Comparison, Matching, compare};
use isle_check_places::{Constrained, Equality, clashes, copied, settle};
use isle_check_rules::{TypedRule, Warning, multi_extractors};
use std::alloc::{AllocError, Global};
use std::slice;

/// Returns what is wrong with the typed rules of a program that has no error by itself: rules that
/// match nothing, in order, and then the rules that overlap with others or hide others, in order.
/// `env` is the environment of the program. An `Err` means out of memory.
pub fn rule_overlaps(
    alloc: Global,
    env: &Environment,
    defs: &[Def],
    rules: &[TypedRule],
) -> Result<Comparison, AllocError>
    ensures { IfOk result (λ made. comparison_of made ≡ rule_overlaps
        (program_terms (environment_of env.now) (definitions_of defs.now))
        (typed_rules_of rules.now)) }
{
    let infallible = infallible_extractors(alloc, defs)?;
    let terms = Terms {
        env,
        infallible: &infallible,
    };
    let made = matchings(alloc, terms, rules)?;
    compare(alloc, env, &made)
}

fn matchings<'a>(
    alloc: Global,
    terms: Terms,
    rules: &'a [TypedRule],
) -> Result<Vec<Matching<'a>>, AllocError>
    ensures { IfOk result (λ made. matchings_of made.items
        ≡ matchings (terms_of terms.entry) (typed_rules_of rules.now)) }
{
    let mut made = Vec::with_capacity(alloc, rules.len())?;
    for rule in rules {
        made.push(matching(alloc, terms, rule)?)?;
    }
    Ok(made)
}

fn is_multi(term: Option<&Term>) -> bool
    ensures { result ≡ multi_by (option_map (λ t. term_of t.now) term.entry) }
{
    match term {
        Some(term) => term.multi,
        None => false,
    }
}

fn matching<'a>(
    alloc: Global,
    terms: Terms,
    rule: &'a TypedRule,
) -> Result<Matching<'a>, AllocError>
    ensures { IfOk result (λ made. matching_of made
        ≡ matching (terms_of terms.entry) (typed_rule_of rule.now)) }
{
    let has_several = has_several(alloc, terms, rule)?;
    let asks = rule_asks(alloc, terms, rule)?;
    let equal = equalities_of(alloc, &asks)?;
    let constraints = constraints_of(alloc, asks)?;
    let clashes = clashes(alloc, &constraints)?;
    let settled = settle(alloc, constraints, equal)?;
    Ok(Matching {
        term: rule.term,
        is_multi: is_multi(terms.env.term(rule.term)),
        has_several,
        prio: rule.prio,
        pos: rule.pos,
        clashes,
        settled,
    })
}

/// Returns whether a multi extractor stands in a pattern of a rule whose term is not multi.
fn has_several(alloc: Global, terms: Terms, rule: &TypedRule) -> Result<bool, AllocError>
    ensures { IfOk result (λ several. several
        ≡ has_several (terms_of terms.entry) (typed_rule_of rule.now)) }
{
    let found = multi_extractors(alloc, terms.env, slice::from_ref(rule))?;
    Ok(!are_none(&found))
}

fn are_none(found: &Vec<Warning>) -> bool
    ensures { result ≡ (length found.now.items == 0) }
{
    found.is_empty()
}

fn constraints_of<'a>(alloc: Global, asks: Vec<Ask<'a>>) -> Result<Vec<Constrained<'a>>, AllocError>
    ensures { IfOk result
        (λ made. all_constrained_of made.items ≡ constraints_of (asks_of asks.entry.items)) }
{
    let mut made = Vec::new(alloc);
    for ask in asks {
        if let Ask::Constrains(at, constraint) = ask {
            made.push(Constrained { at, constraint })?;
        }
    }
    Ok(made)
}

fn equalities_of<'a>(alloc: Global, asks: &[Ask<'a>]) -> Result<Vec<Equality<'a>>, AllocError>
    ensures { IfOk result
        (λ made. all_equalities_of made.items ≡ equalities_of (asks_of asks.now)) }
{
    let mut made = Vec::new(alloc);
    for ask in asks {
        if let Ask::Equals(variable, at) = ask {
            let known = variable_value(alloc, asks, *variable)?;
            made.push(Equality {
                left: copied(alloc, at)?,
                right: known.at,
            })?;
        }
    }
    Ok(made)
}
