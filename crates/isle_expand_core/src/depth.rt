//! How deep the patterns of an expansion may be nested.

ghost use Rattle.std.specs.Prelude.{◌≡◌, ◌+◌, IfOk, false, length, map, slice_get};
ghost use Rattle.isle_ast.specs.MacroArgs.{definitions_have_macro_arg};
ghost use Rattle.isle_ast.specs.TreeView.{definition_of, definitions_of};
ghost use Rattle.isle_ast_names.specs.TreeView.{name_of};
ghost use Rattle.isle_ast_rules.specs.TreeView.{conditions_of, pattern_list_of, pattern_of};
ghost use Rattle.isle_ast_rules.specs.TreeView.{patterns_of, rule_of};
ghost use Rattle.isle_expand_core.specs.Depth.{IsFirstDeep, capped, conditions_reach, deep_at};
ghost use Rattle.isle_expand_core.specs.Depth.{list_reach, reach, root_reach, rule_reach};
ghost use Rattle.isle_expand_core.specs.Depth.{settled, settled_by, step};
ghost use Rattle.isle_expand_core.specs.Macros.{place_of};
ghost use Rattle.isle_expand_core.specs.Views.{begun_of};
ghost use Rattle.isle_expand_warnings.specs.First.{first};

use crate::macros::{Template, place_of, templates};
use crate::order::callee_order;
use isle_ast::ast::{Def, Ident, IfLet, Pattern, Rule};
use isle_base::lexer::Pos;
use std::alloc::{AllocError, Global};

/// How many terms, `@` and `and` may be in one another in a pattern of an expansion.
pub const MAX_DEPTH: usize = 500;

/// The position of the first rule or extractor with a pattern whose expansion would nest more than
/// `MAX_DEPTH` deep, if there is one. `expand` uses stack for each level, so ask this first.
///
/// A use counts as deep as its extractor's expansion and its deepest argument together. That of an
/// extractor that comes back to itself counts as nothing, since it has no expansion.
///
/// No definition may hold a macro argument, `Pattern::MacroArg`. The parser never makes one.
pub fn first_deep(alloc: Global, defs: &[Def]) -> Result<Option<Pos>, AllocError>
    requires { definitions_have_macro_arg (definitions_of defs.now) ≡ false }
    ensures { IfOk result (IsFirstDeep (definitions_of defs.now)) }
{
    let templates = templates(alloc, defs)?;
    let order = callee_order(alloc, &templates)?;
    let reaches = reaches(alloc, &templates, &order.places)?;
    Ok(deep_among(defs, &templates, &reaches))
}

/// How deep the expansions of the templates at these indices reach, found in this order. The others
/// count as nothing.
fn reaches(alloc: Global, templates: &[Template], order: &[usize]) -> Result<Vec<usize>, AllocError>
    ensures { IfOk result (λ reaches. reaches.items
        ≡ settled order.now (map begun_of templates.now)
        (map (λ _. 0) (map begun_of templates.now))) }
{
    let mut reaches = vec![in alloc; 0; templates.len()]?;
    for place in order {
        settle(*place, templates, &mut reaches);
    }
    Ok(reaches)
}

/// Notes how deep the expansion of the template at an index reaches. Out of range, does nothing.
fn settle(place: usize, templates: &[Template], reaches: &mut [usize])
    ensures { reaches.new ≡ settled_by (slice_get (map begun_of templates.now) place) place
        (map begun_of templates.now) reaches.old }
{
    if place < templates.len() && place < reaches.len() {
        let depth = reach(&templates[place].pattern, templates, reaches);
        reaches[place] = depth;
    }
}

/// The position of the first of these definitions that reaches too deep.
fn deep_among(defs: &[Def], templates: &[Template], reaches: &[usize]) -> Option<Pos>
    ensures { result ≡ first (deep_at (map begun_of templates.now) reaches.now)
        (definitions_of defs.now) }
{
    for def in defs {
        if let Some(pos) = deep_at(def, templates, reaches) {
            return Some(pos);
        }
    }
    None
}

/// The position of a definition, if it reaches too deep.
fn deep_at(def: &Def, templates: &[Template], reaches: &[usize]) -> Option<Pos>
    ensures { result
        ≡ deep_at (map begun_of templates.now) reaches.now (definition_of def.now) }
{
    match def {
        Def::Rule(rule) if rule_reach(rule, templates, reaches) > MAX_DEPTH => Some(rule.pos),
        Def::Extractor(extractor) if reach(&extractor.template, templates, reaches) > MAX_DEPTH => {
            Some(extractor.pos)
        }
        _ => None,
    }
}

/// How deep the patterns of a rule reach, below its root and in its conditions.
fn rule_reach(rule: &Rule, templates: &[Template], reaches: &[usize]) -> usize
    ensures { result ≡ rule_reach (rule_of rule.now) (map begun_of templates.now) reaches.now }
{
    let deepest = root_reach(&rule.pattern, templates, reaches);
    conditions_reach(&rule.iflets, deepest, templates, reaches)
}

fn root_reach(pattern: &Pattern, templates: &[Template], reaches: &[usize]) -> usize
    ensures { result
        ≡ root_reach (pattern_of pattern.now) (map begun_of templates.now) reaches.now }
{
    match pattern {
        Pattern::Term { args, .. } => list_reach(args, templates, reaches),
        _ => 0,
    }
}

/// How deep the patterns of conditions reach, or the given number if that is greater.
fn conditions_reach(
    conditions: &[IfLet],
    at_least: usize,
    templates: &[Template],
    reaches: &[usize],
) -> usize
    ensures { result ≡ conditions_reach (conditions_of conditions.now) at_least
        (map begun_of templates.now) reaches.now }
{
    let mut deepest = at_least;
    for condition in conditions {
        deepest = deepest.max(reach(&condition.pattern, templates, reaches));
    }
    deepest
}

/// How deep the expansion of a pattern reaches, as far as `MAX_DEPTH + 1`.
#[cycle(reach)]
fn reach(pattern: &Pattern, templates: &[Template], reaches: &[usize]) -> usize
    ensures { result ≡ reach (pattern_of pattern.now) (map begun_of templates.now) reaches.now }
{
    match pattern {
        Pattern::BindPattern { subpat, .. } => sum(1, reach(subpat, templates, reaches)),
        Pattern::Term { sym, args, .. } => {
            let below = list_reach(args, templates, reaches);
            sum(step(sym, templates, reaches), below)
        }
        Pattern::And { subpats, .. } => sum(1, list_reach(subpats, templates, reaches)),
        Pattern::Var { .. }
        | Pattern::ConstBool { .. }
        | Pattern::ConstInt { .. }
        | Pattern::ConstPrim { .. }
        | Pattern::Wildcard { .. }
        | Pattern::MacroArg { .. } => 0,
    }
}

#[cycle(reach)]
fn list_reach(patterns: &Vec<Pattern>, templates: &[Template], reaches: &[usize]) -> usize
    ensures { result ≡ list_reach (pattern_list_of (patterns_of patterns.now.items)) 0
        (map begun_of templates.now) reaches.now }
{
    let mut deepest: usize = 0;
    for pattern in patterns {
        deepest = deepest.max(reach(pattern, templates, reaches));
    }
    deepest
}

/// How far the arguments of a term with this symbol are below it.
fn step(sym: &Ident, templates: &[Template], reaches: &[usize]) -> usize
    ensures { result ≡ step reaches.now
        (place_of (name_of sym.now).text (map begun_of templates.now)) }
{
    match place_of(sym, templates) {
        Some(place) if place < reaches.len() => reaches[place],
        Some(_) => 0,
        None => 1,
    }
}

/// The sum of two numbers, as far as `MAX_DEPTH + 1`.
fn sum(left: usize, right: usize) -> usize
    ensures { result ≡ capped (left + right) }
{
    left.saturating_add(right).min(MAX_DEPTH + 1)
}
