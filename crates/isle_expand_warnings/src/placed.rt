//! The terms of patterns, each with the source of the type that is wanted at its place.

ghost use Rattle.std.specs.Prelude.{◌≡◌, ◌++◌, IfOk, OnOk};
ghost use Rattle.std.specs.List.{flat_map};
ghost use Rattle.isle_ast.specs.TreeView.{definition_of};
ghost use Rattle.isle_ast_names.specs.TreeView.{name_of};
ghost use Rattle.isle_ast_rules.specs.TreeView.{conditions_of, expression_of, pattern_list_of};
ghost use Rattle.isle_ast_rules.specs.TreeView.{pattern_of, patterns_of, rule_of};
ghost use Rattle.isle_expand_warnings.specs.Placed.{all_placed, arguments_placed, condition_placed};
ghost use Rattle.isle_expand_warnings.specs.Placed.{each_placed, placed, placed_in, root_placed};
ghost use Rattle.isle_expand_warnings.specs.Placed.{rule_placed, wanted_by, wanted_of};

use isle_ast::ast::{Def, Expr, Ident, IfLet, Pattern, Rule};
use std::alloc::{AllocError, Global};

/// The source of the type that is wanted at a place of a pattern.
#[derive(Clone, Copy)]
pub enum Wanted<'p> {
    /// Nothing says the type.
    Unsaid,
    /// The term whose argument stands there, and its number, counted from 0.
    Argument(&'p Ident, usize),
    /// The term whose value is matched against the pattern.
    Value(&'p Ident),
}

/// A term in a pattern, and the source of the type that is wanted at its place.
#[derive(Clone, Copy)]
pub struct Placed<'p> {
    /// The term's symbol.
    pub term: &'p Ident,
    pub wanted: Wanted<'p>,
}

/// Returns the terms in the patterns of a definition, in the order in which they are written.
pub fn placed_terms(alloc: Global, def: &Def) -> Result<Vec<Placed<'_>>, AllocError>
    ensures { IfOk result (λ found. all_placed found.items ≡ placed_in (definition_of def.now)) }
{
    let mut found = Vec::new(alloc);
    match def {
        Def::Rule(rule) => add_rule_terms(rule, &mut found)?,
        Def::Extractor(extractor) => {
            add_terms(&extractor.template, Wanted::Unsaid, &mut found)?;
        }
        _ => {}
    }
    Ok(found)
}

/// Adds the terms in the patterns of a rule, without its root.
fn add_rule_terms<'p>(rule: &'p Rule, found: &mut Vec<Placed<'p>>) -> Result<(), AllocError>
    ensures { OnOk result (all_placed found.new.items
        ≡ all_placed found.old.items ++ rule_placed (rule_of rule.now)) }
{
    add_root_terms(&rule.pattern, found)?;
    add_condition_terms(&rule.iflets, found)
}

/// Adds the terms below the root of a rule, if the root is a term.
fn add_root_terms<'p>(pattern: &'p Pattern, found: &mut Vec<Placed<'p>>) -> Result<(), AllocError>
    ensures { OnOk result (all_placed found.new.items
        ≡ all_placed found.old.items ++ root_placed (pattern_of pattern.now)) }
{
    match pattern {
        Pattern::Term { sym, args, .. } => add_argument_terms(sym, args, found),
        _ => Ok(()),
    }
}

/// Adds the terms in the patterns of conditions.
fn add_condition_terms<'p>(
    conditions: &'p [IfLet],
    found: &mut Vec<Placed<'p>>,
) -> Result<(), AllocError>
    ensures { OnOk result (all_placed found.new.items ≡ all_placed found.old.items
        ++ flat_map condition_placed (conditions_of conditions.now)) }
{
    for condition in conditions {
        add_terms(&condition.pattern, wanted_by(&condition.expr), found)?;
    }
    Ok(())
}

/// Returns the source of the type of a pattern that the expression's value is matched against.
fn wanted_by(expr: &Expr) -> Wanted<'_>
    ensures { wanted_of result ≡ wanted_by (expression_of expr.now) }
{
    match expr {
        Expr::Term { sym, .. } => Wanted::Value(sym),
        _ => Wanted::Unsaid,
    }
}

#[cycle(add_terms)]
fn add_terms<'p>(
    pattern: &'p Pattern,
    wanted: Wanted<'p>,
    found: &mut Vec<Placed<'p>>,
) -> Result<(), AllocError>
    ensures { OnOk result (all_placed found.new.items
        ≡ all_placed found.old.items ++ placed (wanted_of wanted.entry) (pattern_of pattern.now)) }
{
    match pattern {
        Pattern::Term { sym, args, .. } => {
            found.push(Placed { term: sym, wanted })?;
            add_argument_terms(sym, args, found)
        }
        Pattern::BindPattern { subpat, .. } => add_terms(subpat, wanted, found),
        Pattern::And { subpats, .. } => add_list_terms(subpats, wanted, found),
        Pattern::Var { .. }
        | Pattern::ConstBool { .. }
        | Pattern::ConstInt { .. }
        | Pattern::ConstPrim { .. }
        | Pattern::Wildcard { .. }
        | Pattern::MacroArg { .. } => Ok(()),
    }
}

/// Adds the terms of patterns that all have the same source of their type.
#[cycle(add_terms)]
fn add_list_terms<'p>(
    patterns: &'p Vec<Pattern>,
    wanted: Wanted<'p>,
    found: &mut Vec<Placed<'p>>,
) -> Result<(), AllocError>
    ensures { OnOk result (all_placed found.new.items ≡ all_placed found.old.items
        ++ each_placed (wanted_of wanted.entry)
        (pattern_list_of (patterns_of patterns.now.items))) }
{
    for pattern in patterns {
        add_terms(pattern, wanted, found)?;
    }
    Ok(())
}

/// Adds the terms in the arguments of a term.
#[cycle(add_terms)]
fn add_argument_terms<'p>(
    term: &'p Ident,
    args: &'p Vec<Pattern>,
    found: &mut Vec<Placed<'p>>,
) -> Result<(), AllocError>
    ensures { OnOk result (all_placed found.new.items ≡ all_placed found.old.items
        ++ arguments_placed (name_of term.now).text 0
        (pattern_list_of (patterns_of args.now.items))) }
{
    for (number, pattern) in args.iter().enumerate() {
        add_terms(pattern, Wanted::Argument(term, number), found)?;
    }
    Ok(())
}
