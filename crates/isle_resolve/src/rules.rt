//! The events of rules and extractors.

ghost use Rattle.std.specs.Prelude.{◌≡◌, ◌++◌, OnOk, map};
ghost use Rattle.std.specs.List.{flat_map};
ghost use Rattle.isle_ast_names.specs.TreeView.{names_of};
ghost use Rattle.isle_ast_rules.specs.TreeView.{conditions_of, expression_of, expression_list_of};
ghost use Rattle.isle_ast_rules.specs.TreeView.{expressions_of, extractor_of, let_list_of};
ghost use Rattle.isle_ast_rules.specs.TreeView.{pattern_of, pattern_list_of, patterns_of, rule_of};
ghost use Rattle.isle_ast_rules.specs.TreeView.{single_lets_of};
ghost use Rattle.isle_resolve.specs.Event.{occurs};
ghost use Rattle.isle_resolve.specs.EventView.{events_of};
ghost use Rattle.isle_resolve.specs.Events.{condition_events, expression_events};
ghost use Rattle.isle_resolve.specs.Events.{expression_list_events, extractor_events};
ghost use Rattle.isle_resolve.specs.Events.{let_ends, let_events, named, pattern_events};
ghost use Rattle.isle_resolve.specs.Events.{pattern_list_events, rule_events};
ghost use Rattle.isle_resolve.specs.declared.event.Role.TheVariants as roles;

use crate::event::{Event, Kind, Role, Word, add};
use isle_ast::ast::{Expr, Extractor, Ident, IfLet, LetDef, Pattern, Rule};
use std::alloc::AllocError;

pub fn add_rule<'a>(rule: &'a Rule, found: &mut Vec<Event<'a>>) -> Result<(), AllocError>
    ensures { OnOk result (events_of found.new.items
        ≡ events_of found.old.items ++ rule_events (rule_of rule.now)) }
{
    add_pattern(&rule.pattern, Role::Plain, found)?;
    add_conditions(&rule.iflets, found)?;
    add_expression(&rule.expr, found)?;
    add(Event::Ends, found)
}

/// Adds the events of each condition, those of its expression before those of its pattern.
fn add_conditions<'a>(conditions: &'a [IfLet], found: &mut Vec<Event<'a>>) -> Result<(), AllocError>
    ensures { OnOk result (events_of found.new.items ≡ events_of found.old.items
        ++ flat_map condition_events (conditions_of conditions.now)) }
{
    for condition in conditions {
        add_expression(&condition.expr, found)?;
        add_pattern(&condition.pattern, Role::Plain, found)?;
    }
    Ok(())
}

pub fn add_extractor<'a>(
    extractor: &'a Extractor,
    found: &mut Vec<Event<'a>>,
) -> Result<(), AllocError>
    ensures { OnOk result (events_of found.new.items
        ≡ events_of found.old.items ++ extractor_events (extractor_of extractor.now)) }
{
    add(Event::Uses(Kind::Term, Word::new(&extractor.term)), found)?;
    add_parameters(&extractor.args, found)?;
    add_pattern(&extractor.template, Role::Template, found)?;
    add(Event::Ends, found)
}

fn add_parameters<'a>(parameters: &'a [Ident], found: &mut Vec<Event<'a>>) -> Result<(), AllocError>
    ensures { OnOk result (events_of found.new.items
        ≡ events_of found.old.items ++ map (occurs roles.Parameter) (names_of parameters.now)) }
{
    for parameter in parameters {
        add(Event::Occurs(Role::Parameter, Word::new(parameter)), found)?;
    }
    Ok(())
}

/// The role of a variable before an `@`, if those that stand alone have the role `alone`.
fn named(alone: Role) -> Role
    ensures { result ≡ named alone }
{
    match alone {
        Role::Template => Role::Named,
        Role::Plain | Role::Parameter | Role::Named => alone,
    }
}

/// Adds the events of a pattern, in which the variables that stand alone have this role.
#[cycle(pattern_events)]
fn add_pattern<'a>(
    pattern: &'a Pattern,
    role: Role,
    found: &mut Vec<Event<'a>>,
) -> Result<(), AllocError>
    ensures { OnOk result (events_of found.new.items
        ≡ events_of found.old.items ++ pattern_events role (pattern_of pattern.now)) }
{
    match pattern {
        Pattern::Var { var, .. } => add(Event::Occurs(role, Word::new(var)), found),
        Pattern::BindPattern { var, subpat, .. } => {
            add(Event::Occurs(named(role), Word::new(var)), found)?;
            add_pattern(subpat, role, found)
        }
        Pattern::ConstPrim { val, .. } => add(Event::Uses(Kind::Constant, Word::new(val)), found),
        Pattern::Term { sym, args, .. } => {
            add(Event::Uses(Kind::Term, Word::new(sym)), found)?;
            add_patterns(args, role, found)
        }
        Pattern::And { subpats, .. } => add_patterns(subpats, role, found),
        Pattern::ConstBool { .. }
        | Pattern::ConstInt { .. }
        | Pattern::Wildcard { .. }
        | Pattern::MacroArg { .. } => Ok(()),
    }
}

#[cycle(pattern_events)]
fn add_patterns<'a>(
    patterns: &'a Vec<Pattern>,
    role: Role,
    found: &mut Vec<Event<'a>>,
) -> Result<(), AllocError>
    ensures { OnOk result (events_of found.new.items ≡ events_of found.old.items
        ++ pattern_list_events role (pattern_list_of (patterns_of patterns.now.items))) }
{
    for pattern in patterns {
        add_pattern(pattern, role, found)?;
    }
    Ok(())
}

#[cycle(expression_events)]
fn add_expression<'a>(expr: &'a Expr, found: &mut Vec<Event<'a>>) -> Result<(), AllocError>
    ensures { OnOk result (events_of found.new.items
        ≡ events_of found.old.items ++ expression_events (expression_of expr.now)) }
{
    match expr {
        Expr::Term { sym, args, .. } => {
            add(Event::Uses(Kind::Term, Word::new(sym)), found)?;
            add_expressions(args, found)
        }
        Expr::Var { name, .. } => add(Event::Reads(Word::new(name)), found),
        Expr::ConstPrim { val, .. } => add(Event::Uses(Kind::Constant, Word::new(val)), found),
        Expr::Let { defs, body, .. } => {
            add_lets(defs, found)?;
            add_expression(body, found)?;
            add_let_ends(defs, found)
        }
        Expr::ConstBool { .. } | Expr::ConstInt { .. } => Ok(()),
    }
}

#[cycle(expression_events)]
fn add_expressions<'a>(exprs: &'a Vec<Expr>, found: &mut Vec<Event<'a>>) -> Result<(), AllocError>
    ensures { OnOk result (events_of found.new.items ≡ events_of found.old.items
        ++ expression_list_events (expression_list_of (expressions_of exprs.now.items))) }
{
    for expr in exprs {
        add_expression(expr, found)?;
    }
    Ok(())
}

/// Adds the events of each definition of a `let`: its value, then its type, then its variable.
#[cycle(expression_events)]
fn add_lets<'a>(defs: &'a Vec<LetDef>, found: &mut Vec<Event<'a>>) -> Result<(), AllocError>
    ensures { OnOk result (events_of found.new.items ≡ events_of found.old.items
        ++ let_events (let_list_of (single_lets_of defs.now.items))) }
{
    for def in defs {
        add_expression(&def.val, found)?;
        add(Event::Uses(Kind::Type, Word::new(&def.ty)), found)?;
        add(Event::Binds(Word::new(&def.var)), found)?;
    }
    Ok(())
}

/// Ends the scope of each variable of a `let`.
fn add_let_ends<'a>(defs: &'a Vec<LetDef>, found: &mut Vec<Event<'a>>) -> Result<(), AllocError>
    ensures { OnOk result (events_of found.new.items ≡ events_of found.old.items
        ++ let_ends (let_list_of (single_lets_of defs.now.items))) }
{
    for _def in defs {
        add(Event::Closes, found)?;
    }
    Ok(())
}
