//! The variables of rules: which are unused or shadowed.

ghost use Rattle.std.specs.Prelude.{◌≡◌, ◌++◌, IfOk, OnOk, count_by, ◌==◌};
ghost use Rattle.std.specs.List.{flat_map};
ghost use Rattle.std.specs.Str.{bytes_eq};
ghost use Rattle.isle_ast.specs.TreeView.{definitions_of};
ghost use Rattle.isle_ast_rules.specs.TreeView.{conditions_of, expression_of, rule_of};
ghost use Rattle.isle_lint_core.specs.Findings.{asked_of, of_rules};
ghost use Rattle.isle_lint_core.specs.Names.{names_at};
ghost use Rattle.isle_lint_core.specs.Shadowed.{conditions_shadowed, shadowed_variables};
ghost use Rattle.isle_lint_core.specs.Unused.{conditions_idle, idle, is_idle, rule_idle};
ghost use Rattle.isle_lint_core.specs.Unused.{unused, unused_lets};
ghost use Rattle.isle_lint_core.specs.Uses.{uses_after};
ghost use Rattle.isle_lint_core.specs.Variables.{condition_variables};

use crate::expressions::{add_shadowed, add_unused, uses};
use crate::names::add_if;
use crate::patterns::{ALL, Wanted, add_variables, rule_variables, variables};
use isle_ast::ast::{Def, Expr, Ident, IfLet, Rule};
use std::alloc::{AllocError, Global};

/// Which variables of rules to find.
#[derive(Clone, Copy)]
pub enum Asked {
    /// Those that a `let` binds and nothing uses.
    UnusedLets,
    /// Those before an `@` that nothing uses.
    UnusedBindings,
    /// Those alone in a pattern that nothing uses.
    UnusedPatternVariables,
    /// Those that a `let` binds although they are bound already.
    ShadowedVariables,
}

const BINDINGS: Wanted = Wanted {
    alone: false,
    bindings: true,
};

const ALONE: Wanted = Wanted {
    alone: true,
    bindings: false,
};

pub fn find_variables(alloc: Global, defs: &[Def], asked: Asked) -> Result<Vec<&Ident>, AllocError>
    ensures { IfOk result (λ found. names_at found.items
        ≡ of_rules (asked_of asked) (definitions_of defs.now)) }
{
    let mut found = Vec::new(alloc);
    for def in defs {
        if let Def::Rule(rule) = def {
            add_asked(alloc, rule, asked, &mut found)?;
        }
    }
    Ok(found)
}

/// Adds those of one rule.
fn add_asked<'a>(
    alloc: Global,
    rule: &'a Rule,
    asked: Asked,
    found: &mut Vec<&'a Ident>,
) -> Result<(), AllocError>
    ensures { OnOk result (names_at found.new.items
        ≡ names_at found.old.items ++ asked_of asked (rule_of rule.now)) }
{
    match asked {
        Asked::UnusedLets => add_unused_lets(rule, found),
        Asked::UnusedBindings => add_rule_idle(alloc, rule, BINDINGS, found),
        Asked::UnusedPatternVariables => add_rule_idle(alloc, rule, ALONE, found),
        Asked::ShadowedVariables => add_shadowed_variables(alloc, rule, found),
    }
}

/// Adds the wanted variables of the rule's patterns that nothing uses.
fn add_rule_idle<'a>(
    alloc: Global,
    rule: &'a Rule,
    wanted: Wanted,
    found: &mut Vec<&'a Ident>,
) -> Result<(), AllocError>
    ensures { OnOk result (names_at found.new.items
        ≡ names_at found.old.items ++ rule_idle wanted (rule_of rule.now)) }
{
    let written = rule_variables(alloc, rule)?;
    let own = variables(alloc, &rule.pattern, wanted)?;
    add_idle(&written, &own, &rule.iflets, &rule.expr, found)?;
    add_conditions_idle(alloc, &written, wanted, &rule.iflets, &rule.expr, found)
}

/// Adds the wanted variables of the conditions' patterns that nothing uses.
fn add_conditions_idle<'a>(
    alloc: Global,
    written: &[&Ident],
    wanted: Wanted,
    conditions: &'a [IfLet],
    expr: &Expr,
    found: &mut Vec<&'a Ident>,
) -> Result<(), AllocError>
    ensures { OnOk result (names_at found.new.items ≡ names_at found.old.items
        ++ conditions_idle wanted (names_at written.now) (conditions_of conditions.now)
        (expression_of expr.now)) }
{
    for (i, condition) in conditions.iter().enumerate() {
        let own = variables(alloc, &condition.pattern, wanted)?;
        add_idle(written, &own, &conditions[i + 1..], expr, found)?;
    }
    Ok(())
}

/// Adds those of a pattern's `own` variables that occur once in the rule's patterns, and that no
/// expression after the pattern uses.
fn add_idle<'a>(
    written: &[&Ident],
    own: &[&'a Ident],
    after: &[IfLet],
    expr: &Expr,
    found: &mut Vec<&'a Ident>,
) -> Result<(), AllocError>
    ensures { OnOk result (names_at found.new.items ≡ names_at found.old.items
        ++ idle (names_at written.now) (names_at own.now)
        (uses_after (conditions_of after.now) (expression_of expr.now))) }
{
    for name in own {
        let is_idle = is_idle(written, after, expr, name.0.as_str());
        add_if(is_idle, name, found)?;
    }
    Ok(())
}

/// Returns whether a variable occurs once in the rule's patterns, and no expression after its
/// pattern uses it.
fn is_idle(written: &[&Ident], after: &[IfLet], expr: &Expr, name: &str) -> bool
    ensures { result ≡ is_idle (names_at written.now)
        (uses_after (conditions_of after.now) (expression_of expr.now)) name.now }
{
    is_single(written, name) && !uses_after(after, expr, name)
}

/// Returns whether a name occurs once.
fn is_single(written: &[&Ident], text: &str) -> bool
    ensures { result
        ≡ (count_by (λ name. bytes_eq name.text text.now) (names_at written.now) == 1) }
{
    written
        .iter()
        .filter(|name| name.0.as_str() == text)
        .count()
        == 1
}

/// Returns whether the expression of one of the conditions, or `expr`, uses a variable.
fn uses_after(after: &[IfLet], expr: &Expr, name: &str) -> bool
    ensures { result ≡ uses_after (conditions_of after.now) (expression_of expr.now) name.now }
{
    for condition in after {
        if uses(&condition.expr, name) {
            return true;
        }
    }
    uses(expr, name)
}

/// Adds the variables that a `let` in the rule binds and nothing uses.
fn add_unused_lets<'a>(rule: &'a Rule, found: &mut Vec<&'a Ident>) -> Result<(), AllocError>
    ensures { OnOk result (names_at found.new.items
        ≡ names_at found.old.items ++ unused_lets (rule_of rule.now)) }
{
    add_conditions_unused(&rule.iflets, found)?;
    add_unused(&rule.expr, found)
}

fn add_conditions_unused<'a>(
    conditions: &'a [IfLet],
    found: &mut Vec<&'a Ident>,
) -> Result<(), AllocError>
    ensures { OnOk result (names_at found.new.items
        ≡ names_at found.old.items
        ++ flat_map (λ c. unused c.expr) (conditions_of conditions.now)) }
{
    for condition in conditions {
        add_unused(&condition.expr, found)?;
    }
    Ok(())
}

/// Adds the variables that a `let` in the rule binds although they are bound already.
fn add_shadowed_variables<'a>(
    alloc: Global,
    rule: &'a Rule,
    found: &mut Vec<&'a Ident>,
) -> Result<(), AllocError>
    ensures { OnOk result (names_at found.new.items
        ≡ names_at found.old.items ++ shadowed_variables (rule_of rule.now)) }
{
    let mut bound = variables(alloc, &rule.pattern, ALL)?;
    add_conditions_shadowed(&rule.iflets, &mut bound, found)?;
    add_shadowed(&rule.expr, &mut bound, found)
}

/// Adds the variables that a `let` in the conditions binds although they are bound already. Adds
/// those of the conditions' patterns to `bound`.
fn add_conditions_shadowed<'a>(
    conditions: &'a [IfLet],
    bound: &mut Vec<&'a Ident>,
    found: &mut Vec<&'a Ident>,
) -> Result<(), AllocError>
    ensures added { OnOk result (names_at found.new.items ≡ names_at found.old.items
        ++ conditions_shadowed (conditions_of conditions.now) (names_at bound.old.items)) }
    ensures bound { OnOk result (names_at bound.new.items
        ≡ names_at bound.old.items ++ condition_variables (conditions_of conditions.now)) }
{
    for condition in conditions {
        add_shadowed(&condition.expr, bound, found)?;
        add_variables(&condition.pattern, ALL, bound)?;
    }
    Ok(())
}
