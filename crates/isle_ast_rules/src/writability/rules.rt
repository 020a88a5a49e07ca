//! The rules and extractors that can be written as text and read back.

ghost use Rattle.std.specs.Prelude.{◌≡◌, map};
ghost use Rattle.std.specs.List.{list_all};
ghost use Rattle.isle_ast_names.specs.TreeView.{optional_name_of};
ghost use Rattle.isle_ast_rules.specs.WritableDeciders.{is_optional_signed};
ghost use Rattle.isle_ast_rules.specs.WritableDeciders.{is_writable_condition};
ghost use Rattle.isle_ast_rules.specs.WritableDeciders.{is_writable_extractor, is_writable_rule};
ghost use Rattle.isle_ast_rules.specs.RuleGrammar.{is_if_expression, pattern_is_no_head};
ghost use Rattle.isle_ast_rules.specs.TreeView.{condition_of, expression_of, extractor_of};
ghost use Rattle.isle_ast_rules.specs.TreeView.{pattern_of, rule_of};

use crate::writability::expressions::is_writable_expr;
use crate::writability::patterns::is_writable_pattern;
use crate::{Expr, Extractor, IfLet, Pattern, Rule};
use isle_ast_names::writability::{are_names, is_name, is_optional_name};

/// Returns whether a rule is writable.
pub fn is_writable_rule(rule: &Rule) -> bool
    ensures { result ≡ is_writable_rule (rule_of rule.now) }
{
    is_optional_name(&rule.name)
        && is_priority(rule.prio)
        && is_writable_pattern(&rule.pattern)
        && are_writable_conditions(&rule.iflets)
        && is_writable_expr(&rule.expr)
        && pattern_is_no_head(rule)
        && !is_if_expression(&rule.expr)
}

/// Every priority of the type can be written.
fn is_priority(_prio: Option<i64>) -> bool
    ensures { result ≡ is_optional_signed 63 _prio }
{
    true
}

fn are_writable_conditions(iflets: &[IfLet]) -> bool
    ensures { result ≡ list_all is_writable_condition (map condition_of iflets.now) }
{
    iflets.iter().all(is_writable_condition)
}

fn is_writable_condition(iflet: &IfLet) -> bool
    ensures { result ≡ is_writable_condition (condition_of iflet.now) }
{
    is_writable_pattern(&iflet.pattern) && is_writable_expr(&iflet.expr)
}

/// Returns whether the pattern can't be mistaken for a name or a priority that the rule lacks.
/// Without a priority it must not be an integer, and without a name and a priority it must be a
/// term or an `and`.
fn pattern_is_no_head(rule: &Rule) -> bool
    ensures { result
        ≡ pattern_is_no_head
        (optional_name_of rule.now.name) rule.now.prio (pattern_of rule.now.pattern) }
{
    if rule.prio.is_some() {
        true
    } else if rule.name.is_some() {
        !matches!(rule.pattern, Pattern::ConstInt { .. })
    } else {
        matches!(rule.pattern, Pattern::Term { .. } | Pattern::And { .. })
    }
}

/// Returns whether an expression is a term named `if`, which would be read as a condition.
fn is_if_expression(expr: &Expr) -> bool
    ensures { result ≡ is_if_expression (expression_of expr.now) }
{
    match expr {
        Expr::Term { sym, .. } => sym.0.as_str() == "if",
        _ => false,
    }
}

/// Returns whether an extractor is writable.
pub fn is_writable_extractor(extractor: &Extractor) -> bool
    ensures { result ≡ is_writable_extractor (extractor_of extractor.now) }
{
    is_name(&extractor.term)
        && are_names(&extractor.args)
        && is_writable_pattern(&extractor.template)
}
