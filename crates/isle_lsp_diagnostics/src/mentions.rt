//! Where a rule mentions its variables.

ghost use Rattle.std.specs.Prelude.{◌≡◌, ◌++◌, [], IfOk, List, OnOk, option_map};
ghost use Rattle.isle_ast_names.specs.Tree.{Name};
ghost use Rattle.isle_ast_names.specs.TreeView.{name_of};
ghost use Rattle.isle_ast_rules.specs.TreeView.{conditions_of, expression_list_of, expression_of};
ghost use Rattle.isle_ast_rules.specs.TreeView.{expressions_of, let_list_of, rule_of};
ghost use Rattle.isle_ast_rules.specs.TreeView.{single_lets_of};
ghost use Rattle.isle_check_environment.specs.Names.{Knows, or_else};
ghost use Rattle.isle_lint_core.specs.Names.{names_at};
ghost use Rattle.isle_lsp_diagnostics.specs.Hints as hints;
ghost use Rattle.isle_lsp_diagnostics.specs.Hovers as wanted;

use isle_ast::ast::{Expr, Ident, IfLet, LetDef, Rule};
use isle_check_environment::names::{Names, add_name, has, no_names};
use isle_lint_core::rule_variables;
use std::alloc::{AllocError, Global};

/// The first mention of each variable in a rule's patterns: those of the left side, and then those
/// of each condition, in the order of the text. An `Err` means out of memory.
pub fn first_mentions(alloc: Global, rule: &Rule) -> Result<Vec<&Ident>, AllocError>
    ensures { IfOk result
        (λ names. names_at names.items ≡ hints.first_mentions (rule_of rule.now)) }
{
    let names = rule_variables(alloc, rule)?;
    first_ones(alloc, &names)
}

/// The names that no name before them is equal to, by text.
fn first_ones<'a>(alloc: Global, names: &[&'a Ident]) -> Result<Vec<&'a Ident>, AllocError>
    ensures { IfOk result
        (λ found. names_at found.items ≡ hints.first_ones [] (names_at names.now)) }
{
    let mut found = Vec::new(alloc);
    let mut earlier = no_names(alloc);
    for name in names {
        add_unless_among(&earlier, name, &mut found)?;
        add_name(&mut earlier, name)?;
    }
    Ok(found)
}

/// Adds a name, unless an earlier one has its text.
fn add_unless_among<'a>(
    earlier: &Names,
    name: &'a Ident,
    found: &mut Vec<&'a Ident>,
) -> Result<(), AllocError>
    ensures { OnOk result ((known : List Name) → Knows earlier.now known
        → names_at found.new.items ≡ names_at found.old.items
        ++ hints.unless_among known (name_of name.now)) }
{
    if !has(earlier, name.0.as_str()) {
        found.push(name)?;
    }
    Ok(())
}

/// The variable that a rule mentions at an offset, or right before it: in a pattern, or in an
/// expression, unless a `let` binds it there. An `Err` means out of memory.
#[tactic(auto, unfolding(crate::specs::Hovers::mention_at))]
pub fn mention_at<'a>(
    alloc: Global,
    rule: &'a Rule,
    offset: usize,
) -> Result<Option<&'a Ident>, AllocError>
    ensures { IfOk result (λ found. option_map (λ n. name_of n.now) found
        ≡ wanted.mention_at offset (rule_of rule.now)) }
{
    let names = rule_variables(alloc, rule)?;
    let used = use_after(&rule.iflets, &rule.expr, offset);
    Ok(either(name_at(&names, offset), used))
}

/// The first of these names that covers an offset.
fn name_at<'a>(names: &[&'a Ident], offset: usize) -> Option<&'a Ident>
    ensures { option_map (λ n. name_of n.now) result
        ≡ wanted.name_at offset (names_at names.now) }
{
    for name in names {
        if covers(name, offset) {
            return Some(*name);
        }
    }
    None
}

/// Returns whether an offset is at a byte of a name or right behind its last one.
fn covers(name: &Ident, offset: usize) -> bool
    ensures { result ≡ wanted.covers offset (name_of name.now) }
{
    name.1.offset <= offset && offset - name.1.offset <= name.0.len()
}

/// The variable that the conditions' expressions, or the right side, use at an offset.
fn use_after<'a>(conditions: &'a [IfLet], expr: &'a Expr, offset: usize) -> Option<&'a Ident>
    ensures { option_map (λ n. name_of n.now) result
        ≡ wanted.use_after offset (conditions_of conditions.now) (expression_of expr.now) }
{
    for condition in conditions {
        if let Some(name) = use_at(&condition.expr, offset) {
            return Some(name);
        }
    }
    use_at(expr, offset)
}

/// The variable that an expression uses at an offset and that none of its `let`s binds.
#[cycle(uses)]
fn use_at<'a>(expr: &'a Expr, offset: usize) -> Option<&'a Ident>
    ensures { option_map (λ n. name_of n.now) result
        ≡ wanted.use_at offset (expression_of expr.now) }
{
    match expr {
        Expr::Term { args, .. } => list_use_at(args, offset),
        Expr::Var { name, .. } => name_if_at(name, offset),
        Expr::Let { defs, body, .. } => {
            let body = use_at(body, offset);
            let_use_at(defs, body, offset)
        }
        Expr::ConstBool { .. } | Expr::ConstInt { .. } | Expr::ConstPrim { .. } => None,
    }
}

#[cycle(uses)]
fn list_use_at<'a>(exprs: &'a Vec<Expr>, offset: usize) -> Option<&'a Ident>
    ensures { option_map (λ n. name_of n.now) result
        ≡ wanted.list_use_at offset (expression_list_of (expressions_of exprs.now.items)) }
{
    for expr in exprs {
        if let Some(name) = use_at(expr, offset) {
            return Some(name);
        }
    }
    None
}

/// The variable that a `let` uses at an offset. `body` is the one that its body does.
#[cycle(uses)]
fn let_use_at<'a>(
    defs: &'a Vec<LetDef>,
    body: Option<&'a Ident>,
    offset: usize,
) -> Option<&'a Ident>
    ensures { option_map (λ n. name_of n.now) result
        ≡ wanted.let_use_at offset (let_list_of (single_lets_of defs.now.items))
        (option_map (λ n. name_of n.now) body.entry) }
{
    let mut found = body;
    for at in (0..defs.len()).rev() {
        let value = use_at(&defs[at].val, offset);
        found = either(value, unless_hidden(&defs[at].var, found));
    }
    found
}

/// The first name, or the second one if there is none.
fn either<'a>(first: Option<&'a Ident>, second: Option<&'a Ident>) -> Option<&'a Ident>
    ensures { option_map (λ n. name_of n.now) result
        ≡ or_else (option_map (λ n. name_of n.now) first.entry)
        (option_map (λ n. name_of n.now) second.entry) }
{
    match first {
        Some(name) => Some(name),
        None => second,
    }
}

/// The name, if it covers an offset.
fn name_if_at(name: &Ident, offset: usize) -> Option<&Ident>
    ensures { option_map (λ n. name_of n.now) result
        ≡ wanted.name_if_at offset (name_of name.now) }
{
    if covers(name, offset) {
        return Some(name);
    }
    None
}

/// The name, unless a variable of a `let` has the same text.
fn unless_hidden<'a>(by: &Ident, name: Option<&'a Ident>) -> Option<&'a Ident>
    ensures { option_map (λ n. name_of n.now) result ≡ wanted.unless_hidden (name_of by.now)
        (option_map (λ n. name_of n.now) name.entry) }
{
    match name {
        Some(name) if by.0.as_str() != name.0.as_str() => Some(name),
        _ => None,
    }
}
