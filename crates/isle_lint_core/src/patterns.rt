//! The variables of patterns.

ghost use Rattle.std.specs.Prelude.{◌≡◌, ◌++◌, IfOk, OnOk};
ghost use Rattle.isle_ast_rules.specs.TreeView.{conditions_of, pattern_of, pattern_list_of};
ghost use Rattle.isle_ast_rules.specs.TreeView.{patterns_of, rule_of};
ghost use Rattle.isle_lint_core.specs.Names.{names_at};
ghost use Rattle.isle_lint_core.specs.Variables.{condition_variables, list_variables};
ghost use Rattle.isle_lint_core.specs.Variables.{rule_variables, variables};

use crate::names::add_if;
use isle_ast::ast::{Ident, IfLet, Pattern, Rule};
use std::alloc::{AllocError, Global};

/// Which variables of a pattern to list.
#[derive(Clone, Copy)]
pub struct Wanted {
    /// Those that are patterns of their own.
    pub alone: bool,
    /// Those before an `@`.
    pub bindings: bool,
}

pub const ALL: Wanted = Wanted {
    alone: true,
    bindings: true,
};

/// The variables of all patterns of a rule, those of its conditions included, once for each
/// occurrence, in source order. An `Err` means out of memory.
pub fn rule_variables(alloc: Global, rule: &Rule) -> Result<Vec<&Ident>, AllocError>
    ensures { IfOk result (λ names. names_at names.items ≡ rule_variables (rule_of rule.now)) }
{
    let mut names = variables(alloc, &rule.pattern, ALL)?;
    add_condition_variables(&rule.iflets, &mut names)?;
    Ok(names)
}

/// The wanted variables of a pattern, once for each occurrence, in source order.
pub fn variables(
    alloc: Global,
    pattern: &Pattern,
    wanted: Wanted,
) -> Result<Vec<&Ident>, AllocError>
    ensures { IfOk result
        (λ names. names_at names.items ≡ variables wanted (pattern_of pattern.now)) }
{
    let mut names = Vec::new(alloc);
    add_variables(pattern, wanted, &mut names)?;
    Ok(names)
}

fn add_condition_variables<'a>(
    conditions: &'a [IfLet],
    names: &mut Vec<&'a Ident>,
) -> Result<(), AllocError>
    ensures { OnOk result (names_at names.new.items
        ≡ names_at names.old.items ++ condition_variables (conditions_of conditions.now)) }
{
    for condition in conditions {
        add_variables(&condition.pattern, ALL, names)?;
    }
    Ok(())
}

#[cycle(variables)]
pub fn add_variables<'a>(
    pattern: &'a Pattern,
    wanted: Wanted,
    names: &mut Vec<&'a Ident>,
) -> Result<(), AllocError>
    ensures { OnOk result (names_at names.new.items
        ≡ names_at names.old.items ++ variables wanted (pattern_of pattern.now)) }
{
    match pattern {
        Pattern::Var { var, .. } => add_if(wanted.alone, var, names)?,
        Pattern::BindPattern { var, subpat, .. } => {
            add_if(wanted.bindings, var, names)?;
            add_variables(subpat, wanted, names)?;
        }
        Pattern::Term { args, .. } => add_list_variables(args, wanted, names)?,
        Pattern::And { subpats, .. } => add_list_variables(subpats, wanted, names)?,
        Pattern::ConstBool { .. }
        | Pattern::ConstInt { .. }
        | Pattern::ConstPrim { .. }
        | Pattern::Wildcard { .. }
        | Pattern::MacroArg { .. } => {}
    }
    Ok(())
}

#[cycle(variables)]
fn add_list_variables<'a>(
    patterns: &'a Vec<Pattern>,
    wanted: Wanted,
    names: &mut Vec<&'a Ident>,
) -> Result<(), AllocError>
    ensures { OnOk result (names_at names.new.items
        ≡ names_at names.old.items
        ++ list_variables wanted (pattern_list_of (patterns_of patterns.now.items))) }
{
    for pattern in patterns {
        add_variables(pattern, wanted, names)?;
    }
    Ok(())
}
