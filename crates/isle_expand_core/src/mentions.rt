//! The terms of patterns, each with its number of arguments.

ghost use Rattle.std.specs.Prelude.{◌≡◌, IfOk};
ghost use Rattle.isle_ast_names.specs.TreeView.{name_of};
ghost use Rattle.isle_ast_rules.specs.TreeView.{pattern_of, pattern_list_of, patterns_of, rule_of};
ghost use Rattle.isle_expand_core.specs.Collected.{collected, root_collected, list_collected};
ghost use Rattle.isle_expand_core.specs.Collected.{with_term};
ghost use Rattle.isle_expand_core.specs.Mentions.{rule_uses, uses};
ghost use Rattle.isle_expand_core.specs.Views.{uses_of};

use isle_ast::ast::{Ident, Pattern, Rule};
use isle_base::lexer::Pos;
use std::alloc::{AllocError, Global};

/// A term in a pattern.
#[derive(Clone, Copy)]
pub struct TermUse<'p> {
    /// Its symbol.
    pub term: &'p Ident,
    /// How many arguments it has.
    pub given: usize,
    pub pos: Pos,
}

/// Returns the terms of a pattern, in the order in which they are written.
pub fn uses<'p>(alloc: Global, pattern: &'p Pattern) -> Result<Vec<TermUse<'p>>, AllocError>
    ensures { IfOk result (λ found. uses_of found.items ≡ uses (pattern_of pattern.now)) }
{
    let mut found = Vec::new(alloc);
    add_uses(pattern, &mut found)?;
    Ok(found)
}

/// Returns the terms in the patterns of a rule, without its root.
pub fn rule_uses<'p>(alloc: Global, rule: &'p Rule) -> Result<Vec<TermUse<'p>>, AllocError>
    ensures { IfOk result (λ found. uses_of found.items ≡ rule_uses (rule_of rule.now)) }
{
    let mut found = Vec::new(alloc);
    add_root_uses(&rule.pattern, &mut found)?;
    for condition in &rule.iflets {
        add_uses(&condition.pattern, &mut found)?;
    }
    Ok(found)
}

/// Adds the terms below the root of a rule, if the root is a term.
fn add_root_uses<'p>(pattern: &'p Pattern, found: &mut Vec<TermUse<'p>>) -> Result<(), AllocError>
    ensures { IfOk result
        (λ _. uses_of found.new.items
        ≡ root_collected (pattern_of pattern.now) (uses_of found.old.items)) }
{
    match pattern {
        Pattern::Term { args, .. } => add_list_uses(args, found),
        _ => Ok(()),
    }
}

#[cycle(add_uses)]
fn add_uses<'p>(pattern: &'p Pattern, found: &mut Vec<TermUse<'p>>) -> Result<(), AllocError>
    ensures { IfOk result
        (λ _. uses_of found.new.items
        ≡ collected (pattern_of pattern.now) (uses_of found.old.items)) }
{
    match pattern {
        Pattern::BindPattern { subpat, .. } => add_uses(subpat, found),
        Pattern::Term { sym, args, pos } => {
            add_term(sym, args, *pos, found)?;
            add_list_uses(args, found)
        }
        Pattern::And { subpats, .. } => add_list_uses(subpats, found),
        Pattern::Var { .. }
        | Pattern::ConstBool { .. }
        | Pattern::ConstInt { .. }
        | Pattern::ConstPrim { .. }
        | Pattern::Wildcard { .. }
        | Pattern::MacroArg { .. } => Ok(()),
    }
}

fn add_term<'p>(
    term: &'p Ident,
    args: &Vec<Pattern>,
    pos: Pos,
    found: &mut Vec<TermUse<'p>>,
) -> Result<(), AllocError>
    ensures { IfOk result
        (λ _. uses_of found.new.items
        ≡ with_term (uses_of found.old.items) (name_of term.now)
        (pattern_list_of (patterns_of args.now.items)) pos) }
{
    let given = args.len();
    found.push(TermUse { term, given, pos })?;
    Ok(())
}

#[cycle(add_uses)]
fn add_list_uses<'p>(
    patterns: &'p Vec<Pattern>,
    found: &mut Vec<TermUse<'p>>,
) -> Result<(), AllocError>
    ensures { IfOk result
        (λ _. uses_of found.new.items
        ≡ list_collected (pattern_list_of (patterns_of patterns.now.items))
        (uses_of found.old.items)) }
{
    for pattern in patterns {
        add_uses(pattern, found)?;
    }
    Ok(())
}
