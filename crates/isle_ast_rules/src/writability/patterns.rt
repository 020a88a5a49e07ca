//! The patterns that can be written as text and read back.

ghost use Rattle.std.specs.Prelude.{◌≡◌};
ghost use Rattle.isle_ast_names.specs.TreeView.{name_of};
ghost use Rattle.isle_ast_names.specs.WritableDeciders.{is_signed};
ghost use Rattle.isle_ast_rules.specs.TreeView.{pattern_of, pattern_list_of, patterns_of};
ghost use Rattle.isle_ast_rules.specs.WritableDeciders.{are_writable_patterns, is_pattern_variable};
ghost use Rattle.isle_ast_rules.specs.WritableDeciders.{is_writable_pattern};

use crate::Pattern;
use crate::writability::names::is_expression_variable;
use isle_ast_names::Ident;
use isle_ast_names::writability::{is_constant_name, is_name, is_whole_number};

/// Returns whether a pattern is writable.
#[cycle(writable)]
pub(super) fn is_writable_pattern(pattern: &Pattern) -> bool
    ensures { result ≡ is_writable_pattern (pattern_of pattern.now) }
{
    match pattern {
        Pattern::Var { var, .. } => is_pattern_variable(var),
        Pattern::BindPattern { var, subpat, .. } => {
            is_pattern_variable(var) && is_writable_pattern(subpat)
        }
        Pattern::ConstInt { val, .. } => is_whole_number(*val),
        Pattern::ConstPrim { val, .. } => is_constant_name(val),
        Pattern::Term { sym, args, .. } => {
            is_name(sym) && sym.0.as_str() != "and" && are_writable_patterns(args)
        }
        Pattern::And { subpats, .. } => are_writable_patterns(subpats),
        Pattern::MacroArg { .. } => false,
        Pattern::ConstBool { .. } | Pattern::Wildcard { .. } => true,
    }
}

#[cycle(writable)]
fn are_writable_patterns(patterns: &Vec<Pattern>) -> bool
    ensures { result ≡ are_writable_patterns (pattern_list_of (patterns_of patterns.now.items)) }
{
    for pattern in patterns {
        if !is_writable_pattern(pattern) {
            return false;
        }
    }
    true
}

/// Returns whether a variable of a pattern can have this name.
fn is_pattern_variable(name: &Ident) -> bool
    ensures { result ≡ is_pattern_variable (name_of name.now) }
{
    is_expression_variable(name) && name.0.as_str() != "_"
}
