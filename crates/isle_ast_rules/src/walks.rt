//! Walks over the tree: which nodes are, or contain, a macro argument. Macro arguments have no
//! syntax, so a tree that contains one can't be printed. The modules below walk over the terms of
//! patterns and expressions, and inspect single nodes. No walk allocates.

ghost use Rattle.std.specs.Prelude.{◌≡◌};
ghost use Rattle.isle_ast_rules.specs.MacroArgs.{condition_has_macro_arg, extractor_has_macro_arg};
ghost use Rattle.isle_ast_rules.specs.MacroArgs.{has_macro_arg, have_macro_arg, rule_has_macro_arg};
ghost use Rattle.isle_ast_rules.specs.TreeView.{condition_of, extractor_of, pattern_of};
ghost use Rattle.isle_ast_rules.specs.TreeView.{pattern_list_of, patterns_of, rule_of};

mod nodes;
mod terms;

use crate::{Extractor, IfLet, Pattern, Rule};

impl Rule {
    /// Returns whether a pattern of the rule is, or contains, a macro argument.
    pub fn has_macro_arg(&self) -> bool
        ensures { result ≡ rule_has_macro_arg (rule_of self.now) }
    {
        self.pattern.has_macro_arg() || self.iflets.iter().any(|iflet| iflet.has_macro_arg())
    }
}

impl IfLet {
    /// Returns whether the pattern is, or contains, a macro argument.
    pub fn has_macro_arg(&self) -> bool
        ensures { result ≡ condition_has_macro_arg (condition_of self.now) }
    {
        self.pattern.has_macro_arg()
    }
}

impl Extractor {
    /// Returns whether the template is, or contains, a macro argument.
    pub fn has_macro_arg(&self) -> bool
        ensures { result ≡ extractor_has_macro_arg (extractor_of self.now) }
    {
        self.template.has_macro_arg()
    }
}

impl Pattern {
    /// Returns whether the pattern is, or contains, a macro argument.
    pub fn has_macro_arg(&self) -> bool
        ensures { result ≡ has_macro_arg (pattern_of self.now) }
    {
        holds_macro_arg(self)
    }
}

/// Returns whether a pattern is, or contains, a macro argument.
#[cycle(macro_arg)]
fn holds_macro_arg(pattern: &Pattern) -> bool
    ensures { result ≡ has_macro_arg (pattern_of pattern.now) }
{
    match pattern {
        Pattern::BindPattern { subpat, .. } => holds_macro_arg(subpat),
        Pattern::Term { args, .. } => any_holds_macro_arg(args),
        Pattern::And { subpats, .. } => any_holds_macro_arg(subpats),
        Pattern::MacroArg { .. } => true,
        Pattern::Var { .. }
        | Pattern::ConstBool { .. }
        | Pattern::ConstInt { .. }
        | Pattern::ConstPrim { .. }
        | Pattern::Wildcard { .. } => false,
    }
}

#[cycle(macro_arg)]
fn any_holds_macro_arg(patterns: &Vec<Pattern>) -> bool
    ensures { result ≡ have_macro_arg (pattern_list_of (patterns_of patterns.now.items)) }
{
    for pattern in patterns {
        if holds_macro_arg(pattern) {
            return true;
        }
    }
    false
}
