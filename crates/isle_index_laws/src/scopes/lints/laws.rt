//! Laws of lints, which run no code.

ghost use Rattle.std.specs.Prelude.{◌↔◌, List, Contains};
ghost use Rattle.isle_ast.specs.Tree.{Definition};
ghost use Rattle.isle_ast_names.specs.Tree.{Name};
ghost use Rattle.isle_ast_rules.specs.Tree.{Expression, RuleDefinition};
ghost use Rattle.isle_lint_core.specs.Finding.{Found};
ghost use Rattle.isle_lint_core.specs.Findings.{findings_in, of_rules};
ghost use Rattle.isle_lint_core.specs.Shadowed.{shadowed_variables};
ghost use Rattle.isle_lint_core.specs.Unused.{rule_idle, unused_lets};
ghost use Rattle.isle_lint_core.specs.declared.lint.Lint.{Lint};
ghost use Rattle.isle_lint_core.specs.declared.patterns.Wanted.{Wanted};
ghost use Rattle.isle_index_laws.specs.scopes.lints.Finds.{IsFinding};
ghost use Rattle.isle_index_laws.specs.scopes.lints.Lets.{IsShadowing, IsUnusedLet};
ghost use Rattle.isle_index_laws.specs.scopes.lints.Patterns.{IsIdle};
ghost use Rattle.isle_index_laws.specs.scopes.lints.Rules.{HasExpression};
ghost use Rattle.isle_index_laws.specs.scopes.lints.Unread.{HasNamesApart, IsOfLet, IsUnread};
ghost use Rattle.isle_index_laws.specs.scopes.lints.Unread.{IsWrittenOnce};
ghost use Rattle.isle_index_laws.specs.scopes.Reads.{Reads, RuleReads};

/// A law, which runs no code: what a rule reads is what its expressions read, each in its scope.
pub fn reads_of_rules_are_those_of_expressions()
    ensures { (r : RuleDefinition) (name : Name) (visible : List Name)
        → RuleReads r name visible ↔ ((x : Expression) × (scope : List Name)
        × HasExpression r x scope × Reads scope x name visible) }
{}

/// A law, which runs no code: a variable is among the unused ones of `let`s exactly if a `let` in
/// the rule binds it, and nothing after its definition reads it.
pub fn unused_lets_are_never_read()
    ensures { (r : RuleDefinition) (name : Name)
        → Contains (unused_lets r) name ↔ IsUnusedLet r name }
{}

/// A law, which runs no code: a variable is among the unused ones of patterns exactly if it is
/// one of the wanted kind, occurs once in the patterns of the rule, and nothing reads it.
pub fn unused_pattern_variables_are_never_read()
    ensures { (w : Wanted) (r : RuleDefinition) (name : Name)
        → Contains (rule_idle w r) name ↔ IsIdle w r name }
{}

/// A law, which runs no code: a variable is among the shadowed ones exactly if a `let` in the rule
/// binds it where its text means another variable.
pub fn shadowed_variables_hide_others()
    ensures { (r : RuleDefinition) (name : Name)
        → Contains (shadowed_variables r) name ↔ IsShadowing r name }
{}

/// A law, which runs no code: what the lints find in definitions is what they look for, and all of
/// it, but for names that begin with `_`.
pub fn lints_find_what_they_look_for()
    ensures { (ls : List Lint) (ds : List Definition) (f : Found)
        → Contains (findings_in ls ds) f ↔ (Contains ls f.lint × IsFinding ds f) }
{}

/// A law, which runs no code: in a program whose names stand apart, `unused-let` finds a name
/// exactly if a `let` in a rule binds it and no rule reads a variable that means it. The names of
/// every program that is parsed stand apart.
pub fn unused_lets_are_those_that_no_rule_reads()
    ensures { (ds : List Definition) (name : Name) → HasNamesApart ds
        → Contains (of_rules unused_lets ds) name ↔ (IsOfLet ds name × IsUnread ds name) }
{}

/// A law, which runs no code: in such a program the lints of pattern variables find a name exactly
/// if it is a wanted one, occurs once in the patterns of its rule, and no rule reads a variable
/// that means it.
pub fn unused_pattern_variables_are_those_that_no_rule_reads()
    ensures { (w : Wanted) (ds : List Definition) (name : Name) → HasNamesApart ds
        → Contains (of_rules (rule_idle w) ds) name
        ↔ (IsWrittenOnce w ds name × IsUnread ds name) }
{}
