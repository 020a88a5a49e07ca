//! Lints for ISLE definitions: variables that are unused or hide others, and names of rules that
//! occur twice. The compiler accepts what they find; its errors are those of `isle-check`.
//!
//! `findings` runs some of the lints. It looks at definitions alone, and a symbol that stands alone
//! is always taken as a variable.
#![tactic(auto)]

ghost use Rattle.std.specs.Prelude.{◌≡◌, IfOk, map};
ghost use Rattle.std.specs.List.Sorted.{IsPermutation, IsSortedByKey};
ghost use Rattle.isle_base_source.specs.PositionOrder.{position_cmp};
ghost use Rattle.isle_ast.specs.TreeView.{definitions_of};
ghost use Rattle.isle_lint_core.specs.Finding.{finding_cmp, finding_of};
ghost use Rattle.isle_lint_core.specs.Findings.{findings_in, names_found};
ghost use Rattle.isle_lint_core.specs.Names.{names_at};

mod expressions;
mod finding;
mod lint;
mod names;
mod patterns;
mod rule_names;
mod rules;

pub use finding::Finding;
use finding::add;
use isle_ast::ast::{Def, Ident};
pub use lint::Lint;
pub use patterns::rule_variables;
use rule_names::repeated_rule_names;
use rules::{Asked, find_variables};
use std::alloc::{AllocError, Global};

/// Runs `lints` on `defs`. Returns the findings in order of position.
///
/// | Lint | Finds, each at its name |
/// |---|---|
/// | `unused-let` | a variable that a `let` binds and nothing uses |
/// | `duplicate-rule-name` | the name of a rule that an earlier rule has too |
/// | `unused-binding` | a variable before an `@` that nothing uses |
/// | `unused-pattern-variable` | a variable alone in a pattern that nothing uses |
/// | `shadowed-variable` | a variable that a `let` binds although it is bound already |
///
/// A name that begins with `_` is never reported. The first occurrence of a variable in a rule's
/// patterns binds it, and every later one uses it. A condition's expression comes before its
/// pattern. A definition of a `let` is in scope in the later ones and in the body. A lint that is
/// listed twice reports its findings twice. An `Err` means out of memory.
pub fn findings<'a>(
    alloc: Global,
    defs: &'a [Def],
    lints: &[Lint],
) -> Result<Vec<Finding<'a>>, AllocError>
    ensures exact { IfOk result (λ found. IsPermutation
        (findings_in lints.now (definitions_of defs.now)) (map finding_of found.items)) }
    ensures in_order { IfOk result
        (λ found. IsSortedByKey (λ finding. finding.pos) position_cmp found.items) }
    ensures ties { IfOk result (λ found. IsSortedByKey finding_of finding_cmp found.items) }
{
    let mut found = collect(alloc, defs, lints)?;
    found.sort()?;
    Ok(found)
}

/// The findings, lint by lint.
fn collect<'a>(
    alloc: Global,
    defs: &'a [Def],
    lints: &[Lint],
) -> Result<Vec<Finding<'a>>, AllocError>
    ensures { IfOk result (λ found. map finding_of found.items
        ≡ findings_in lints.now (definitions_of defs.now)) }
{
    let mut found = Vec::new(alloc);
    for lint in lints {
        add(&mut found, *lint, &find_names(alloc, defs, *lint)?)?;
    }
    Ok(found)
}

/// The names that a lint finds, those that begin with `_` included.
fn find_names(alloc: Global, defs: &[Def], lint: Lint) -> Result<Vec<&Ident>, AllocError>
    ensures { IfOk result
        (λ found. names_at found.items ≡ names_found lint (definitions_of defs.now)) }
{
    match lint {
        Lint::UnusedLet => find_variables(alloc, defs, Asked::UnusedLets),
        Lint::DuplicateRuleName => repeated_rule_names(alloc, defs),
        Lint::UnusedBinding => find_variables(alloc, defs, Asked::UnusedBindings),
        Lint::UnusedPatternVariable => find_variables(alloc, defs, Asked::UnusedPatternVariables),
        Lint::ShadowedVariable => find_variables(alloc, defs, Asked::ShadowedVariables),
    }
}
