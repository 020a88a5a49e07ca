//! The terms that rules define.

ghost use Rattle.std.specs.Prelude.{◌≡◌, ◌++◌, IfOk, OnOk};
ghost use Rattle.isle_ast.specs.TreeView.{definitions_of};
ghost use Rattle.isle_ast_names.specs.TreeView.{name_of};
ghost use Rattle.isle_ast_rules.specs.TreeView.{rule_of};
ghost use Rattle.isle_check_environment.specs.Views.{rules_at};
ghost use Rattle.isle_check_declarations.specs.Views.{faults_of, term_in, term_of};
ghost use Rattle.isle_check_declarations.specs.naming.Roots.{root_faults_by, wrong_root};
ghost use Rattle.isle_check_declarations.specs.naming.Roots.{wrong_root_term};
ghost use Rattle.isle_check_declarations.specs.naming.Roots.{wrong_roots};

use crate::lookup::{Term, TermLookup};
use crate::{Fault, Kind, add_fault};
use isle_ast::ast::{Def, Ident, Rule};
use isle_base::lexer::Pos;
use isle_check_environment::parts::rules_in;
use std::alloc::{AllocError, Global};

/// Returns the errors of the left sides of rules: each is a term that is declared, not a variant.
/// `terms` are those of the program. An `Err` means out of memory.
pub fn root_faults<'a>(
    alloc: Global,
    terms: &TermLookup,
    defs: &'a [Def],
) -> Result<Vec<Fault<'a>>, AllocError>
    ensures { IfOk result (λ found. faults_of found.items
        ≡ root_faults_by (term_in terms.now) (definitions_of defs.now)) }
{
    let rules = rules_in(alloc, defs)?;
    let mut found = Vec::new(alloc);
    add_wrong_roots(terms, &rules, &mut found)?;
    Ok(found)
}

fn add_wrong_roots<'a>(
    terms: &TermLookup,
    rules: &[&'a Rule],
    found: &mut Vec<Fault<'a>>,
) -> Result<(), AllocError>
    ensures { OnOk result (faults_of found.new.items
        ≡ faults_of found.old.items ++ wrong_roots (term_in terms.now) (rules_at rules.now)) }
{
    for rule in rules {
        add_wrong_root(terms, rule, found)?;
    }
    Ok(())
}

fn add_wrong_root<'a>(
    terms: &TermLookup,
    rule: &'a Rule,
    found: &mut Vec<Fault<'a>>,
) -> Result<(), AllocError>
    ensures { OnOk result (faults_of found.new.items
        ≡ faults_of found.old.items ++ wrong_root (term_in terms.now) (rule_of rule.now)) }
{
    match rule.pattern.root_term() {
        None => add_fault(Kind::RootNoTerm, rule.pos, found),
        Some(root) => add_wrong_root_term(terms.term(root.0.as_str()), root, rule.pos, found),
    }
}

fn add_wrong_root_term<'a>(
    term: Term,
    root: &'a Ident,
    pos: Pos,
    found: &mut Vec<Fault<'a>>,
) -> Result<(), AllocError>
    ensures { OnOk result (faults_of found.new.items ≡ faults_of found.old.items
        ++ wrong_root_term (term_of term.entry) (name_of root.now) pos) }
{
    match term {
        Term::Unknown => add_fault(Kind::RootUnknown(root), pos, found),
        Term::Variant => add_fault(Kind::RootVariant(root), pos, found),
        Term::Declared(_) => Ok(()),
    }
}
