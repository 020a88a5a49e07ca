//! The terms of templates.

ghost use Rattle.std.specs.Prelude.{◌≡◌, ◌++◌, OnOk};
ghost use Rattle.isle_ast_names.specs.TreeView.{name_of};
ghost use Rattle.isle_ast_rules.specs.TermHeads.{heads, list_heads};
ghost use Rattle.isle_ast_rules.specs.TreeView.{pattern_list_of, pattern_of, patterns_of};
ghost use Rattle.isle_check_declarations.specs.Views.{faults_of, term_in};
ghost use Rattle.isle_check_declarations.specs.naming.Extractors.{unknown_term_at, unknown_terms};

use crate::lookup::TermLookup;
use crate::{Fault, Kind, add_fault};
use isle_ast::ast::{Ident, Pattern};
use isle_base::lexer::Pos;
use std::alloc::AllocError;

/// Adds an error for each term of a pattern that is not known.
#[cycle(unknown_terms)]
pub fn add_unknown_terms<'a>(
    terms: &TermLookup,
    extractor: &'a Ident,
    pattern: &'a Pattern,
    found: &mut Vec<Fault<'a>>,
) -> Result<(), AllocError>
    ensures { OnOk result (faults_of found.new.items ≡ faults_of found.old.items
        ++ unknown_terms (term_in terms.now) (name_of extractor.now)
        (heads (pattern_of pattern.now))) }
{
    match pattern {
        Pattern::BindPattern { subpat, .. } => add_unknown_terms(terms, extractor, subpat, found),
        Pattern::Term { sym, args, pos } => {
            add_unknown_term(terms, extractor, sym, *pos, found)?;
            add_unknown_terms_of(terms, extractor, args, found)
        }
        Pattern::And { subpats, .. } => add_unknown_terms_of(terms, extractor, subpats, found),
        Pattern::Var { .. }
        | Pattern::ConstBool { .. }
        | Pattern::ConstInt { .. }
        | Pattern::ConstPrim { .. }
        | Pattern::Wildcard { .. }
        | Pattern::MacroArg { .. } => Ok(()),
    }
}

#[cycle(unknown_terms)]
fn add_unknown_terms_of<'a>(
    terms: &TermLookup,
    extractor: &'a Ident,
    patterns: &'a Vec<Pattern>,
    found: &mut Vec<Fault<'a>>,
) -> Result<(), AllocError>
    ensures { OnOk result (faults_of found.new.items ≡ faults_of found.old.items
        ++ unknown_terms (term_in terms.now) (name_of extractor.now)
        (list_heads (pattern_list_of (patterns_of patterns.now.items)))) }
{
    for pattern in patterns {
        add_unknown_terms(terms, extractor, pattern, found)?;
    }
    Ok(())
}

fn add_unknown_term<'a>(
    terms: &TermLookup,
    extractor: &'a Ident,
    term: &'a Ident,
    pos: Pos,
    found: &mut Vec<Fault<'a>>,
) -> Result<(), AllocError>
    ensures { OnOk result (faults_of found.new.items ≡ faults_of found.old.items
        ++ unknown_term_at (term_in terms.now) (name_of extractor.now) (pos, name_of term.now)) }
{
    if terms.lacks(term.0.as_str()) {
        add_fault(Kind::TemplateUnknown { term, extractor }, pos, found)?;
    }
    Ok(())
}
