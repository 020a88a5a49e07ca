//! Internal extractors.

ghost use Rattle.std.specs.Prelude.{◌≡◌, ◌++◌, [], IfOk, List, OnOk};
ghost use Rattle.isle_ast.specs.TreeView.{definitions_of};
ghost use Rattle.isle_ast_names.specs.Tree.{Name};
ghost use Rattle.isle_ast_rules.specs.TreeView.{extractor_of};
ghost use Rattle.isle_check_environment.specs.Names.{Knows, place_of};
ghost use Rattle.isle_check_environment.specs.Views.{extractors_at};
ghost use Rattle.isle_check_declarations.specs.Views.{faults_of, term_in, term_of};
ghost use Rattle.isle_check_declarations.specs.naming.Extractors.{doubled_extractor};
ghost use Rattle.isle_check_declarations.specs.naming.Extractors.{extractor_faults_by};
ghost use Rattle.isle_check_declarations.specs.naming.Extractors.{new_template, reached};
ghost use Rattle.isle_check_declarations.specs.naming.Extractors.{template_names};
ghost use Rattle.isle_check_declarations.specs.naming.Extractors.{with_template, with_template_of};
ghost use Rattle.isle_check_declarations.specs.naming.Extractors.{wrong_extractor};
ghost use Rattle.isle_check_declarations.specs.naming.Extractors.{wrong_extractors};
ghost use Rattle.isle_check_declarations.specs.naming.Extractors.{wrong_term};

use crate::lookup::{Term, TermLookup};
use crate::naming::templates::add_unknown_terms;
use crate::{Fault, Kind, add_fault};
use isle_ast::ast::{Def, Extractor};
use isle_check_environment::names::{Names, add_text, no_names, place_of};
use isle_check_environment::parts::extractors_in;
use std::alloc::{AllocError, Global};

/// Returns the errors of internal extractors, up to the first whose term is not known: the term is
/// declared and not multi, it has no other extractor, and the terms of the template are known.
/// `terms` are those of the program. An `Err` means out of memory.
pub fn extractor_faults<'a>(
    alloc: Global,
    terms: &TermLookup,
    defs: &'a [Def],
) -> Result<Vec<Fault<'a>>, AllocError>
    ensures { IfOk result (λ found. faults_of found.items
        ≡ extractor_faults_by (term_in terms.now) (definitions_of defs.now)) }
{
    let given = extractors_in(alloc, defs)?;
    let extractors = reached(alloc, terms, &given)?;
    let mut templates = no_names(alloc);
    let mut found = Vec::new(alloc);
    add_wrong_extractors(terms, &extractors, &mut templates, &mut found)?;
    Ok(found)
}

/// Returns the extractors up to the first whose term is not known, and this one.
pub fn reached<'a>(
    alloc: Global,
    terms: &TermLookup,
    extractors: &[&'a Extractor],
) -> Result<Vec<&'a Extractor>, AllocError>
    ensures { IfOk result (λ found. extractors_at found.items
        ≡ reached (term_in terms.now) (extractors_at extractors.now)) }
{
    let mut found = Vec::new(alloc);
    for extractor in extractors {
        found.push(*extractor)?;
        if terms.lacks(extractor.term.0.as_str()) {
            return Ok(found);
        }
    }
    Ok(found)
}

/// Adds the errors of extractors, and to `templates` the terms that get an extractor, each at its
/// template.
pub fn add_wrong_extractors<'a>(
    terms: &TermLookup,
    extractors: &[&'a Extractor],
    templates: &mut Names,
    found: &mut Vec<Fault<'a>>,
) -> Result<(), AllocError>
    ensures { OnOk result ((earlier : List Name) → Knows templates.old earlier
        → Knows templates.new
        (template_names (term_in terms.now) earlier (extractors_at extractors.now))
        × (faults_of found.new.items ≡ faults_of found.old.items
        ++ wrong_extractors (term_in terms.now) earlier (extractors_at extractors.now))) }
{
    for extractor in extractors {
        add_wrong_extractor(terms, extractor, templates, found)?;
    }
    Ok(())
}

fn add_wrong_extractor<'a>(
    terms: &TermLookup,
    extractor: &'a Extractor,
    templates: &mut Names,
    found: &mut Vec<Fault<'a>>,
) -> Result<(), AllocError>
    ensures { OnOk result ((earlier : List Name) → Knows templates.old earlier
        → Knows templates.new
        (with_template (term_in terms.now) earlier (extractor_of extractor.now))
        × (faults_of found.new.items ≡ faults_of found.old.items
        ++ wrong_extractor (term_in terms.now) earlier (extractor_of extractor.now))) }
{
    let term = extractor.term.0.as_str();
    if terms.lacks(term) {
        return add_fault(
            Kind::ExtractorUnknown(&extractor.term),
            extractor.pos,
            found,
        );
    }
    add_unknown_terms(terms, &extractor.term, &extractor.template, found)?;
    add_known_extractor(terms.term(term), extractor, templates, found)
}

fn add_known_extractor<'a>(
    term: Term,
    extractor: &'a Extractor,
    templates: &mut Names,
    found: &mut Vec<Fault<'a>>,
) -> Result<(), AllocError>
    ensures { OnOk result ((earlier : List Name) → Knows templates.old earlier
        → Knows templates.new
        (with_template_of (term_of term.entry) earlier (extractor_of extractor.now))
        × (faults_of found.new.items ≡ faults_of found.old.items
        ++ wrong_term (term_of term.entry) earlier (extractor_of extractor.now))) }
{
    match term {
        Term::Unknown => Ok(()),
        Term::Variant => {
            add_fault(
                Kind::ExtractorVariant(&extractor.term),
                extractor.pos,
                found,
            )
        }
        Term::Declared(decl) if decl.multi => {
            add_fault(Kind::ExtractorMulti(&extractor.term), extractor.pos, found)
        }
        Term::Declared(_) => add_template(extractor, templates, found),
    }
}

/// Adds an extractor, or an error if its term has one.
fn add_template<'a>(
    extractor: &'a Extractor,
    templates: &mut Names,
    found: &mut Vec<Fault<'a>>,
) -> Result<(), AllocError>
    ensures { OnOk result ((earlier : List Name) → Knows templates.old earlier
        → Knows templates.new (earlier
        ++ new_template (place_of earlier (extractor_of extractor.now).term.text)
        (extractor_of extractor.now))
        × (faults_of found.new.items ≡ faults_of found.old.items
        ++ doubled_extractor (place_of earlier (extractor_of extractor.now).term.text)
        (extractor_of extractor.now))) }
{
    let term = &extractor.term;
    match place_of(templates, term.0.as_str()) {
        None => add_text(templates, term.0.clone()?, extractor.template.pos()),
        Some(before) => {
            add_fault(Kind::ExtractorAgain(term), extractor.pos, found)?;
            add_fault(Kind::ExtractorBefore(term), before, found)
        }
    }
}
