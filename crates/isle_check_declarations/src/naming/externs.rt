//! External constructors and extractors.

ghost use Rattle.std.specs.Prelude.{◌≡◌, ◌++◌, [], IfOk, List, OnOk};
ghost use Rattle.std.specs.Option.{option_map};
ghost use Rattle.isle_ast.specs.TreeView.{definitions_of, extern_of};
ghost use Rattle.isle_ast_names.specs.Tree.{Name};
ghost use Rattle.isle_ast_names.specs.TreeView.{name_of};
ghost use Rattle.isle_check_environment.specs.Names.{Knows, has, place_of};
ghost use Rattle.isle_check_environment.specs.Views.{externs_at};
ghost use Rattle.isle_check_declarations.specs.Views.{faults_of, kind_of, term_in, term_of};
ghost use Rattle.isle_check_declarations.specs.naming.Externs.{constructor_kind, doubled_external};
ghost use Rattle.isle_check_declarations.specs.naming.Externs.{extern_faults_by, known_by};
ghost use Rattle.isle_check_declarations.specs.naming.Externs.{new_external};
ghost use Rattle.isle_check_declarations.specs.naming.Externs.{with_constructor};
ghost use Rattle.isle_check_declarations.specs.naming.Externs.{with_extern_constructor};
ghost use Rattle.isle_check_declarations.specs.naming.Externs.{with_extern_extractor};
ghost use Rattle.isle_check_declarations.specs.naming.Externs.{with_extractor};
ghost use Rattle.isle_check_declarations.specs.naming.Externs.{wrong_constructor, wrong_extern};
ghost use Rattle.isle_check_declarations.specs.naming.Externs.{wrong_externs, wrong_extractor};
ghost use Rattle.isle_check_declarations.specs.naming.Views.{known_of};

use crate::lookup::{Term, TermLookup};
use crate::naming::extractors::{add_wrong_extractors, reached};
use crate::{Fault, Kind, add_fault};
use isle_ast::ast::{Def, Extern, Ident};
use isle_base::lexer::Pos;
use isle_check_environment::names::{Names, add_text, has, no_names, place_of};
use isle_check_environment::parts::extractors_in;
use isle_check_environment::terms::{externs_in, ruled_terms};
use std::alloc::{AllocError, Global};

/// What external definitions are checked by.
#[derive(Drop)]
pub struct Known<'t, 'a> {
    /// The terms.
    pub terms: &'t TermLookup<'a>,
    /// The terms that have rules.
    pub ruled: Names,
    /// The terms that have an internal extractor, each at its template.
    pub templates: Names,
}

/// Returns the errors of external constructors and extractors: their terms are declared, a term
/// with a constructor has neither rules nor another one, and a term with an extractor has no other
/// one, internal or external. `terms` are those of the program. An `Err` means out of memory.
pub fn extern_faults<'a>(
    alloc: Global,
    terms: &TermLookup,
    defs: &'a [Def],
) -> Result<Vec<Fault<'a>>, AllocError>
    ensures { IfOk result (λ found. faults_of found.items
        ≡ extern_faults_by (term_in terms.now) (definitions_of defs.now)) }
{
    let known = gathered(alloc, terms, defs)?;
    let externs = externs_in(alloc, defs)?;
    wrong_externs(alloc, &known, &externs)
}

fn gathered<'t, 'a>(
    alloc: Global,
    terms: &'t TermLookup<'a>,
    defs: &[Def],
) -> Result<Known<'t, 'a>, AllocError>
    ensures { IfOk result
        (λ k. known_of k ≡ known_by (term_in terms.now) (definitions_of defs.now)) }
{
    let ruled = ruled_terms(alloc, defs)?;
    let given = extractors_in(alloc, defs)?;
    let extractors = reached(alloc, terms, &given)?;
    let mut templates = no_names(alloc);
    let mut found = Vec::new(alloc);
    add_wrong_extractors(terms, &extractors, &mut templates, &mut found)?;
    Ok(Known {
        terms,
        ruled,
        templates,
    })
}

fn wrong_externs<'a>(
    alloc: Global,
    known: &Known,
    externs: &[&'a Extern],
) -> Result<Vec<Fault<'a>>, AllocError>
    ensures { IfOk result (λ found. faults_of found.items
        ≡ wrong_externs (known_of known.now) [] [] (externs_at externs.now)) }
{
    let mut constructors = no_names(alloc);
    let mut extractors = no_names(alloc);
    let mut found = Vec::new(alloc);
    for item in externs {
        add_wrong_extern(known, item, &mut constructors, &mut extractors, &mut found)?;
    }
    Ok(found)
}

/// Adds the errors of an external definition, or its term to `constructors` or `extractors`.
fn add_wrong_extern<'a>(
    known: &Known,
    item: &'a Extern,
    constructors: &mut Names,
    extractors: &mut Names,
    found: &mut Vec<Fault<'a>>,
) -> Result<(), AllocError>
    ensures { OnOk result ((built taken : List Name) → Knows constructors.old built
        → Knows extractors.old taken
        → Knows constructors.new
        (with_extern_constructor (known_of known.now) built (extern_of item.now))
        × Knows extractors.new
        (with_extern_extractor (known_of known.now) taken (extern_of item.now))
        × (faults_of found.new.items ≡ faults_of found.old.items
        ++ wrong_extern (known_of known.now) built taken (extern_of item.now))) }
{
    match item {
        Extern::Constructor { term, pos, .. } => {
            add_wrong_constructor(known, term, *pos, constructors, found)
        }
        Extern::Extractor { term, pos, .. } => {
            add_wrong_extractor(known, term, *pos, extractors, found)
        }
        Extern::Const { .. } => Ok(()),
    }
}

fn add_wrong_constructor<'a>(
    known: &Known,
    term: &'a Ident,
    pos: Pos,
    constructors: &mut Names,
    found: &mut Vec<Fault<'a>>,
) -> Result<(), AllocError>
    ensures { OnOk result ((earlier : List Name) → Knows constructors.old earlier
        → Knows constructors.new
        (with_constructor (known_of known.now) earlier (name_of term.now) pos)
        × (faults_of found.new.items ≡ faults_of found.old.items
        ++ wrong_constructor (known_of known.now) earlier (name_of term.now) pos)) }
{
    match constructor_kind(known, constructors, term) {
        Some(kind) => add_fault(kind, pos, found),
        None => add_text(constructors, term.0.clone()?, pos),
    }
}

/// Returns what is wrong with an external constructor of a term.
fn constructor_kind<'a>(known: &Known, earlier: &Names, term: &'a Ident) -> Option<Kind<'a>>
    ensures { (names : List Name) → Knows earlier.now names
        → option_map kind_of result
        ≡ constructor_kind (known_of known.now) names (name_of term.now) }
{
    match known.terms.term(term.0.as_str()) {
        Term::Unknown => Some(Kind::ConstructorUnknown(term)),
        Term::Variant => Some(Kind::ConstructorVariant(term)),
        Term::Declared(_) => {
            if has(&known.ruled, term.0.as_str()) {
                return Some(Kind::ConstructorRuled(term));
            }
            if has(earlier, term.0.as_str()) {
                return Some(Kind::ConstructorAgain(term));
            }
            None
        }
    }
}

fn add_wrong_extractor<'a>(
    known: &Known,
    term: &'a Ident,
    pos: Pos,
    extractors: &mut Names,
    found: &mut Vec<Fault<'a>>,
) -> Result<(), AllocError>
    ensures { OnOk result ((earlier : List Name) → Knows extractors.old earlier
        → Knows extractors.new
        (with_extractor (known_of known.now) earlier (name_of term.now) pos)
        × (faults_of found.new.items ≡ faults_of found.old.items
        ++ wrong_extractor (known_of known.now) earlier (name_of term.now) pos)) }
{
    match known.terms.term(term.0.as_str()) {
        Term::Unknown => add_fault(Kind::ExternalUnknown(term), pos, found),
        Term::Variant => add_fault(Kind::ExternalVariant(term), pos, found),
        Term::Declared(_) => {
            let internal = place_of(&known.templates, term.0.as_str());
            let external = place_of(extractors, term.0.as_str());
            add_external(internal, external, term, pos, extractors, found)
        }
    }
}

/// Adds an external extractor, or an error if its term has an internal or an external one.
fn add_external<'a>(
    internal: Option<Pos>,
    external: Option<Pos>,
    term: &'a Ident,
    pos: Pos,
    extractors: &mut Names,
    found: &mut Vec<Fault<'a>>,
) -> Result<(), AllocError>
    ensures { OnOk result ((earlier : List Name) → Knows extractors.old earlier
        → Knows extractors.new (earlier ++ new_external internal external (name_of term.now) pos)
        × (faults_of found.new.items ≡ faults_of found.old.items
        ++ doubled_external internal external (name_of term.now) pos)) }
{
    match (internal, external) {
        (Some(before), _) => {
            add_fault(Kind::ExternalInternal(term), pos, found)?;
            add_fault(Kind::InternalBefore(term), before, found)
        }
        (None, Some(before)) => {
            add_fault(Kind::ExternalAgain(term), pos, found)?;
            add_fault(Kind::ExternalBefore(term), before, found)
        }
        (None, None) => add_text(extractors, term.0.clone()?, pos),
    }
}
