//! The search for the first misuse.

ghost use Rattle.std.specs.Prelude.{◌≡◌, ◌∷◌, ◌<◌, ◌^◌, IfOk, Some, length, map, option_map};
ghost use Rattle.std.specs.Prelude.{slice_get};
ghost use Rattle.isle_ast.specs.Tree.{extractor};
ghost use Rattle.isle_ast.specs.TreeView.{definition_of, definitions_of};
ghost use Rattle.isle_ast_names.specs.TreeView.{name_of};
ghost use Rattle.isle_ast_rules.specs.TreeView.{extractor_of};
ghost use Rattle.isle_expand_core.specs.Macros.{MacroNode, macro_in, macros_in};
ghost use Rattle.isle_expand_core.specs.Mentions.{definition_mentions, mentions};
ghost use Rattle.isle_expand_core.specs.Mentions.{place_after, uses};
ghost use Rattle.isle_expand_warnings.specs.First.{first};
ghost use Rattle.isle_expand_core.specs.Search.{macro_misuse, mention_misuse, use_misuse};
ghost use Rattle.isle_expand_core.specs.Views.{begun_of, misuse_of, use_of, uses_of};

use crate::macros::{Template, place_of};
use crate::mentions::{TermUse, rule_uses, uses};
use crate::misuse::Misuse;
use isle_ast::ast::{Def, Extractor};
use std::alloc::{AllocError, Global};

/// Finds the first misuse in definitions. `templates` are those of their extractors, and `ends`
/// says for each template whether its expansion ends.
pub fn first_misuse(
    alloc: Global,
    defs: &[Def],
    templates: &[Template],
    ends: &[bool],
) -> Result<Option<Misuse>, AllocError>
    requires templates { map begun_of templates.now ≡ macros_in (definitions_of defs.now) }
    requires ends { length ends.now ≡ length templates.now }
    ensures { IfOk result
        (λ found. option_map misuse_of found
        ≡ first (mention_misuse (map begun_of templates.now) ends.now)
        (mentions 0 (definitions_of defs.now))) }
{
    let mut place = 0;
    for def in defs {
        if let Some(misuse) = definition_misuse(alloc, def, place, templates, ends)? {
            return Ok(Some(misuse));
        }
        place = place_after(def, place);
    }
    Ok(None)
}

/// Returns the index of the first extractor after a definition.
fn place_after(def: &Def, place: usize) -> usize
    requires { place_after place (definition_of def.now) < 2 ^ 64 }
    ensures { result ≡ place_after place (definition_of def.now) }
{
    match def {
        Def::Extractor(_) => place + 1,
        _ => place,
    }
}

/// Finds the first misuse in a definition. If it is an extractor, `place` is its index.
fn definition_misuse(
    alloc: Global,
    def: &Def,
    place: usize,
    templates: &[Template],
    ends: &[bool],
) -> Result<Option<Misuse>, AllocError>
    requires template { (m : MacroNode) → macro_in (definition_of def.now) ≡ Some m
        → slice_get (map begun_of templates.now) place ≡ Some m }
    requires ends { length ends.now ≡ length templates.now }
    ensures { IfOk result
        (λ found. option_map misuse_of found
        ≡ first (mention_misuse (map begun_of templates.now) ends.now)
        (definition_mentions place (definition_of def.now))) }
{
    match def {
        Def::Rule(rule) => first_use_misuse(&rule_uses(alloc, rule)?, templates, ends),
        Def::Extractor(extractor) => extractor_misuse(alloc, extractor, place, templates, ends),
        _ => Ok(None),
    }
}

/// Finds the first misuse in an extractor: its term already has one, or the template has a misuse.
fn extractor_misuse(
    alloc: Global,
    given: &Extractor,
    place: usize,
    templates: &[Template],
    ends: &[bool],
) -> Result<Option<Misuse>, AllocError>
    requires template { slice_get (map begun_of templates.now) place
        ≡ macro_in (extractor (extractor_of given.now)) }
    requires ends { length ends.now ≡ length templates.now }
    ensures { IfOk result
        (λ found. option_map misuse_of found
        ≡ first (mention_misuse (map begun_of templates.now) ends.now)
        (definition_mentions place (extractor (extractor_of given.now)))) }
{
    match place_of(&given.term, templates) {
        Some(first) if first == place => {
            template_misuse(alloc, &templates[place], templates, ends)
        }
        _ => Ok(Some(Misuse::Again {
            term: given.term.clone()?,
            pos: given.pos,
        })),
    }
}

fn template_misuse(
    alloc: Global,
    template: &Template,
    templates: &[Template],
    ends: &[bool],
) -> Result<Option<Misuse>, AllocError>
    requires ends { length ends.now ≡ length templates.now }
    ensures { IfOk result
        (λ found. option_map misuse_of found
        ≡ first (use_misuse (map begun_of templates.now) ends.now)
        (uses (begun_of template.now).template)) }
{
    first_use_misuse(&uses(alloc, &template.pattern)?, templates, ends)
}

/// Finds the first misuse among uses.
fn first_use_misuse(
    uses: &[TermUse],
    templates: &[Template],
    ends: &[bool],
) -> Result<Option<Misuse>, AllocError>
    requires ends { length ends.now ≡ length templates.now }
    ensures { IfOk result
        (λ found. option_map misuse_of found
        ≡ first (use_misuse (map begun_of templates.now) ends.now) (uses_of uses.now)) }
{
    for term_use in uses {
        if let Some(misuse) = misuse_of(term_use, templates, ends)? {
            return Ok(Some(misuse));
        }
    }
    Ok(None)
}

/// Returns the misuse that a use is, if it is one.
fn misuse_of(
    term_use: &TermUse,
    templates: &[Template],
    ends: &[bool],
) -> Result<Option<Misuse>, AllocError>
    requires ends { length ends.now ≡ length templates.now }
    ensures { IfOk result
        (λ found. option_map misuse_of found
        ≡ use_misuse (map begun_of templates.now) ends.now (use_of term_use.now)) }
{
    match place_of(term_use.term, templates) {
        Some(place) => macro_misuse(term_use, &templates[place], ends[place]),
        None => Ok(None),
    }
}

/// Returns the misuse that a use of an extractor is, if it is one. `end` says whether the
/// extractor's expansion ends.
fn macro_misuse(
    term_use: &TermUse,
    template: &Template,
    end: bool,
) -> Result<Option<Misuse>, AllocError>
    ensures { IfOk result
        (λ found. option_map misuse_of found
        ≡ macro_misuse (use_of term_use.now) end (Some (begun_of template.now))) }
{
    let expected = template.extractor.args.len();
    if term_use.given != expected {
        return Ok(Some(Misuse::Arguments {
            term: term_use.term.clone()?,
            pos: term_use.pos,
            expected,
            given: term_use.given,
        }));
    }
    if end {
        return Ok(None);
    }
    Ok(Some(Misuse::Cycle {
        term: term_use.term.clone()?,
        pos: term_use.pos,
    }))
}
