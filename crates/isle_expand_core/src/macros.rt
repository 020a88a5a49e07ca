//! Extractors as macros: their templates, and the expansions of these.

ghost use Rattle.std.specs.Prelude.{◌≡◌, ◌<◌, IfOk, IfSome, false, length, map, option_map};
ghost use Rattle.isle_ast.specs.MacroArgs.{definitions_have_macro_arg};
ghost use Rattle.isle_ast.specs.TreeView.{definitions_of};
ghost use Rattle.isle_ast_names.specs.TreeView.{name_of};
ghost use Rattle.isle_ast_rules.specs.TreeView.{pattern_of};
ghost use Rattle.isle_expand_core.specs.Expansion.{expand};
ghost use Rattle.isle_expand_core.specs.Macros.{macros_in, meant, place_of};
ghost use Rattle.isle_expand_core.specs.Order.{expand_place, expand_places};
ghost use Rattle.isle_expand_core.specs.Views.{begun_of, macro_of, macros_of};

use crate::patterns::{Refusal, expand};
use isle_ast::ast::{Def, Extractor, Ident, Pattern};
use std::alloc::{AllocError, Global};

/// An extractor with its template, in which macro arguments stand for the parameters.
#[derive(Drop)]
pub struct Template<'a> {
    pub extractor: &'a Extractor,
    pub pattern: Pattern,
}

/// The macro that an extractor defines.
#[derive(Drop)]
pub struct Macro<'a> {
    /// The extractor's term.
    pub term: &'a Ident,
    /// How many parameters it has.
    pub arity: usize,
    /// Its template, not expanded.
    pub template: &'a Pattern,
    /// Its expanded template, once it is known.
    pub expansion: Option<Pattern>,
}

/// Returns the templates of the extractors among the definitions, in order.
pub fn templates(alloc: Global, defs: &[Def]) -> Result<Vec<Template<'_>>, AllocError>
    requires { definitions_have_macro_arg (definitions_of defs.now) ≡ false }
    ensures { IfOk result
        (λ found. map begun_of found.items ≡ macros_in (definitions_of defs.now)) }
{
    let mut found = Vec::new(alloc);
    for def in defs {
        if let Def::Extractor(extractor) = def {
            let pattern = extractor
                .template
                .make_macro_template(alloc, &extractor.args)?;
            found.push(Template { extractor, pattern })?;
        }
    }
    Ok(found)
}

/// Returns the index of the first extractor with this name.
pub fn place_of(sym: &Ident, templates: &[Template]) -> Option<usize>
    ensures place { result ≡ place_of (name_of sym.now).text (map begun_of templates.now) }
    ensures within { IfSome result (λ place. place < length templates.now) }
{
    for (place, template) in templates.iter().enumerate() {
        if template.extractor.term.0 == sym.0 {
            return Some(place);
        }
    }
    None
}

/// Expands the templates at these indices, in this order.
pub fn expansions<'t, 'a>(
    alloc: Global,
    templates: &'t [Template<'a>],
    order: &[usize],
) -> Result<Vec<Macro<'t>>, AllocError>
    ensures { IfOk result
        (λ macros. macros_of macros.items ≡ expand_places order.now (map begun_of templates.now)) }
{
    let mut macros = unexpanded_macros(alloc, templates)?;
    for place in order {
        expand_place(alloc, &mut macros, *place)?;
    }
    Ok(macros)
}

/// Expands the template at an index, by the expansions that are known. Out of range, does nothing.
fn expand_place(alloc: Global, macros: &mut Vec<Macro>, place: usize) -> Result<(), AllocError>
    ensures { IfOk result
        (λ _. macros_of macros.new.items
        ≡ expand_place place (macros_of macros.old.items) (macros_of macros.old.items)) }
{
    if place < macros.len() {
        let made = expansion(macros[place].template, alloc, macros)?;
        macros[place].expansion = made;
    }
    Ok(())
}

/// Expands a template. Returns `None` if an expansion that it needs is not known.
fn expansion(
    template: &Pattern,
    alloc: Global,
    macros: &[Macro],
) -> Result<Option<Pattern>, AllocError>
    ensures { IfOk result
        (λ made. option_map pattern_of made
        ≡ expand (pattern_of template.now) (macros_of macros.now)) }
{
    match expand(template, alloc, macros) {
        Ok(made) => Ok(Some(made)),
        Err(Refusal::Use) => Ok(None),
        Err(Refusal::Memory) => Err(AllocError),
    }
}

/// Makes the macros of templates. No expansion is known yet.
fn unexpanded_macros<'t, 'a>(
    alloc: Global,
    templates: &'t [Template<'a>],
) -> Result<Vec<Macro<'t>>, AllocError>
    ensures { IfOk result (λ macros. macros_of macros.items ≡ map begun_of templates.now) }
{
    let mut macros = Vec::with_capacity(alloc, templates.len())?;
    for template in templates {
        macros.push(Macro {
            term: &template.extractor.term,
            arity: template.extractor.args.len(),
            template: &template.pattern,
            expansion: None,
        })?;
    }
    Ok(macros)
}

/// Returns the first macro with this name.
pub fn find_macro<'m, 'a>(sym: &Ident, macros: &'m [Macro<'a>]) -> Option<&'m Macro<'a>>
    ensures { option_map (λ known. macro_of known.now) result
        ≡ meant (name_of sym.now).text (macros_of macros.now) }
{
    for known in macros {
        if known.term.0 == sym.0 {
            return Some(known);
        }
    }
    None
}
