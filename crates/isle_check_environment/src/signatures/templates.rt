//! The templates of internal extractors.

ghost use Rattle.std.specs.Prelude.{◌≡◌, ◌++◌, ◌∷◌, [], IfOk, List, OnOk, false, string_bytes};
ghost use Rattle.std.specs.List.{flat_map};
ghost use Rattle.isle_ast.specs.MacroArgs.{definition_has_macro_arg, definitions_have_macro_arg};
ghost use Rattle.isle_ast.specs.TreeView.{definition_of, definitions_of};
ghost use Rattle.isle_ast_rules.specs.Tree.{PatternNode};
ghost use Rattle.isle_ast_rules.specs.TreeView.{pattern_of};
ghost use Rattle.isle_check_environment.specs.signatures.Entries.{Entry, Holds, entry};
ghost use Rattle.isle_check_environment.specs.signatures.Signatures.{template_entry};

use crate::by_text::ByText;
use isle_ast::ast::{Def, Pattern};
use std::alloc::{AllocError, Global};

/// Returns the template of each term that has an internal extractor: its pattern, in which macro
/// arguments stand for the parameters. If a term has two, the last one counts. An `Err` means out
/// of memory.
pub fn templates(alloc: Global, defs: &[Def]) -> Result<ByText<Pattern>, AllocError>
    requires { definitions_have_macro_arg (definitions_of defs.now) ≡ false }
    ensures { IfOk result (λ templates. Holds pattern_of templates
        (flat_map template_entry (definitions_of defs.now))) }
{
    let mut templates = no_templates(alloc);
    for def in defs {
        add_template(alloc, def, &mut templates)?;
    }
    Ok(templates)
}

fn no_templates(alloc: Global) -> ByText<Pattern>
    ensures { Holds pattern_of result [] }
{
    ByText::new(alloc)
}

fn add_template(alloc: Global, def: &Def, templates: &mut ByText<Pattern>) -> Result<(), AllocError>
    requires { definition_has_macro_arg (definition_of def.now) ≡ false }
    ensures { OnOk result ((entries : List (Entry PatternNode))
        → Holds pattern_of templates.old entries
        → Holds pattern_of templates.new (entries ++ template_entry (definition_of def.now))) }
{
    match def {
        Def::Extractor(extractor) => {
            let template = extractor
                .template
                .make_macro_template(alloc, &extractor.args)?;
            put_template(templates, extractor.term.0.clone()?, template)
        }
        _ => Ok(()),
    }
}

fn put_template(
    templates: &mut ByText<Pattern>,
    name: String,
    template: Pattern,
) -> Result<(), AllocError>
    ensures { OnOk result ((entries : List (Entry PatternNode))
        → Holds pattern_of templates.old entries
        → Holds pattern_of templates.new
        (entries ++ entry (string_bytes name) (pattern_of template) ∷ [])) }
{
    templates.insert(name, template)?;
    Ok(())
}
