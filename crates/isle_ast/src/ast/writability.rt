//! The trees that can be written as text and read back: the conditions on each node, tested node by
//! node. Positions play no part. Nothing is printed, and nothing is allocated.

ghost use Rattle.std.specs.Prelude.{◌≡◌, ◌↔◌, IsTrue};
ghost use Rattle.isle_ast.specs.TreeView.{definition_of, definitions_of};
ghost use Rattle.isle_ast.specs.Writable.{AreWritable, IsWritable};
ghost use Rattle.isle_ast.specs.WritableDeciders.{are_writable, is_writable};

mod models;
mod terms;
mod types;

use crate::ast::Def;
use isle_ast_rules::writability::rules;
use isle_ast_verification::writability::specs;

/// Returns whether every definition can be written as text and read back. An empty list can.
pub fn writable(defs: &[Def]) -> bool
    ensures { IsTrue result ↔ AreWritable (definitions_of defs.now) }
{
    are_writable(defs)
}

impl Def {
    /// Returns whether the definition can be written as text and read back.
    pub fn is_writable(&self) -> bool
        ensures { IsTrue result ↔ IsWritable (definition_of self.now) }
    {
        is_writable_definition(self)
    }
}

fn are_writable(defs: &[Def]) -> bool
    ensures { result ≡ are_writable (definitions_of defs.now) }
{
    defs.iter().all(is_writable_definition)
}

fn is_writable_definition(def: &Def) -> bool
    ensures { result ≡ is_writable (definition_of def.now) }
{
    match def {
        Def::Pragma(pragma) => match *pragma {},
        Def::TypeDef(def) => types::is_writable_type(def),
        Def::Rule(rule) => rules::is_writable_rule(rule),
        Def::Extractor(extractor) => rules::is_writable_extractor(extractor),
        Def::Decl(decl) => terms::is_writable_decl(decl),
        Def::Attr(attr) => terms::is_writable_attr(attr),
        Def::Spec(spec) => specs::is_writable_definition(spec),
        Def::SpecMacro(spec_macro) => specs::is_writable_macro(spec_macro),
        Def::Model(model) => models::is_writable_definition(model),
        Def::State(state) => specs::is_writable_state(state),
        Def::Form(form) => models::is_writable_form(form),
        Def::Instantiation(instantiation) => models::is_writable_instantiation(instantiation),
        Def::Extern(definition) => terms::is_writable_extern(definition),
        Def::Converter(converter) => terms::is_writable_converter(converter),
    }
}
