//! Macro arguments in a definition, and the full name of a variant. Macro arguments have no syntax,
//! so a tree that contains one can't be printed.

ghost use Rattle.std.specs.Prelude.{◌≡◌, IfOk};
ghost use Rattle.isle_ast_names.specs.TreeView.{name_of};
ghost use Rattle.isle_ast.specs.MacroArgs.{definition_has_macro_arg};
ghost use Rattle.isle_ast.specs.Roots.{full_name};
ghost use Rattle.isle_ast.specs.TreeView.{definition_of};

use crate::ast::{Def, Variant};
use isle_ast_names::Ident;
use std::alloc::{AllocError, Global};

impl Def {
    /// Returns whether a pattern of the definition is, or contains, a macro argument.
    pub fn has_macro_arg(&self) -> bool
        ensures { result ≡ definition_has_macro_arg (definition_of self.now) }
    {
        match self {
            Def::Rule(rule) => rule.has_macro_arg(),
            Def::Extractor(extractor) => extractor.has_macro_arg(),
            Def::Pragma(_)
            | Def::TypeDef(_)
            | Def::Decl(_)
            | Def::Attr(_)
            | Def::Spec(_)
            | Def::SpecMacro(_)
            | Def::Model(_)
            | Def::State(_)
            | Def::Form(_)
            | Def::Instantiation(_)
            | Def::Extern(_)
            | Def::Converter(_) => false,
        }
    }
}

impl Variant {
    /// The full name of an enum's variant: the enum's name, a dot and the variant's name, at the
    /// position of the variant's name.
    pub fn full_name(
        alloc: Global,
        enum_name: &Ident,
        variant_name: &Ident,
    ) -> Result<Ident, AllocError>
        ensures { IfOk result
            (λ name. name_of name ≡ full_name (name_of enum_name.now) (name_of variant_name.now)) }
    {
        let text = format!(in alloc; "{}.{}", enum_name.0, variant_name.0)?;
        Ok(Ident(text, variant_name.1))
    }
}
