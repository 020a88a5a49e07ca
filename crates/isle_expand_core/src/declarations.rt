//! The declarations of terms that only an extractor defines.

ghost use Rattle.std.specs.Prelude.{◌≡◌};
ghost use Rattle.std.specs.List.{list_any};
ghost use Rattle.isle_ast.specs.TreeView.{declaration_of, definition_of, definitions_of, extern_of};
ghost use Rattle.isle_ast_names.specs.TreeView.{name_of};
ghost use Rattle.isle_ast_rules.specs.TreeView.{pattern_of};
ghost use Rattle.isle_expand_core.specs.Definitions.{defines, has_root, is_only_extracted};
ghost use Rattle.isle_expand_core.specs.Definitions.{is_outside};
ghost use Rattle.isle_expand_core.specs.Views.{macros_of};

use crate::macros::{Macro, find_macro};
use isle_ast::ast::{Decl, Def, Extern, Ident, Pattern};
use isle_expand_warnings::variants::has_variant;

/// Returns whether a macro, and no other definition, defines the declared term.
pub fn is_only_extracted(decl: &Decl, defs: &[Def], macros: &[Macro]) -> bool
    ensures { result
        ≡ is_only_extracted (definitions_of defs.now) (macros_of macros.now)
        (declaration_of decl.now) }
{
    find_macro(&decl.term, macros).is_some() && !is_defined(&decl.term, defs)
}

/// Returns whether one of the definitions defines a term in another way than by an extractor.
fn is_defined(term: &Ident, defs: &[Def]) -> bool
    ensures { result ≡ list_any (defines (name_of term.now).text) (definitions_of defs.now) }
{
    for def in defs {
        if defines(term, def) {
            return true;
        }
    }
    false
}

/// Returns whether a definition defines a term in another way than by an extractor.
fn defines(term: &Ident, def: &Def) -> bool
    ensures { result ≡ defines (name_of term.now).text (definition_of def.now) }
{
    match def {
        Def::Rule(rule) => has_root(term, &rule.pattern),
        Def::Extern(outside) => is_outside(term, outside),
        Def::TypeDef(type_def) => has_variant(term, type_def),
        _ => false,
    }
}

/// Returns whether a pattern is a term with this symbol.
fn has_root(term: &Ident, pattern: &Pattern) -> bool
    ensures { result ≡ has_root (name_of term.now).text (pattern_of pattern.now) }
{
    match pattern {
        Pattern::Term { sym, .. } => sym.0 == term.0,
        _ => false,
    }
}

/// Returns whether an `extern` defines a term.
fn is_outside(term: &Ident, outside: &Extern) -> bool
    ensures { result ≡ is_outside (name_of term.now).text (extern_of outside.now) }
{
    match outside {
        Extern::Extractor { term: sym, .. } | Extern::Constructor { term: sym, .. } => {
            sym.0 == term.0
        }
        Extern::Const { .. } => false,
    }
}
