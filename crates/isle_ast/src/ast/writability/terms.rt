//! The declarations, attributes, external terms and conversions that can be written as text and
//! read back.

ghost use Rattle.std.specs.Prelude.{◌≡◌, ◌||◌, codes, map};
ghost use Rattle.std.specs.List.{list_all};
ghost use Rattle.isle_ast.specs.TreeView.{attribute_of, conversion_of, declaration_of, extern_of};
ghost use Rattle.isle_ast.specs.TreeView.{kind_of, target_of};
ghost use Rattle.isle_ast.specs.WritableDeciders.{is_writable_attribute, is_writable_conversion};
ghost use Rattle.isle_ast.specs.WritableDeciders.{is_writable_declaration, is_writable_extern};
ghost use Rattle.isle_ast.specs.WritableDeciders.{is_writable_kind, is_writable_target};
ghost use Rattle.isle_ast.specs.TermGrammar.{term_is_no_flag};

use crate::ast::{Attr, AttrKind, AttrTarget, Converter, Decl, Extern};
use isle_ast_names::writability::{are_names, is_constant_name, is_name};

pub(super) fn is_writable_decl(decl: &Decl) -> bool
    ensures { result ≡ is_writable_declaration (declaration_of decl.now) }
{
    is_name(&decl.term)
        && are_names(&decl.arg_tys)
        && is_name(&decl.ret_ty)
        && term_is_no_flag(decl)
}

/// Returns whether the term can't be mistaken for a flag: if it is named like one, that flag or a
/// later one is set.
fn term_is_no_flag(decl: &Decl) -> bool
    ensures { result ≡ term_is_no_flag (declaration_of decl.now) }
{
    match decl.term.0.as_str() {
        "pure" => decl.pure || decl.multi || decl.partial || decl.rec,
        "multi" => decl.multi || decl.partial || decl.rec,
        "partial" => decl.partial || decl.rec,
        "rec" => decl.rec,
        _ => true,
    }
}

pub(super) fn is_writable_attr(attr: &Attr) -> bool
    ensures { result ≡ is_writable_attribute (attribute_of attr.now) }
{
    is_writable_target(&attr.target) && are_writable_kinds(&attr.kinds)
}

/// Returns whether the target of an attribute is writable: a term must not be named `rule`.
fn is_writable_target(target: &AttrTarget) -> bool
    ensures { result ≡ is_writable_target (target_of target.now) }
{
    match target {
        AttrTarget::Term(name) => name.0.as_str() != "rule" && is_name(name),
        AttrTarget::Rule(name) => is_name(name),
    }
}

fn are_writable_kinds(kinds: &[AttrKind]) -> bool
    ensures { result ≡ list_all is_writable_kind (map kind_of kinds.now) }
{
    kinds.iter().all(is_writable_kind)
}

fn is_writable_kind(kind: &AttrKind) -> bool
    ensures { result ≡ is_writable_kind (kind_of kind.now) }
{
    match kind {
        AttrKind::Chain | AttrKind::Priority => true,
        AttrKind::Tag(name) => is_name(name),
    }
}

pub(super) fn is_writable_extern(definition: &Extern) -> bool
    ensures { result ≡ is_writable_extern (extern_of definition.now) }
{
    match definition {
        Extern::Extractor {
            term,
            func,
            infallible,
            ..
        } => is_name(term) && is_name(func) && (*infallible || term.0.as_str() != "infallible"),
        Extern::Constructor { term, func, .. } => is_name(term) && is_name(func),
        Extern::Const { name, ty, .. } => is_constant_name(name) && is_name(ty),
    }
}

pub(super) fn is_writable_converter(converter: &Converter) -> bool
    ensures { result ≡ is_writable_conversion (conversion_of converter.now) }
{
    is_name(&converter.term) && is_name(&converter.inner_ty) && is_name(&converter.outer_ty)
}
