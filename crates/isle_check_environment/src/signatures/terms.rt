//! The terms of a program: those that are declared, and the variants of its types.

ghost use Rattle.std.specs.Prelude.{◌≡◌, ◌++◌, ◌∷◌, [], IfOk, List, OnOk, map, string_bytes};
ghost use Rattle.std.specs.List.{flat_map};
ghost use Rattle.isle_ast.specs.TreeView.{declaration_of, definition_of, definitions_of};
ghost use Rattle.isle_ast.specs.TreeView.{fields_of, indexed_field_of, named_field_of, variant_of};
ghost use Rattle.isle_ast_names.specs.TreeView.{name_of, names_of};
ghost use Rattle.isle_check_environment.specs.signatures.Entries.{Entry, Holds, entry};
ghost use Rattle.isle_check_environment.specs.signatures.Signatures.{TermNode, declared_entry};
ghost use Rattle.isle_check_environment.specs.signatures.Signatures.{declared_term};
ghost use Rattle.isle_check_environment.specs.signatures.Signatures.{field_types, indexed_types};
ghost use Rattle.isle_check_environment.specs.signatures.Signatures.{named_types};
ghost use Rattle.isle_check_environment.specs.signatures.Signatures.{variant_entries};
ghost use Rattle.isle_check_environment.specs.signatures.Signatures.{variant_entry};
ghost use Rattle.isle_check_environment.specs.signatures.Signatures.{variants_entries, texts};
ghost use Rattle.isle_check_environment.specs.signatures.Views.{term_of};

use crate::by_text::ByText;
use isle_ast::ast::{Decl, Def, Fields, Ident, StructField, TupleField, TypeValue, Variant};
use std::alloc::{AllocError, Global};

/// A term: what its arguments and its result are, and how it may be used.
#[derive(Drop)]
pub struct Term {
    /// The types of its arguments.
    pub args: Vec<String>,
    /// The type of its result.
    pub ret: String,
    /// Whether it is declared pure.
    pub pure: bool,
    /// Whether it is declared multi.
    pub multi: bool,
    /// Whether it is declared partial.
    pub partial: bool,
    /// Whether it is a variant of a type.
    pub is_variant: bool,
}

/// Returns the terms of a program by their texts: variants under their full names, and declared
/// terms. A declared term counts before a variant, and of either the last one. An `Err` means out
/// of memory.
pub fn terms_by_text(alloc: Global, defs: &[Def]) -> Result<ByText<Term>, AllocError>
    ensures { IfOk result (λ terms. Holds term_of terms
        (flat_map variant_entries (definitions_of defs.now)
        ++ flat_map declared_entry (definitions_of defs.now))) }
{
    let mut terms = no_terms(alloc);
    add_variants(alloc, defs, &mut terms)?;
    add_declared(alloc, defs, &mut terms)?;
    Ok(terms)
}

fn no_terms(alloc: Global) -> ByText<Term>
    ensures { Holds term_of result [] }
{
    ByText::new(alloc)
}

fn put_term(terms: &mut ByText<Term>, name: String, term: Term) -> Result<(), AllocError>
    ensures { OnOk result ((entries : List (Entry TermNode)) → Holds term_of terms.old entries
        → Holds term_of terms.new (entries ++ entry (string_bytes name) (term_of term) ∷ [])) }
{
    terms.insert(name, term)?;
    Ok(())
}

fn add_declared(alloc: Global, defs: &[Def], terms: &mut ByText<Term>) -> Result<(), AllocError>
    ensures { OnOk result ((entries : List (Entry TermNode)) → Holds term_of terms.old entries
        → Holds term_of terms.new
        (entries ++ flat_map declared_entry (definitions_of defs.now))) }
{
    for def in defs {
        add_declaration(alloc, def, terms)?;
    }
    Ok(())
}

fn add_declaration(alloc: Global, def: &Def, terms: &mut ByText<Term>) -> Result<(), AllocError>
    ensures { OnOk result ((entries : List (Entry TermNode)) → Holds term_of terms.old entries
        → Holds term_of terms.new (entries ++ declared_entry (definition_of def.now))) }
{
    match def {
        Def::Decl(decl) => {
            let term = declared_term(alloc, decl)?;
            put_term(terms, decl.term.0.clone()?, term)
        }
        _ => Ok(()),
    }
}

fn declared_term(alloc: Global, decl: &Decl) -> Result<Term, AllocError>
    ensures { IfOk result (λ term. term_of term ≡ declared_term (declaration_of decl.now)) }
{
    Ok(Term {
        args: texts(alloc, &decl.arg_tys)?,
        ret: decl.ret_ty.0.clone()?,
        pure: decl.pure,
        multi: decl.multi,
        partial: decl.partial,
        is_variant: false,
    })
}

/// Returns the texts of names.
fn texts(alloc: Global, names: &[Ident]) -> Result<Vec<String>, AllocError>
    ensures { IfOk result (λ made. map string_bytes made.items ≡ texts (names_of names.now)) }
{
    let mut made = Vec::with_capacity(alloc, names.len())?;
    for name in names {
        made.push(name.0.clone()?)?;
    }
    Ok(made)
}

fn add_variants(alloc: Global, defs: &[Def], terms: &mut ByText<Term>) -> Result<(), AllocError>
    ensures { OnOk result ((entries : List (Entry TermNode)) → Holds term_of terms.old entries
        → Holds term_of terms.new
        (entries ++ flat_map variant_entries (definitions_of defs.now))) }
{
    for def in defs {
        add_variants_of(alloc, def, terms)?;
    }
    Ok(())
}

fn add_variants_of(alloc: Global, def: &Def, terms: &mut ByText<Term>) -> Result<(), AllocError>
    ensures { OnOk result ((entries : List (Entry TermNode)) → Holds term_of terms.old entries
        → Holds term_of terms.new (entries ++ variant_entries (definition_of def.now))) }
{
    if let Def::TypeDef(ty) = def {
        if let TypeValue::Enum(variants, _) = &ty.ty {
            add_each_variant(alloc, &ty.name, variants, terms)?;
        }
    }
    Ok(())
}

fn add_each_variant(
    alloc: Global,
    enum_name: &Ident,
    variants: &[Variant],
    terms: &mut ByText<Term>,
) -> Result<(), AllocError>
    ensures { OnOk result ((entries : List (Entry TermNode)) → Holds term_of terms.old entries
        → Holds term_of terms.new
        (entries ++ variants_entries (name_of enum_name.now) (map variant_of variants.now))) }
{
    for variant in variants {
        add_variant(alloc, enum_name, variant, terms)?;
    }
    Ok(())
}

fn add_variant(
    alloc: Global,
    enum_name: &Ident,
    variant: &Variant,
    terms: &mut ByText<Term>,
) -> Result<(), AllocError>
    ensures { OnOk result ((entries : List (Entry TermNode)) → Holds term_of terms.old entries
        → Holds term_of terms.new
        (entries ++ variant_entry (name_of enum_name.now) (variant_of variant.now) ∷ [])) }
{
    let name = Variant::full_name(alloc, enum_name, &variant.name)?;
    let term = Term {
        args: field_types(alloc, &variant.fields)?,
        ret: enum_name.0.clone()?,
        pure: false,
        multi: false,
        partial: false,
        is_variant: true,
    };
    put_term(terms, name.0, term)
}

fn field_types(alloc: Global, fields: &Fields) -> Result<Vec<String>, AllocError>
    ensures { IfOk result
        (λ made. map string_bytes made.items ≡ field_types (fields_of fields.now)) }
{
    match fields {
        Fields::Unit => Ok(Vec::new(alloc)),
        Fields::Struct(named) => named_types(alloc, &named.fields),
        Fields::Tuple(indexed) => indexed_types(alloc, &indexed.fields),
    }
}

fn named_types(alloc: Global, fields: &[StructField]) -> Result<Vec<String>, AllocError>
    ensures { IfOk result
        (λ made. map string_bytes made.items ≡ named_types (map named_field_of fields.now)) }
{
    let mut made = Vec::with_capacity(alloc, fields.len())?;
    for field in fields {
        made.push(field.ty.0.clone()?)?;
    }
    Ok(made)
}

fn indexed_types(alloc: Global, fields: &[TupleField]) -> Result<Vec<String>, AllocError>
    ensures { IfOk result
        (λ made. map string_bytes made.items ≡ indexed_types (map indexed_field_of fields.now)) }
{
    let mut made = Vec::with_capacity(alloc, fields.len())?;
    for field in fields {
        made.push(field.ty.0.clone()?)?;
    }
    Ok(made)
}
