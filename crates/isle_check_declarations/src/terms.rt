//! The errors of declared terms, and of variants as terms.

ghost use Rattle.std.specs.Prelude.{◌≡◌, ◌++◌, [], IfOk, OnOk, List, map};
ghost use Rattle.std.specs.Option.{option_map};
ghost use Rattle.isle_ast.specs.TreeView.{declaration_of, definitions_of, type_definition_of};
ghost use Rattle.isle_ast.specs.TreeView.{variant_of};
ghost use Rattle.isle_ast_names.specs.Tree.{Name};
ghost use Rattle.isle_ast_names.specs.TreeView.{names_of};
ghost use Rattle.isle_check_environment.specs.Names.{Knows};
ghost use Rattle.isle_check_environment.specs.Types.{is_type_in};
ghost use Rattle.isle_check_environment.specs.Views.{decls_at, types_at};
ghost use Rattle.isle_check_declarations.specs.TermFaults.{arguments_fault, counted, declared};
ghost use Rattle.isle_check_declarations.specs.TermFaults.{doubled_decl, free_variants};
ghost use Rattle.isle_check_declarations.specs.TermFaults.{signature_fault, taken_variant};
ghost use Rattle.isle_check_declarations.specs.TermFaults.{taken_variants, term_faults};
ghost use Rattle.isle_check_declarations.specs.TermFaults.{term_faults_of, term_names};
ghost use Rattle.isle_check_declarations.specs.TermFaults.{variants_of, with_variants, wrong_decl};
ghost use Rattle.isle_check_declarations.specs.TermFaults.{wrong_decls, wrong_flags};
ghost use Rattle.isle_check_declarations.specs.Views.{fault_of, faults_of};

use crate::fault::{Fault, Kind};
use isle_ast::ast::{Decl, Def, Ident, TypeDef, TypeValue, Variant};
use isle_base::lexer::Pos;
use isle_check_environment::names::{Names, add_text, has, no_names, place_of};
use isle_check_environment::parts::{decls_in, types_in};
use isle_check_environment::types::{is_type, type_names};
use std::alloc::{AllocError, Global};

/// Returns the errors of the terms of a program, if its types have none (`type_faults`): first
/// those of the declarations, then the variants whose names as terms are taken. An `Err` means out
/// of memory.
pub fn term_faults(alloc: Global, defs: &[Def]) -> Result<Vec<Fault<'_>>, AllocError>
    ensures { IfOk result
        (λ found. faults_of found.items ≡ term_faults (definitions_of defs.now)) }
{
    let types = types_in(alloc, defs)?;
    let decls = decls_in(alloc, defs)?;
    let known = type_names(alloc, &types)?;
    let mut terms = no_names(alloc);
    declare(alloc, &known, &types, &decls, &mut terms)
}

/// Adds the terms that are declared, and then the variants. Returns their errors.
pub fn declare<'a>(
    alloc: Global,
    known: &Names,
    types: &[&'a TypeDef],
    decls: &[&'a Decl],
    terms: &mut Names,
) -> Result<Vec<Fault<'a>>, AllocError>
    ensures { IfOk result (λ found. Knows terms.old []
        → Knows terms.new (term_names (is_type_in known.now) (decls_at decls.now)
        (types_at types.now))
        × (faults_of found.items ≡ term_faults_of (is_type_in known.now) (decls_at decls.now)
        (types_at types.now))) }
{
    let mut found = Vec::new(alloc);
    add_wrong_decls(known, decls, terms, &mut found)?;
    add_taken_variants(alloc, types, terms, &mut found)?;
    Ok(found)
}

/// Adds the errors of declarations, and to `terms` the terms that they declare.
fn add_wrong_decls<'a>(
    known: &Names,
    decls: &[&'a Decl],
    terms: &mut Names,
    found: &mut Vec<Fault<'a>>,
) -> Result<(), AllocError>
    ensures { OnOk result ((earlier : List Name) → Knows terms.old earlier
        → Knows terms.new (earlier ++ declared (is_type_in known.now) (decls_at decls.now))
        × (faults_of found.new.items ≡ faults_of found.old.items
        ++ wrong_decls (is_type_in known.now) earlier (decls_at decls.now))) }
{
    for decl in decls {
        add_wrong_decl(known, decl, terms, found)?;
    }
    Ok(())
}

/// Adds the errors of a declaration, and to `terms` its term if its types are known.
fn add_wrong_decl<'a>(
    known: &Names,
    decl: &'a Decl,
    terms: &mut Names,
    found: &mut Vec<Fault<'a>>,
) -> Result<(), AllocError>
    ensures { OnOk result ((earlier : List Name) → Knows terms.old earlier
        → Knows terms.new (earlier ++ counted (is_type_in known.now) (declaration_of decl.now))
        × (faults_of found.new.items ≡ faults_of found.old.items
        ++ wrong_decl (is_type_in known.now) earlier (declaration_of decl.now))) }
{
    add_doubled_decl(place_of(terms, decl.term.0.as_str()), decl, found)?;
    add_wrong_flags(decl, found)?;
    match signature_fault(known, decl) {
        Some(fault) => found.push(fault)?,
        None => add_text(terms, decl.term.0.clone()?, decl.pos)?,
    }
    Ok(())
}

fn add_doubled_decl<'a>(
    before: Option<Pos>,
    decl: &'a Decl,
    found: &mut Vec<Fault<'a>>,
) -> Result<(), AllocError>
    ensures { OnOk result (faults_of found.new.items
        ≡ faults_of found.old.items ++ doubled_decl before (declaration_of decl.now)) }
{
    if let Some(pos) = before {
        let kind = Kind::TermAgain(&decl.term);
        found.push(Fault {
            kind,
            pos: decl.pos,
        })?;
        found.push(Fault { kind, pos })?;
    }
    Ok(())
}

fn add_wrong_flags<'a>(decl: &'a Decl, found: &mut Vec<Fault<'a>>) -> Result<(), AllocError>
    ensures { OnOk result (faults_of found.new.items
        ≡ faults_of found.old.items ++ wrong_flags (declaration_of decl.now)) }
{
    if decl.multi && decl.partial {
        let kind = Kind::MultiAndPartial(&decl.term);
        found.push(Fault {
            kind,
            pos: decl.pos,
        })?;
    }
    Ok(())
}

/// Returns the first type of a declaration that is not known.
pub fn signature_fault<'a>(known: &Names, decl: &'a Decl) -> Option<Fault<'a>>
    ensures { option_map fault_of result
        ≡ signature_fault (is_type_in known.now) (declaration_of decl.now) }
{
    let fault = arguments_fault(known, &decl.arg_tys);
    if fault.is_some() {
        return fault;
    }
    let ty = &decl.ret_ty;
    if is_type(known, ty.0.as_str()) {
        return None;
    }
    Some(Fault {
        kind: Kind::ResultTypeUnknown(ty),
        pos: ty.1,
    })
}

fn arguments_fault<'a>(known: &Names, types: &'a [Ident]) -> Option<Fault<'a>>
    ensures { option_map fault_of result
        ≡ arguments_fault (is_type_in known.now) (names_of types.now) }
{
    for ty in types {
        if !is_type(known, ty.0.as_str()) {
            return Some(Fault {
                kind: Kind::ArgumentTypeUnknown(ty),
                pos: ty.1,
            });
        }
    }
    None
}

/// Adds an error for each type with a variant whose name as a term is taken. Adds to `terms` the
/// variants before it.
fn add_taken_variants<'a>(
    alloc: Global,
    types: &[&'a TypeDef],
    terms: &mut Names,
    found: &mut Vec<Fault<'a>>,
) -> Result<(), AllocError>
    ensures { OnOk result ((earlier : List Name) → Knows terms.old earlier
        → Knows terms.new (with_variants earlier (types_at types.now))
        × (faults_of found.new.items
        ≡ faults_of found.old.items ++ taken_variants earlier (types_at types.now))) }
{
    for ty in types {
        add_taken_variant(alloc, ty, variants_of(ty), terms, found)?;
    }
    Ok(())
}

/// Returns the variants of a type, none if it is not an enum.
fn variants_of(ty: &TypeDef) -> &[Variant]
    ensures { map variant_of result.now ≡ variants_of (type_definition_of ty.now).ty }
{
    match &ty.ty {
        TypeValue::Enum(variants, _) => variants,
        _ => &[],
    }
}

fn add_taken_variant<'a>(
    alloc: Global,
    ty: &'a TypeDef,
    variants: &'a [Variant],
    terms: &mut Names,
    found: &mut Vec<Fault<'a>>,
) -> Result<(), AllocError>
    ensures { OnOk result ((earlier : List Name) → Knows terms.old earlier
        → Knows terms.new (earlier ++ free_variants (type_definition_of ty.now).name earlier
        (map variant_of variants.now))
        × (faults_of found.new.items ≡ faults_of found.old.items
        ++ taken_variant (type_definition_of ty.now) earlier (map variant_of variants.now))) }
{
    for variant in variants {
        let name = Variant::full_name(alloc, &ty.name, &variant.name)?;
        if has(terms, name.0.as_str()) {
            let kind = Kind::VariantTaken {
                ty: &ty.name,
                variant: &variant.name,
            };
            found.push(Fault { kind, pos: ty.pos })?;
            return Ok(());
        }
        add_text(terms, name.0, name.1)?;
    }
    Ok(())
}
