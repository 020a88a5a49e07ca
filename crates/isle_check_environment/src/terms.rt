//! The terms of a program.

ghost use Rattle.std.specs.Prelude.{◌≡◌, ◌++◌, IfOk, List, OnOk, map};
ghost use Rattle.std.specs.List.{flat_map};
ghost use Rattle.isle_ast.specs.TreeView.{definition_of, definitions_of, variant_of};
ghost use Rattle.isle_ast_names.specs.Tree.{Name};
ghost use Rattle.isle_ast_names.specs.TreeView.{name_of};
ghost use Rattle.isle_check_environment.specs.Names.{Knows};
ghost use Rattle.isle_check_environment.specs.Terms.{declared_name, externs_in, full_names};
ghost use Rattle.isle_check_environment.specs.Terms.{known_terms, ruled_name, template_name};
ghost use Rattle.isle_check_environment.specs.Terms.{variant_names};
ghost use Rattle.isle_check_environment.specs.Views.{externs_at, known_terms_of};

use crate::names::{Names, add_name, add_text, no_names};
use isle_ast::ast::{Def, Extern, Ident, TypeValue, Variant};
use std::alloc::{AllocError, Global};

/// The terms of a program, each with a position.
#[derive(Drop)]
pub struct Terms {
    /// The declared terms, at their declarations.
    pub declared: Names,
    /// The variants, at their names.
    pub variants: Names,
    /// The terms of rules, at the left sides.
    pub ruled: Names,
    /// The terms of internal extractors, at their templates.
    pub templates: Names,
}

/// Returns the terms of a program. An `Err` means out of memory.
pub fn known_terms(alloc: Global, defs: &[Def]) -> Result<Terms, AllocError>
    ensures { IfOk result
        (λ terms. known_terms_of terms ≡ known_terms (definitions_of defs.now)) }
{
    let declared = declared_terms(alloc, defs)?;
    let variants = variant_terms(alloc, defs)?;
    let ruled = ruled_terms(alloc, defs)?;
    let templates = template_terms(alloc, defs)?;
    Ok(Terms {
        declared,
        variants,
        ruled,
        templates,
    })
}

/// Returns the external constructors, extractors and constants, in order. An `Err` means out of
/// memory.
pub fn externs_in(alloc: Global, defs: &[Def]) -> Result<Vec<&Extern>, AllocError>
    ensures { IfOk result (λ found. externs_at found.items ≡ externs_in (definitions_of defs.now)) }
{
    let mut found = Vec::new(alloc);
    for def in defs {
        if let Def::Extern(item) = def {
            found.push(item)?;
        }
    }
    Ok(found)
}

fn declared_terms(alloc: Global, defs: &[Def]) -> Result<Names, AllocError>
    ensures { IfOk result
        (λ names. Knows names (flat_map declared_name (definitions_of defs.now))) }
{
    let mut names = no_names(alloc);
    for def in defs {
        add_declared(def, &mut names)?;
    }
    Ok(names)
}

fn add_declared(def: &Def, names: &mut Names) -> Result<(), AllocError>
    ensures { OnOk result ((known : List Name) → Knows names.old known
        → Knows names.new (known ++ declared_name (definition_of def.now))) }
{
    match def {
        Def::Decl(decl) => add_text(names, decl.term.0.clone()?, decl.pos),
        _ => Ok(()),
    }
}

/// Returns the terms of rules, each at the left side. An `Err` means out of memory.
pub fn ruled_terms(alloc: Global, defs: &[Def]) -> Result<Names, AllocError>
    ensures { IfOk result
        (λ names. Knows names (flat_map ruled_name (definitions_of defs.now))) }
{
    let mut names = no_names(alloc);
    for def in defs {
        add_ruled(def, &mut names)?;
    }
    Ok(names)
}

fn add_ruled(def: &Def, names: &mut Names) -> Result<(), AllocError>
    ensures { OnOk result ((known : List Name) → Knows names.old known
        → Knows names.new (known ++ ruled_name (definition_of def.now))) }
{
    if let Def::Rule(rule) = def {
        if let Some(term) = rule.pattern.root_term() {
            add_name(names, term)?;
        }
    }
    Ok(())
}

fn template_terms(alloc: Global, defs: &[Def]) -> Result<Names, AllocError>
    ensures { IfOk result
        (λ names. Knows names (flat_map template_name (definitions_of defs.now))) }
{
    let mut names = no_names(alloc);
    for def in defs {
        add_template(def, &mut names)?;
    }
    Ok(names)
}

fn add_template(def: &Def, names: &mut Names) -> Result<(), AllocError>
    ensures { OnOk result ((known : List Name) → Knows names.old known
        → Knows names.new (known ++ template_name (definition_of def.now))) }
{
    match def {
        Def::Extractor(extractor) => {
            add_text(names, extractor.term.0.clone()?, extractor.template.pos())
        }
        _ => Ok(()),
    }
}

fn variant_terms(alloc: Global, defs: &[Def]) -> Result<Names, AllocError>
    ensures { IfOk result
        (λ names. Knows names (flat_map variant_names (definitions_of defs.now))) }
{
    let mut names = no_names(alloc);
    for def in defs {
        add_variants_of(alloc, def, &mut names)?;
    }
    Ok(names)
}

fn add_variants_of(alloc: Global, def: &Def, names: &mut Names) -> Result<(), AllocError>
    ensures { OnOk result ((known : List Name) → Knows names.old known
        → Knows names.new (known ++ variant_names (definition_of def.now))) }
{
    if let Def::TypeDef(ty) = def {
        if let TypeValue::Enum(variants, _) = &ty.ty {
            add_variants(alloc, &ty.name, variants, names)?;
        }
    }
    Ok(())
}

fn add_variants(
    alloc: Global,
    enum_name: &Ident,
    variants: &[Variant],
    names: &mut Names,
) -> Result<(), AllocError>
    ensures { OnOk result ((known : List Name) → Knows names.old known
        → Knows names.new (known
        ++ full_names (name_of enum_name.now) (map variant_of variants.now))) }
{
    for variant in variants {
        let name = Variant::full_name(alloc, enum_name, &variant.name)?;
        add_text(names, name.0, name.1)?;
    }
    Ok(())
}
