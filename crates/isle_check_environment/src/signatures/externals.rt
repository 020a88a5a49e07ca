//! The terms that have an external constructor, or an external extractor.

ghost use Rattle.std.specs.Prelude.{◌++◌, IfOk, List, OnOk};
ghost use Rattle.std.specs.List.{flat_map};
ghost use Rattle.isle_ast.specs.TreeView.{definition_of, definitions_of};
ghost use Rattle.isle_ast_names.specs.Tree.{Name};
ghost use Rattle.isle_check_environment.specs.Names.{Knows};
ghost use Rattle.isle_check_environment.specs.signatures.Signatures.{constructor_name};
ghost use Rattle.isle_check_environment.specs.signatures.Signatures.{extractor_name};

use crate::names::{Names, add_name, no_names};
use isle_ast::ast::{Def, Extern};
use std::alloc::{AllocError, Global};

/// Returns the terms that have an external constructor. An `Err` means out of memory.
pub fn constructors(alloc: Global, defs: &[Def]) -> Result<Names, AllocError>
    ensures { IfOk result
        (λ names. Knows names (flat_map constructor_name (definitions_of defs.now))) }
{
    let mut names = no_names(alloc);
    for def in defs {
        add_constructor(def, &mut names)?;
    }
    Ok(names)
}

fn add_constructor(def: &Def, names: &mut Names) -> Result<(), AllocError>
    ensures { OnOk result ((known : List Name) → Knows names.old known
        → Knows names.new (known ++ constructor_name (definition_of def.now))) }
{
    match def {
        Def::Extern(Extern::Constructor { term, .. }) => add_name(names, term),
        _ => Ok(()),
    }
}

/// Returns the terms that have an external extractor. An `Err` means out of memory.
pub fn extractors(alloc: Global, defs: &[Def]) -> Result<Names, AllocError>
    ensures { IfOk result
        (λ names. Knows names (flat_map extractor_name (definitions_of defs.now))) }
{
    let mut names = no_names(alloc);
    for def in defs {
        add_extractor(def, &mut names)?;
    }
    Ok(names)
}

fn add_extractor(def: &Def, names: &mut Names) -> Result<(), AllocError>
    ensures { OnOk result ((known : List Name) → Knows names.old known
        → Knows names.new (known ++ extractor_name (definition_of def.now))) }
{
    match def {
        Def::Extern(Extern::Extractor { term, .. }) => add_name(names, term),
        _ => Ok(()),
    }
}
