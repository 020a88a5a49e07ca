//! The external extractors that always match.

ghost use Rattle.std.specs.Prelude.{◌++◌, IfOk, List, OnOk};
ghost use Rattle.std.specs.List.{flat_map};
ghost use Rattle.isle_ast.specs.TreeView.{definition_of, definitions_of};
ghost use Rattle.isle_ast_names.specs.Tree.{Name};
ghost use Rattle.isle_check_environment.specs.Names.{Knows};
ghost use Rattle.isle_check_matchings.specs.Infallible.{infallible_name};

use isle_ast::ast::{Def, Extern};
use isle_check_environment::names::{Names, add_name, no_names};
use std::alloc::{AllocError, Global};

/// Returns the terms whose external extractor always matches. An `Err` means out of memory.
pub fn infallible_extractors(alloc: Global, defs: &[Def]) -> Result<Names, AllocError>
    ensures { IfOk result
        (λ names. Knows names (flat_map infallible_name (definitions_of defs.now))) }
{
    let mut names = no_names(alloc);
    for def in defs {
        add_infallible(def, &mut names)?;
    }
    Ok(names)
}

fn add_infallible(def: &Def, names: &mut Names) -> Result<(), AllocError>
    ensures { OnOk result ((known : List Name) → Knows names.old known
        → Knows names.new (known ++ infallible_name (definition_of def.now))) }
{
    match def {
        Def::Extern(
            Extern::Extractor {
                term,
                infallible,
                ..
            },
        ) => {
            if *infallible {
                return add_name(names, term);
            }
            Ok(())
        }
        _ => Ok(()),
    }
}
