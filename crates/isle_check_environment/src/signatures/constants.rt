//! The types of constants.

ghost use Rattle.std.specs.Prelude.{ℕ, ◌++◌, ◌∷◌, [], IfOk, List, OnOk, string_bytes};
ghost use Rattle.std.specs.List.{flat_map};
ghost use Rattle.isle_ast.specs.TreeView.{definition_of, definitions_of};
ghost use Rattle.isle_check_environment.specs.signatures.Entries.{Entry, Holds, entry};
ghost use Rattle.isle_check_environment.specs.signatures.Signatures.{constant_entry};

use crate::by_text::ByText;
use isle_ast::ast::{Def, Extern};
use std::alloc::{AllocError, Global};

/// Returns the type of each constant. If a constant is declared twice, its last type counts. An
/// `Err` means out of memory.
pub fn constants(alloc: Global, defs: &[Def]) -> Result<ByText<String>, AllocError>
    ensures { IfOk result (λ types. Holds string_bytes types
        (flat_map constant_entry (definitions_of defs.now))) }
{
    let mut types = no_types(alloc);
    for def in defs {
        add_constant(def, &mut types)?;
    }
    Ok(types)
}

fn no_types(alloc: Global) -> ByText<String>
    ensures { Holds string_bytes result [] }
{
    ByText::new(alloc)
}

fn add_constant(def: &Def, types: &mut ByText<String>) -> Result<(), AllocError>
    ensures { OnOk result ((entries : List (Entry (List ℕ))) → Holds string_bytes types.old entries
        → Holds string_bytes types.new (entries ++ constant_entry (definition_of def.now))) }
{
    match def {
        Def::Extern(Extern::Const { name, ty, .. }) => {
            put_type(types, name.0.clone()?, ty.0.clone()?)
        }
        _ => Ok(()),
    }
}

fn put_type(types: &mut ByText<String>, name: String, ty: String) -> Result<(), AllocError>
    ensures { OnOk result ((entries : List (Entry (List ℕ))) → Holds string_bytes types.old entries
        → Holds string_bytes types.new
        (entries ++ entry (string_bytes name) (string_bytes ty) ∷ [])) }
{
    types.insert(name, ty)?;
    Ok(())
}
