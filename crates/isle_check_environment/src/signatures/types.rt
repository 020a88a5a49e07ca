//! The primitive types.

ghost use Rattle.std.specs.Prelude.{◌++◌, IfOk, List, OnOk};
ghost use Rattle.std.specs.List.{flat_map};
ghost use Rattle.isle_ast.specs.TreeView.{definition_of, definitions_of};
ghost use Rattle.isle_ast_names.specs.Tree.{Name};
ghost use Rattle.isle_check_environment.specs.Names.{Knows};
ghost use Rattle.isle_check_environment.specs.signatures.Signatures.{primitive_name};

use crate::names::{Names, add_name, no_names};
use isle_ast::ast::{Def, TypeValue};
use std::alloc::{AllocError, Global};

/// Returns the names of the primitive types that are defined. An `Err` means out of memory.
pub fn primitives(alloc: Global, defs: &[Def]) -> Result<Names, AllocError>
    ensures { IfOk result
        (λ names. Knows names (flat_map primitive_name (definitions_of defs.now))) }
{
    let mut names = no_names(alloc);
    for def in defs {
        add_primitive(def, &mut names)?;
    }
    Ok(names)
}

fn add_primitive(def: &Def, names: &mut Names) -> Result<(), AllocError>
    ensures { OnOk result ((known : List Name) → Knows names.old known
        → Knows names.new (known ++ primitive_name (definition_of def.now))) }
{
    if let Def::TypeDef(ty) = def {
        if let TypeValue::Primitive(..) = &ty.ty {
            add_name(names, &ty.name)?;
        }
    }
    Ok(())
}
