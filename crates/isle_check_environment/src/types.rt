//! The types that are known.

ghost use Rattle.std.specs.Prelude.{◌≡◌, IfOk, List};
ghost use Rattle.isle_ast_names.specs.Tree.{Name};
ghost use Rattle.isle_check_environment.specs.Names.{Knows};
ghost use Rattle.isle_check_environment.specs.Parts.{type_names};
ghost use Rattle.isle_check_environment.specs.Types.{is_built_in, is_integer_type, is_type};
ghost use Rattle.isle_check_environment.specs.Types.{is_type_in};
ghost use Rattle.isle_check_environment.specs.Views.{types_at};

use crate::names::{Names, add_name, has, no_names};
use isle_ast::ast::TypeDef;
use std::alloc::{AllocError, Global};

/// Returns whether a type is one of the built-in integer types.
pub fn is_integer_type(text: &str) -> bool
    ensures { result ≡ is_integer_type text.now }
{
    text == "u8"
        || text == "u16"
        || text == "u32"
        || text == "u64"
        || text == "u128"
        || text == "usize"
        || text == "i8"
        || text == "i16"
        || text == "i32"
        || text == "i64"
        || text == "i128"
        || text == "isize"
}

/// Returns whether a type is built in: `bool`, or an integer type.
pub fn is_built_in(text: &str) -> bool
    ensures { result ≡ is_built_in text.now }
{
    text == "bool" || is_integer_type(text)
}

/// Returns whether a type is built in or one of `types`.
pub fn is_type(types: &Names, text: &str) -> bool
    ensures looked_up { result ≡ is_type_in types.now text.now }
    ensures known { (known : List Name) → Knows types.now known → result ≡ is_type known text.now }
{
    is_built_in(text) || has(types, text)
}

/// Returns the names of the types that are defined. An `Err` means out of memory.
pub fn type_names(alloc: Global, types: &[&TypeDef]) -> Result<Names, AllocError>
    ensures named { IfOk result (λ names. Knows names (type_names (types_at types.now))) }
    ensures types { IfOk result
        (λ names. is_type_in names ≡ is_type (type_names (types_at types.now))) }
{
    let mut names = no_names(alloc);
    for ty in types {
        add_name(&mut names, &ty.name)?;
    }
    Ok(names)
}
