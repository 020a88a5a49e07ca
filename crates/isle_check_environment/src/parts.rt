//! The definitions of a program by kind.

ghost use Rattle.std.specs.Prelude.{◌≡◌, IfOk};
ghost use Rattle.isle_ast.specs.TreeView.{definitions_of};
ghost use Rattle.isle_check_environment.specs.Parts.{constants_in, converters_in, decls_in};
ghost use Rattle.isle_check_environment.specs.Parts.{extractors_in, rules_in, types_in};
ghost use Rattle.isle_check_environment.specs.Views.{constants_at, converters_at, decls_at};
ghost use Rattle.isle_check_environment.specs.Views.{extractors_at, rules_at, types_at};

use isle_ast::ast::{Converter, Decl, Def, Extern, Extractor, Ident, Rule, TypeDef};
use isle_base::lexer::Pos;
use std::alloc::{AllocError, Global};

/// An external constant.
#[derive(Clone, Copy)]
pub struct Constant<'a> {
    /// The name, without its `$`.
    pub name: &'a Ident,
    /// Its type.
    pub ty: &'a Ident,
    /// The position of the constant.
    pub pos: Pos,
}

/// Returns the definitions of types, in order. An `Err` means out of memory.
pub fn types_in(alloc: Global, defs: &[Def]) -> Result<Vec<&TypeDef>, AllocError>
    ensures { IfOk result (λ found. types_at found.items ≡ types_in (definitions_of defs.now)) }
{
    let mut found = Vec::new(alloc);
    for def in defs {
        if let Def::TypeDef(ty) = def {
            found.push(ty)?;
        }
    }
    Ok(found)
}

/// Returns the declarations of terms, in order. An `Err` means out of memory.
pub fn decls_in(alloc: Global, defs: &[Def]) -> Result<Vec<&Decl>, AllocError>
    ensures { IfOk result (λ found. decls_at found.items ≡ decls_in (definitions_of defs.now)) }
{
    let mut found = Vec::new(alloc);
    for def in defs {
        if let Def::Decl(decl) = def {
            found.push(decl)?;
        }
    }
    Ok(found)
}

/// Returns the rules, in order. An `Err` means out of memory.
pub fn rules_in(alloc: Global, defs: &[Def]) -> Result<Vec<&Rule>, AllocError>
    ensures { IfOk result (λ found. rules_at found.items ≡ rules_in (definitions_of defs.now)) }
{
    let mut found = Vec::new(alloc);
    for def in defs {
        if let Def::Rule(rule) = def {
            found.push(rule)?;
        }
    }
    Ok(found)
}

/// Returns the internal extractors, in order. An `Err` means out of memory.
pub fn extractors_in(alloc: Global, defs: &[Def]) -> Result<Vec<&Extractor>, AllocError>
    ensures { IfOk result
        (λ found. extractors_at found.items ≡ extractors_in (definitions_of defs.now)) }
{
    let mut found = Vec::new(alloc);
    for def in defs {
        if let Def::Extractor(extractor) = def {
            found.push(extractor)?;
        }
    }
    Ok(found)
}

/// Returns the converters, in order. An `Err` means out of memory.
pub fn converters_in(alloc: Global, defs: &[Def]) -> Result<Vec<&Converter>, AllocError>
    ensures { IfOk result
        (λ found. converters_at found.items ≡ converters_in (definitions_of defs.now)) }
{
    let mut found = Vec::new(alloc);
    for def in defs {
        if let Def::Converter(converter) = def {
            found.push(converter)?;
        }
    }
    Ok(found)
}

/// Returns the external constants, in order. An `Err` means out of memory.
pub fn constants_in(alloc: Global, defs: &[Def]) -> Result<Vec<Constant<'_>>, AllocError>
    ensures { IfOk result
        (λ found. constants_at found.items ≡ constants_in (definitions_of defs.now)) }
{
    let mut found = Vec::new(alloc);
    for def in defs {
        if let Def::Extern(Extern::Const { name, ty, pos }) = def {
            found.push(Constant {
                name,
                ty,
                pos: *pos,
            })?;
        }
    }
    Ok(found)
}
