//! The terms of converters.

ghost use Rattle.std.specs.Prelude.{◌∷◌, IfOk, List, OnOk};
ghost use Rattle.isle_ast.specs.Tree.{Conversion};
ghost use Rattle.isle_ast.specs.TreeView.{conversion_of, definitions_of};
ghost use Rattle.isle_check_environment.specs.Parts.{converters_in};
ghost use Rattle.isle_check_environment.specs.Views.{converters_at};
ghost use Rattle.isle_check_environment.specs.signatures.Views.{Converts};

use crate::by_text::ByText;
use crate::parts::converters_in;
use crate::signatures::by_texts::{ByTexts, put_value};
use isle_ast::ast::{Converter, Def};
use std::alloc::{AllocError, Global};

/// The terms that convert, by the inner and the outer type.
pub type Converters<'a> = ByTexts<&'a String>;

/// Returns the terms of converters. If two types have several converters, the first one counts. An
/// `Err` means out of memory.
pub fn converters(alloc: Global, defs: &[Def]) -> Result<Converters<'_>, AllocError>
    ensures { IfOk result
        (λ terms. Converts terms (converters_in (definitions_of defs.now))) }
{
    let converters = converters_in(alloc, defs)?;
    terms_of(alloc, &converters)
}

fn terms_of<'a>(alloc: Global, converters: &[&'a Converter]) -> Result<Converters<'a>, AllocError>
    ensures { IfOk result (λ terms. Converts terms (converters_at converters.now)) }
{
    let mut terms = ByText::new(alloc);
    for at in (0..converters.len()).rev() {
        put_converter(alloc, converters[at], &mut terms)?;
    }
    Ok(terms)
}

/// Puts the term of a converter in place of that of a later one.
fn put_converter<'a>(
    alloc: Global,
    converter: &'a Converter,
    terms: &mut Converters<'a>,
) -> Result<(), AllocError>
    ensures { OnOk result ((later : List Conversion) → Converts terms.old later
        → Converts terms.new (conversion_of converter.now ∷ later)) }
{
    let inner = converter.inner_ty.0.clone()?;
    let outer = converter.outer_ty.0.clone()?;
    put_value(alloc, terms, inner, outer, &converter.term.0)
}
