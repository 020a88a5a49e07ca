//! The implicit conversions that the expansion may lose. The compiler adds them by types.

ghost use Rattle.std.specs.Prelude.{◌≡◌, ◌++◌, IfOk, OnOk, Some, map, option_map};
ghost use Rattle.std.specs.List.{flat_map, list_any};
ghost use Rattle.isle_ast.specs.TreeView.{conversion_of, definition_of, definitions_of};
ghost use Rattle.isle_ast_names.specs.TreeView.{name_of};
ghost use Rattle.isle_ast_rules.specs.TreeView.{extractor_of, pattern_of};
ghost use Rattle.isle_expand_warnings.specs.Placed.{all_placed, placed_of, wanted_of};
ghost use Rattle.isle_expand_warnings.specs.Warnings.{conversion_warnings, converts, converts_to};
ghost use Rattle.isle_expand_warnings.specs.Warnings.{definition_warnings, extractor_risk};
ghost use Rattle.isle_expand_warnings.specs.Warnings.{gives_extractor, has_type};
ghost use Rattle.isle_expand_warnings.specs.Warnings.{is_conversion, is_lossy, is_lossy_by};
ghost use Rattle.isle_expand_warnings.specs.Warnings.{is_of_type, is_text, may_be};
ghost use Rattle.isle_expand_warnings.specs.Warnings.{risk_in, risk_view, risks, use_warnings};
ghost use Rattle.isle_expand_warnings.specs.Warnings.{wanted_type, warning_of, warning_pos};
ghost use Rattle.isle_expand_warnings.specs.Warnings.{warning_text, warnings_in, warnings_of};

use crate::placed::{Placed, Wanted, placed_terms};
use crate::types::{argument_type, value_type};
use isle_ast::ast::{Converter, Def, Extractor, Ident, Pattern};
use isle_base::lexer::Pos;
use std::alloc::{AllocError, Global};
use std::fmt;

/// A conversion that the expansion may lose.
#[derive(Clone, Copy)]
pub enum Warning<'d> {
    /// The use of an extractor that the compiler may wrap in a conversion. What the use stands for
    /// is not wrapped.
    LossyUse(&'d Ident),
    /// A conversion whose own term is an extractor, which the expansion drops.
    LostConversion(&'d Ident),
}

/// An extractor whose template is not a term of the type with which the extractor is declared.
#[derive(Clone, Copy)]
struct Risk<'d> {
    term: &'d Ident,
    ty: &'d Ident,
}

/// Returns the conversions that the expansion of definitions may lose, in the order of the
/// definitions and of the places in them.
///
/// If a term in a pattern has another type than is wanted there, the compiler wraps it in the term
/// of a `convert`. It has done so when it expands extractors. So there is a warning for each use of
/// an extractor whose template is not a term declared with the extractor's own type, if a `convert`
/// leads from that type to the one wanted, or to any type if the definitions do not say which is
/// wanted. There is also one for each `convert` whose term has an `extractor`, which is dropped.
pub fn warnings(alloc: Global, defs: &[Def]) -> Result<Vec<Warning<'_>>, AllocError>
    ensures { IfOk result
        (λ found. warnings_of found.items ≡ warnings_in (definitions_of defs.now)) }
{
    let risks = risks(alloc, defs)?;
    all_warnings(alloc, defs, &risks)
}

/// Returns all warnings. `risks` are the extractors whose template is not a term of their own type.
fn all_warnings<'d>(
    alloc: Global,
    defs: &'d [Def],
    risks: &[Risk],
) -> Result<Vec<Warning<'d>>, AllocError>
    ensures { IfOk result (λ found. warnings_of found.items
        ≡ flat_map (definition_warnings (definitions_of defs.now) (map risk_view risks.now))
        (definitions_of defs.now)) }
{
    let mut found = Vec::new(alloc);
    for def in defs {
        add_definition_warnings(alloc, def, defs, risks, &mut found)?;
    }
    Ok(found)
}

/// Returns the extractors whose template is not a term of their own type.
fn risks(alloc: Global, defs: &[Def]) -> Result<Vec<Risk<'_>>, AllocError>
    ensures { IfOk result
        (λ found. map risk_view found.items ≡ risks (definitions_of defs.now)) }
{
    let mut found = Vec::new(alloc);
    for def in defs {
        if let Some(risk) = risk_in(def, defs) {
            found.push(risk)?;
        }
    }
    Ok(found)
}

/// Returns the risk of a definition, if it is an extractor and has one.
fn risk_in<'d>(def: &'d Def, defs: &'d [Def]) -> Option<Risk<'d>>
    ensures { option_map risk_view result
        ≡ risk_in (definitions_of defs.now) (definition_of def.now) }
{
    match def {
        Def::Extractor(extractor) => risk_of(extractor, defs),
        _ => None,
    }
}

/// Returns the risk of an extractor, if its template is not a term of its own type.
fn risk_of<'d>(extractor: &'d Extractor, defs: &'d [Def]) -> Option<Risk<'d>>
    ensures { option_map risk_view result
        ≡ extractor_risk (definitions_of defs.now) (extractor_of extractor.now) }
{
    match value_type(&extractor.term, defs) {
        Some(ty) if !has_type(&extractor.template, ty, defs) => Some(Risk {
            term: &extractor.term,
            ty,
        }),
        _ => None,
    }
}

/// Returns whether a pattern is a term that is declared with this type.
fn has_type(pattern: &Pattern, ty: &Ident, defs: &[Def]) -> bool
    ensures { result
        ≡ has_type (definitions_of defs.now) (name_of ty.now).text (pattern_of pattern.now) }
{
    is_of_type(pattern.root_term(), ty, defs)
}

/// Returns whether there is a term, and it is declared with this type.
fn is_of_type(term: Option<&Ident>, ty: &Ident, defs: &[Def]) -> bool
    ensures { result ≡ is_of_type (definitions_of defs.now) (name_of ty.now).text
        (option_map (λ t. name_of t.now) term.entry) }
{
    match term {
        Some(term) => is_type(value_type(term, defs), ty),
        None => false,
    }
}

/// Returns whether the type `own` is known and is `ty`.
fn is_type(own: Option<&Ident>, ty: &Ident) -> bool
    ensures { result
        ≡ is_text (name_of ty.now).text (option_map (λ o. (name_of o.now).text) own.entry) }
{
    match own {
        Some(own) => own.0 == ty.0,
        None => false,
    }
}

/// Adds the warnings for one of the definitions `defs`.
fn add_definition_warnings<'d>(
    alloc: Global,
    def: &'d Def,
    defs: &[Def],
    risks: &[Risk],
    found: &mut Vec<Warning<'d>>,
) -> Result<(), AllocError>
    ensures { OnOk result (warnings_of found.new.items ≡ warnings_of found.old.items
        ++ definition_warnings (definitions_of defs.now) (map risk_view risks.now)
        (definition_of def.now)) }
{
    match def {
        Def::Converter(converter) => add_conversion(converter, defs, found),
        _ => add_lossy_uses(&placed_terms(alloc, def)?, defs, risks, found),
    }
}

/// Adds a conversion, if its own term has an extractor.
fn add_conversion<'d>(
    converter: &'d Converter,
    defs: &[Def],
    found: &mut Vec<Warning<'d>>,
) -> Result<(), AllocError>
    ensures { OnOk result (warnings_of found.new.items ≡ warnings_of found.old.items
        ++ conversion_warnings (definitions_of defs.now) (conversion_of converter.now)) }
{
    if has_extractor(&converter.term, defs) {
        found.push(Warning::LostConversion(&converter.term))?;
    }
    Ok(())
}

/// Returns whether one of the definitions is an extractor of a term.
fn has_extractor(term: &Ident, defs: &[Def]) -> bool
    ensures { result
        ≡ list_any (gives_extractor (name_of term.now).text) (definitions_of defs.now) }
{
    for def in defs {
        if is_extractor_of(term, def) {
            return true;
        }
    }
    false
}

fn is_extractor_of(term: &Ident, def: &Def) -> bool
    ensures { result ≡ gives_extractor (name_of term.now).text (definition_of def.now) }
{
    match def {
        Def::Extractor(extractor) => extractor.term.0 == term.0,
        _ => false,
    }
}

/// Adds the terms whose conversion may be lost.
fn add_lossy_uses<'d>(
    placed: &[Placed<'d>],
    defs: &[Def],
    risks: &[Risk],
    found: &mut Vec<Warning<'d>>,
) -> Result<(), AllocError>
    ensures { OnOk result (warnings_of found.new.items ≡ warnings_of found.old.items
        ++ use_warnings (definitions_of defs.now) (map risk_view risks.now)
        (all_placed placed.now)) }
{
    for one in placed {
        if is_lossy(one, defs, risks) {
            found.push(Warning::LossyUse(one.term))?;
        }
    }
    Ok(())
}

/// Returns whether a term is one of the extractors at risk, and may be converted from its type at
/// its place.
fn is_lossy(placed: &Placed, defs: &[Def], risks: &[Risk]) -> bool
    ensures { result ≡ is_lossy (definitions_of defs.now) (map risk_view risks.now)
        (placed_of placed.now) }
{
    for risk in risks {
        if is_lossy_by(placed, defs, risk) {
            return true;
        }
    }
    false
}

/// Returns whether a term is this extractor at risk, and may be converted from its type at its
/// place.
fn is_lossy_by(placed: &Placed, defs: &[Def], risk: &Risk) -> bool
    ensures { result ≡ is_lossy_by (definitions_of defs.now) (placed_of placed.now)
        (risk_view risk.now) }
{
    risk.term.0 == placed.term.0 && converts(risk.ty, wanted_type(placed.wanted, defs), defs)
}

/// Returns the type that is wanted at a place, if the definitions say it.
fn wanted_type<'d>(wanted: Wanted, defs: &'d [Def]) -> Option<&'d Ident>
    ensures { option_map (λ ty. (name_of ty.now).text) result
        ≡ wanted_type (definitions_of defs.now) (wanted_of wanted.entry) }
{
    match wanted {
        Wanted::Unsaid => None,
        Wanted::Argument(term, number) => argument_type(term, number, defs),
        Wanted::Value(term) => value_type(term, defs),
    }
}

/// Returns whether one of the definitions converts from `ty` to the wanted type, or to any if that
/// is not known.
fn converts(ty: &Ident, wanted: Option<&Ident>, defs: &[Def]) -> bool
    ensures { result ≡ converts (definitions_of defs.now) (name_of ty.now).text
        (option_map (λ w. (name_of w.now).text) wanted.entry) }
{
    for def in defs {
        if is_conversion(ty, wanted, def) {
            return true;
        }
    }
    false
}

/// Returns whether a definition converts from `ty` to the wanted type, or to any if that is not
/// known.
fn is_conversion(ty: &Ident, wanted: Option<&Ident>, def: &Def) -> bool
    ensures { result ≡ is_conversion (name_of ty.now).text
        (option_map (λ w. (name_of w.now).text) wanted.entry) (definition_of def.now) }
{
    match def {
        Def::Converter(converter) => {
            converter.inner_ty.0 == ty.0 && may_be(wanted, &converter.outer_ty)
        }
        _ => false,
    }
}

/// Returns whether a type is the wanted one, or that is not known.
fn may_be(wanted: Option<&Ident>, ty: &Ident) -> bool
    ensures { result
        ≡ may_be (option_map (λ w. (name_of w.now).text) wanted.entry) (name_of ty.now).text }
{
    match wanted {
        Some(wanted) => ty.0 == wanted.0,
        None => true,
    }
}

impl Warning<'_> {
    /// The position of the use, or of the conversion's term.
    pub fn pos(&self) -> Pos
        ensures { result ≡ warning_pos (warning_of self.now) }
    {
        match self {
            Warning::LossyUse(term) | Warning::LostConversion(term) => term.1,
        }
    }
}

/// Writes the message, one line without the position.
impl fmt::Display for Warning<'_> {
    ghost output = { λ warning. Some (warning_text (warning_of warning)) };

    fn fmt<W: fmt::Write>(&self, f: &mut fmt::Formatter<W>) -> fmt::Result {
        match self {
            Warning::LossyUse(term) => {
                f.write_str("implicit conversion of '")?;
                f.write_str(term.0.as_str())?;
                f.write_str("' may be lost")
            }
            Warning::LostConversion(term) => {
                f.write_str("implicit conversion by '")?;
                f.write_str(term.0.as_str())?;
                f.write_str("' is lost")
            }
        }
    }
}
