//! Converters.

ghost use Rattle.std.specs.Prelude.{◌≡◌, ◌∷◌, ◌++◌, [], IfOk, OnOk, List};
ghost use Rattle.std.specs.Option.{option_map};
ghost use Rattle.isle_ast.specs.Tree.{Conversion};
ghost use Rattle.isle_ast.specs.TreeView.{conversion_of, definitions_of};
ghost use Rattle.isle_check_environment.specs.Types.{is_type_in};
ghost use Rattle.isle_check_environment.specs.Views.{converters_at};
ghost use Rattle.isle_check_declarations.specs.Views.{fault_of, faults_of, term_in};
ghost use Rattle.isle_check_declarations.specs.naming.Converters.{converter_faults_by, counted};
ghost use Rattle.isle_check_declarations.specs.naming.Converters.{doubled_converter, has_pair};
ghost use Rattle.isle_check_declarations.specs.naming.Converters.{unknown_name};
ghost use Rattle.isle_check_declarations.specs.naming.Converters.{wrong_converter};
ghost use Rattle.isle_check_declarations.specs.naming.Converters.{wrong_converters};
ghost use Rattle.isle_check_declarations.specs.naming.Views.{KnowsPairs};

use crate::lookup::TermLookup;
use crate::{Fault, Kind};
use isle_ast::ast::{Converter, Def};
use isle_check_environment::names::Names;
use isle_check_environment::parts::{converters_in, types_in};
use isle_check_environment::types::{is_type, type_names};
use std::alloc::{AllocError, Global};
use std::collections::BTreeSet;

/// Pairs of types: an inner type and an outer type.
type Pairs<'a> = BTreeSet<(&'a str, &'a str)>;

/// Returns the errors of converters: their types and terms are known, and a pair of types has one
/// converter. `terms` are those of the program. An `Err` means out of memory.
pub fn converter_faults<'a>(
    alloc: Global,
    terms: &TermLookup,
    defs: &'a [Def],
) -> Result<Vec<Fault<'a>>, AllocError>
    ensures { IfOk result (λ found. faults_of found.items
        ≡ converter_faults_by (term_in terms.now) (definitions_of defs.now)) }
{
    let types = types_in(alloc, defs)?;
    let known = type_names(alloc, &types)?;
    let converters = converters_in(alloc, defs)?;
    wrong_converters(alloc, &known, terms, &converters)
}

fn wrong_converters<'a>(
    alloc: Global,
    known: &Names,
    terms: &TermLookup,
    converters: &[&'a Converter],
) -> Result<Vec<Fault<'a>>, AllocError>
    ensures { IfOk result (λ found. faults_of found.items
        ≡ wrong_converters (is_type_in known.now) (term_in terms.now) []
        (converters_at converters.now)) }
{
    let mut pairs = BTreeSet::new(alloc);
    let mut found = Vec::new(alloc);
    for converter in converters {
        add_wrong_converter(known, terms, converter, &mut pairs, &mut found)?;
    }
    Ok(found)
}

/// Adds the error of a converter, and to `pairs` its types if its names are known.
fn add_wrong_converter<'a>(
    known: &Names,
    terms: &TermLookup,
    converter: &'a Converter,
    pairs: &mut Pairs<'a>,
    found: &mut Vec<Fault<'a>>,
) -> Result<(), AllocError>
    ensures { OnOk result ((earlier : List Conversion) → KnowsPairs pairs.old earlier
        → KnowsPairs pairs.new (earlier ++ counted (is_type_in known.now) (term_in terms.now)
        (conversion_of converter.now))
        × (faults_of found.new.items ≡ faults_of found.old.items
        ++ wrong_converter (is_type_in known.now) (term_in terms.now) earlier
        (conversion_of converter.now))) }
{
    match unknown_name(known, terms, converter) {
        Some(fault) => found.push(fault)?,
        None => add_doubled_converter(converter, pairs, found)?,
    }
    Ok(())
}

/// Returns the first of the types and the term of a converter that is not known.
fn unknown_name<'a>(
    known: &Names,
    terms: &TermLookup,
    converter: &'a Converter,
) -> Option<Fault<'a>>
    ensures { option_map fault_of result
        ≡ unknown_name (is_type_in known.now) (term_in terms.now) (conversion_of converter.now) }
{
    let Converter {
        term,
        inner_ty,
        outer_ty,
        ..
    } = converter;
    if !is_type(known, inner_ty.0.as_str()) {
        return Some(Fault {
            kind: Kind::InnerTypeUnknown(inner_ty),
            pos: inner_ty.1,
        });
    }
    if !is_type(known, outer_ty.0.as_str()) {
        return Some(Fault {
            kind: Kind::OuterTypeUnknown(outer_ty),
            pos: outer_ty.1,
        });
    }
    if terms.lacks(term.0.as_str()) {
        return Some(Fault {
            kind: Kind::ConverterUnknown(term),
            pos: term.1,
        });
    }
    None
}

fn add_doubled_converter<'a>(
    converter: &'a Converter,
    pairs: &mut Pairs<'a>,
    found: &mut Vec<Fault<'a>>,
) -> Result<(), AllocError>
    ensures { OnOk result ((earlier : List Conversion) → KnowsPairs pairs.old earlier
        → KnowsPairs pairs.new (earlier ++ conversion_of converter.now ∷ [])
        × (faults_of found.new.items ≡ faults_of found.old.items
        ++ doubled_converter earlier (conversion_of converter.now))) }
{
    let inner = &converter.inner_ty;
    let outer = &converter.outer_ty;
    if add_pair(converter, pairs)? {
        found.push(Fault {
            kind: Kind::ConverterAgain { inner, outer },
            pos: converter.pos,
        })?;
    }
    Ok(())
}

/// Adds the types of a converter. Returns whether they were there.
fn add_pair<'a>(converter: &'a Converter, pairs: &mut Pairs<'a>) -> Result<bool, AllocError>
    ensures { IfOk result
        (λ again. (earlier : List Conversion) → KnowsPairs pairs.old earlier
        → KnowsPairs pairs.new (earlier ++ conversion_of converter.now ∷ [])
        × (again ≡ has_pair earlier (conversion_of converter.now).inner_ty.text
        (conversion_of converter.now).outer_ty.text)) }
{
    let inner = converter.inner_ty.0.as_str();
    let outer = converter.outer_ty.0.as_str();
    let is_new = pairs.insert((inner, outer))?;
    Ok(!is_new)
}
