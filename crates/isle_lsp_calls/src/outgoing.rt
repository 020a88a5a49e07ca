//! Outgoing calls: the terms that the rules and the extractor of a term use.

ghost use Rattle.std.specs.Prelude.{◌≡◌, IfOk, filter, map, option_map, option_to_list};
ghost use Rattle.std.specs.Prelude.{slice_get};
ghost use Rattle.std.specs.List.{All, list_any};
ghost use Rattle.serde_json.specs.View.{view};
ghost use Rattle.isle_index.specs.Held.{all_in};
ghost use Rattle.isle_index.specs.Occurrences.{occurrence_at};
ghost use Rattle.isle_lsp_calls.specs.Items.{term_at};
ghost use Rattle.isle_lsp_calls.specs.Outgoing as wanted;
ghost use Rattle.isle_lsp_calls.specs.Outgoing.{AreAsked, AreCallsOf, IsCallOf};
ghost use Rattle.isle_lsp_calls.specs.Outgoing.{IsOutgoing, IsOutgoingOf};
ghost use Rattle.isle_lsp_calls.specs.Outlines.{IsOutline, outlined};
ghost use Rattle.isle_lsp_calls.specs.Rulers.{IsRuler};
ghost use Rattle.isle_lsp_calls.specs.Sources.{source_of};

use crate::Source;
use crate::items::{add_some, item_among, term_at};
use crate::outlines::{Outline, outlines};
use crate::ranges::calls_in;
use crate::rulers::{Ruler, ruler_of};
use isle_base::lexer::Pos;
use isle_index::{Index, Kind, Name, Occurrence};
use isle_lsp_protocol::results::outgoing_call;
use isle_lsp_text::calls::{Caller, callers, words};
use isle_lsp_text::positions::PositionEncoding;
use serde_json::Value;
use std::alloc::{AllocError, Global};
use std::slice;

/// The calls by the definitions that implement the term at a place of a text, by the term that is
/// called, in the order in which the terms are first there, or null if there is no term at the
/// place.
///
/// Only definitions of the same text count. If the place is at the name that one of them
/// implements, it alone counts. Terms that are not defined are left out.
pub fn outgoing(
    alloc: Global,
    encoding: PositionEncoding,
    program: &[Source],
    index: &Index,
    place: Pos,
    text: &str,
) -> Result<Value, AllocError>
    ensures { let all = all_in index.now in IfOk result (λ value. IsOutgoing encoding
        (map source_of program.now) place.file text.now (term_at place all)
        (occurrence_at place all) all (view value)) }
{
    match (term_at(alloc, index, place)?, index.occurrence_at(place)) {
        (Some(name), Some(at)) => {
            let found = index.occurrences(alloc, &name)?;
            outgoing_of(
                alloc, encoding, program, index, place.file, text, &found, at,
            )
        }
        _ => Ok(Value::Null),
    }
}

/// The same for a term with these occurrences, at one of them.
fn outgoing_of(
    alloc: Global,
    encoding: PositionEncoding,
    program: &[Source],
    index: &Index,
    number: usize,
    text: &str,
    found: &[Occurrence],
    at: Occurrence,
) -> Result<Value, AllocError>
    ensures { IfOk result (λ value. IsOutgoingOf encoding (map source_of program.now) number
        text.now found.now at (all_in index.now) (view value)) }
{
    let callers = asked_callers(alloc, number, text, found, at)?;
    let words = words(alloc, text, &callers)?;
    if words.is_empty() {
        return Ok(Value::Array(Vec::new(alloc)));
    }
    let outlines = outlines(alloc, program)?;
    let ruler = ruler_of(alloc, encoding, text)?;
    let calls = calls_of(alloc, &outlines, index, number, &ruler, &callers, &words)?;
    Ok(Value::Array(calls))
}

/// The definitions of the text with this number that implement a term with these occurrences; that
/// at `at` alone, if there is one.
fn asked_callers(
    alloc: Global,
    number: usize,
    text: &str,
    found: &[Occurrence],
    at: Occurrence,
) -> Result<Vec<Caller>, AllocError>
    ensures { IfOk result (λ asked. AreAsked number text.now found.now at asked.items) }
{
    let callers = callers(alloc, text)?;
    if implements_some(&callers, at.pos.offset) {
        implementing(alloc, number, slice::from_ref(&at), &callers)
    } else {
        implementing(alloc, number, found, &callers)
    }
}

/// Returns whether one of these definitions implements the name at an offset.
fn implements_some(callers: &[Caller], offset: usize) -> bool
    ensures { result ≡ list_any (wanted.is_named offset) callers.now }
{
    for caller in callers {
        if caller.name == offset {
            return true;
        }
    }
    false
}

/// Those of the definitions that implement the name at one of these occurrences.
fn implementing(
    alloc: Global,
    number: usize,
    found: &[Occurrence],
    callers: &[Caller],
) -> Result<Vec<Caller>, AllocError>
    ensures { IfOk result (λ asked. asked.items
        ≡ filter (wanted.implements number found.now) callers.now) }
{
    let mut asked = Vec::new(alloc);
    for caller in callers {
        if implements(number, found, caller) {
            asked.push(*caller)?;
        }
    }
    Ok(asked)
}

/// Returns whether a definition of the text with this number implements the name at one of these
/// occurrences.
fn implements(number: usize, found: &[Occurrence], caller: &Caller) -> bool
    ensures { result ≡ wanted.implements number found.now caller.now }
{
    for occurrence in found {
        if occurrence.pos.file == number && occurrence.pos.offset == caller.name {
            return true;
        }
    }
    false
}

/// The calls by these definitions of the terms that have these names.
fn calls_of(
    alloc: Global,
    outlines: &[Outline],
    index: &Index,
    number: usize,
    ruler: &Ruler,
    callers: &[Caller],
    words: &[&str],
) -> Result<Vec<Value>, AllocError>
    requires outlines { All IsOutline outlines.now }
    requires ruler { IsRuler ruler.now }
    ensures { IfOk result (λ calls. AreCallsOf ruler.now.encoding (map outlined outlines.now) number
        ruler.now.text.now callers.now (all_in index.now) (map (λ word. word.now) words.now)
        (map view calls.items)) }
{
    let mut calls = Vec::new(alloc);
    for word in words {
        let call = call_of(alloc, outlines, index, number, ruler, callers, word)?;
        add_some(&mut calls, call)?;
    }
    Ok(calls)
}

/// The calls by these definitions of the term that has this name, if there are any.
fn call_of(
    alloc: Global,
    outlines: &[Outline],
    index: &Index,
    number: usize,
    ruler: &Ruler,
    callers: &[Caller],
    word: &str,
) -> Result<Option<Value>, AllocError>
    requires outlines { All IsOutline outlines.now }
    requires ruler { IsRuler ruler.now }
    ensures { IfOk result (λ call. IsCallOf ruler.now.encoding (map outlined outlines.now) number
        ruler.now.text.now callers.now (all_in index.now) word.now
        (option_to_list (option_map view call))) }
{
    let kind = Kind::Term;
    let name = Name::Global {
        kind,
        text: String::from_str(alloc, word)?,
    };
    let found = index.occurrences(alloc, &name)?;
    let ranges = calls_in(alloc, number, ruler, callers, &found)?;
    if ranges.is_empty() {
        return Ok(None);
    }
    match item_among(alloc, outlines, &name, first_defined(&found))? {
        Some(to) => Ok(Some(outgoing_call(alloc, to, &ranges)?)),
        None => Ok(None),
    }
}

/// The first of these occurrences that is a definition.
fn first_defined(found: &[Occurrence]) -> Option<Occurrence>
    ensures { result ≡ slice_get (filter (λ o. o.is_definition) found.now) 0 }
{
    for occurrence in found {
        if occurrence.is_definition {
            return Some(*occurrence);
        }
    }
    None
}
