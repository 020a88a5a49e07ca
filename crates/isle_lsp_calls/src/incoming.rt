//! Incoming calls: the rules and extractors of a program that use a term.

ghost use Rattle.std.specs.Prelude.{◌≡◌, ◌++◌, IfOk, List, OnOk, map, option_map, option_to_list};
ghost use Rattle.serde_json.specs.Data.{Data};
ghost use Rattle.serde_json.specs.View.{view};
ghost use Rattle.isle_index.specs.Held.{all_in};
ghost use Rattle.isle_lsp_calls.specs.Incoming as wanted;
ghost use Rattle.isle_lsp_calls.specs.Incoming.{AreIncomingFrom, AreIncomingIn, IsIncoming};
ghost use Rattle.isle_lsp_calls.specs.Items.{pos, term_at};
ghost use Rattle.isle_lsp_calls.specs.Rulers.{IsRuler};
ghost use Rattle.isle_lsp_calls.specs.Sources.{source, source_of};

use crate::Source;
use crate::items::{add_some, term_at};
use crate::ranges::{calls_in, has_some};
use crate::rulers::{Ruler, range_at, range_from, ruler_of};
use isle_base::lexer::Pos;
use isle_index::{Index, Occurrence};
use isle_lsp_protocol::results::{CallItem, call_item, incoming_call};
use isle_lsp_text::calls::{Caller, callers};
use isle_lsp_text::positions::Range;
use serde_json::Value;
use std::alloc::{AllocError, Global};
use std::slice;

/// The calls of the term at a place, by the definition that makes them, text by text, or null if
/// there is no term.
///
/// The definitions are those that implement a term (`callers` of `isle_lsp_text`), and their calls
/// all occurrences of the term in them, except for the name that they implement.
pub fn incoming(
    alloc: Global,
    program: &[Source],
    index: &Index,
    place: Pos,
) -> Result<Value, AllocError>
    ensures { let all = all_in index.now in IfOk result (λ value.
        IsIncoming (map source_of program.now) (term_at place all) all (view value)) }
{
    match term_at(alloc, index, place)? {
        Some(name) => {
            let found = index.occurrences(alloc, &name)?;
            let calls = incoming_among(alloc, program, index, &found)?;
            Ok(Value::Array(calls))
        }
        None => Ok(Value::Null),
    }
}

/// The calls that are among these occurrences, text by text.
fn incoming_among(
    alloc: Global,
    program: &[Source],
    index: &Index,
    found: &[Occurrence],
) -> Result<Vec<Value>, AllocError>
    ensures { IfOk result (λ calls. AreIncomingFrom 0 (map source_of program.now)
        (all_in index.now) found.now (map view calls.items)) }
{
    let mut calls = Vec::new(alloc);
    for (number, source) in program.iter().enumerate() {
        add_incoming(alloc, number, *source, index, found, &mut calls)?;
    }
    Ok(calls)
}

/// Adds the calls by the definitions of the text with this number. A text without an occurrence is
/// not read.
fn add_incoming(
    alloc: Global,
    number: usize,
    source: Source,
    index: &Index,
    found: &[Occurrence],
    calls: &mut Vec<Value>,
) -> Result<(), AllocError>
    ensures { OnOk result ((here : List Data)
        × AreIncomingIn number (source_of source.entry) (all_in index.now) found.now here
        × (map view calls.new.items ≡ map view calls.old.items ++ here)) }
{
    if !has_some(number, found) {
        return Ok(());
    }
    let callers = callers(alloc, source.text)?;
    let ruler = ruler_of(alloc, source.encoding, source.text)?;
    for caller in &callers {
        let call = incoming_in(alloc, number, source.uri, &ruler, index, caller, found)?;
        add_some(calls, call)?;
    }
    Ok(())
}

/// The calls by a definition of the text with this number, if there are any.
fn incoming_in(
    alloc: Global,
    number: usize,
    uri: &str,
    ruler: &Ruler,
    index: &Index,
    caller: &Caller,
    found: &[Occurrence],
) -> Result<Option<Value>, AllocError>
    requires { IsRuler ruler.now }
    ensures { IfOk result (λ call. option_to_list (option_map view call)
        ≡ wanted.incoming_in number (source ruler.now.encoding uri.now ruler.now.text.now)
        (all_in index.now) found.now caller.now) }
{
    let ranges = calls_in(alloc, number, ruler, slice::from_ref(caller), found)?;
    if ranges.is_empty() {
        return Ok(None);
    }
    by_caller(alloc, number, uri, ruler, index, caller, &ranges)
}

/// The calls in these ranges by a definition of the text with this number, if it implements a term.
fn by_caller(
    alloc: Global,
    number: usize,
    uri: &str,
    ruler: &Ruler,
    index: &Index,
    caller: &Caller,
    ranges: &[Range],
) -> Result<Option<Value>, AllocError>
    requires { IsRuler ruler.now }
    ensures { let place = pos number caller.now.name in IfOk result (λ call.
        option_to_list (option_map view call) ≡ wanted.by_caller
        (source ruler.now.encoding uri.now ruler.now.text.now) caller.now
        (term_at place (all_in index.now)) ranges.now) }
{
    match term_at(alloc, index, Pos::new(number, caller.name))? {
        Some(name) => {
            let from = caller_item(alloc, uri, ruler, caller, name.text())?;
            Ok(Some(incoming_call(alloc, from, ranges)?))
        }
        None => Ok(None),
    }
}

/// The item of a definition that implements this name.
fn caller_item(
    alloc: Global,
    uri: &str,
    ruler: &Ruler,
    caller: &Caller,
    name: &str,
) -> Result<Value, AllocError>
    requires { IsRuler ruler.now }
    ensures { IfOk result (λ item. view item
        ≡ wanted.caller_item (source ruler.now.encoding uri.now ruler.now.text.now) caller.now
        name.now) }
{
    let range = range_from(ruler, caller.from, caller.to);
    let selection = range_at(ruler, caller.name, name.len());
    call_item(
        alloc,
        CallItem {
            name,
            uri,
            range,
            selection,
        },
    )
}
