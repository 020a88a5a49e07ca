//! The items of the call hierarchy: the terms of a program, by their definitions.

ghost use Rattle.std.specs.Prelude.{◌≡◌, ◌++◌, IfOk, OnOk, Some, map, option_map, option_to_list};
ghost use Rattle.std.specs.List.{All};
ghost use Rattle.serde_json.specs.View.{view};
ghost use Rattle.isle_index.specs.Held.{all_in};
ghost use Rattle.isle_lsp_calls.specs.Items as wanted;
ghost use Rattle.isle_lsp_calls.specs.Items.{IsFirstItem, IsItem, IsItemIn, IsPrepared, item_list};
ghost use Rattle.isle_lsp_calls.specs.Outlines.{IsOutline, outlined};
ghost use Rattle.isle_lsp_calls.specs.Sources.{source_of};
ghost use Rattle.isle_resolve.specs.Names.{named_of};

use crate::Source;
use crate::outlines::{Outline, outline_of};
use crate::rulers::{range_at, range_from};
use isle_base::lexer::Pos;
use isle_index::{Index, Kind, Name, Occurrence};
use isle_lsp_protocol::results::{CallItem, call_item};
use isle_lsp_text::lists::ListSpan;
use isle_lsp_text::wholes::{Part, whole_of};
use serde_json::Value;
use std::alloc::{AllocError, Global};

/// The item of the term at a place, in a list, or null if there is none.
pub fn prepare(
    alloc: Global,
    program: &[Source],
    index: &Index,
    place: Pos,
) -> Result<Value, AllocError>
    ensures { let all = all_in index.now in IfOk result (λ value.
        IsPrepared (map source_of program.now) (wanted.term_at place all) all (view value)) }
{
    match term_at(alloc, index, place)? {
        Some(name) => {
            let item = item_of(alloc, program, index, &name)?;
            item_list(alloc, item)
        }
        None => Ok(Value::Null),
    }
}

/// The name at a place, if it is that of a term.
pub(crate) fn term_at(alloc: Global, index: &Index, place: Pos) -> Result<Option<Name>, AllocError>
    ensures { IfOk result
        (λ name. option_map named_of name ≡ wanted.term_at place (all_in index.now)) }
{
    match index.name_at(alloc, place)? {
        Some(name) if is_term(&name) => Ok(Some(name)),
        _ => Ok(None),
    }
}

/// Returns whether a name is that of a term.
pub fn is_term(name: &Name) -> bool
    ensures { result ≡ wanted.is_term (named_of name.now) }
{
    match name {
        Name::Global { kind, .. } => matches!(kind, Kind::Term),
        Name::Variable { .. } => false,
    }
}

/// The item of a name, which is its first definition, or `None` if it is not defined.
fn item_of(
    alloc: Global,
    program: &[Source],
    index: &Index,
    name: &Name,
) -> Result<Option<Value>, AllocError>
    ensures { IfOk result (λ item. IsItem (map source_of program.now) (named_of name.now)
        (all_in index.now) (option_map view item)) }
{
    let found = index.definitions(alloc, name)?;
    match found.first() {
        Some(definition) => item_at(alloc, program, name, *definition),
        None => Ok(None),
    }
}

/// The item of a definition, or `None` if its text is not in the program.
fn item_at(
    alloc: Global,
    program: &[Source],
    name: &Name,
    definition: Occurrence,
) -> Result<Option<Value>, AllocError>
    ensures { IfOk result (λ item. IsFirstItem (map source_of program.now) (named_of name.now)
        (Some definition) (option_map view item)) }
{
    match program.get(definition.pos.file) {
        Some(source) => {
            let outline = outline_of(alloc, *source)?;
            let item = item_in(alloc, &outline, name, definition)?;
            Ok(Some(item))
        }
        None => Ok(None),
    }
}

/// The item of a definition among texts with their lists, or `None` if it is in none of them.
pub(crate) fn item_among(
    alloc: Global,
    outlines: &[Outline],
    name: &Name,
    definition: Option<Occurrence>,
) -> Result<Option<Value>, AllocError>
    requires { All IsOutline outlines.now }
    ensures { IfOk result (λ item. IsFirstItem (map outlined outlines.now) (named_of name.now)
        definition (option_map view item)) }
{
    let Some(definition) = definition else {
        return Ok(None);
    };
    match outlines.get(definition.pos.file) {
        Some(outline) => {
            let item = item_in(alloc, outline, name, definition)?;
            Ok(Some(item))
        }
        None => Ok(None),
    }
}

/// The item of a definition in this text: its name, and the extent of the whole definition.
fn item_in(
    alloc: Global,
    outline: &Outline,
    name: &Name,
    definition: Occurrence,
) -> Result<Value, AllocError>
    requires { IsOutline outline.now }
    ensures { IfOk result (λ item.
        IsItemIn (outlined outline.now) (named_of name.now) definition (view item)) }
{
    let ruler = &outline.ruler;
    let whole = extent_of(ruler.text, &outline.lists, name, definition);
    let range = range_from(ruler, whole.from, whole.to);
    let selection = range_at(ruler, definition.pos.offset, definition.len);
    let (name, uri) = (name.text(), outline.uri);
    call_item(
        alloc,
        CallItem {
            name,
            uri,
            range,
            selection,
        },
    )
}

/// The extent of the whole definition of a name, by the lists of its text.
pub fn extent_of(text: &str, lists: &[ListSpan], name: &Name, definition: Occurrence) -> Part
    ensures { result ≡ wanted.extent_of text.now lists.now (named_of name.now) definition }
{
    let is_variant = is_variant(name, definition);
    whole_of(
        text,
        lists,
        is_variant,
        definition.pos.offset,
        definition.len,
    )
}

/// Returns whether a definition of a name is a variant: it is written shorter than its name, which
/// begins with the name of its type.
pub fn is_variant(name: &Name, definition: Occurrence) -> bool
    ensures { result ≡ wanted.is_variant (named_of name.now) definition }
{
    definition.len < name.text().len()
}

/// A list of an item, or null if there is none.
fn item_list(alloc: Global, item: Option<Value>) -> Result<Value, AllocError>
    ensures { IfOk result (λ value. view value ≡ item_list (option_map view item)) }
{
    match item {
        Some(item) => {
            let mut items = Vec::new(alloc);
            items.push(item)?;
            Ok(Value::Array(items))
        }
        None => Ok(Value::Null),
    }
}

/// Adds a value to a list, if there is one.
pub(crate) fn add_some(values: &mut Vec<Value>, value: Option<Value>) -> Result<(), AllocError>
    ensures { OnOk result (map view values.new.items
        ≡ map view values.old.items ++ option_to_list (option_map view value)) }
{
    if let Some(value) = value {
        values.push(value)?;
    }
    Ok(())
}
