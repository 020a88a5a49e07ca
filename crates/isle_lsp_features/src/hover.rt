//! The documentation of a name, for hover and for completions.

ghost use Rattle.std.specs.Prelude.{◌≡◌, IfOk, Some, map, option_map, string_bytes};
ghost use Rattle.serde_json.specs.View.{view};
ghost use Rattle.isle_lsp_features.specs.Programs.{text_of};
ghost use Rattle.isle_resolve.specs.Names.{named_of};
ghost use Rattle.isle_index.specs.Occurrences.{name_at, occurrence_at};
ghost use Rattle.isle_index.specs.Held.{all_in};
ghost use Rattle.isle_lsp_features.specs.Completed.{item_name};
ghost use Rattle.isle_lsp_features.specs.Shown as wanted;
ghost use Rattle.isle_lsp_features.specs.Shown.{IsCut, IsFirstShown, IsHover, IsResolved, IsShown};
ghost use Rattle.isle_lsp_features.specs.Shown.{IsShownOf};

use crate::Text;
use crate::completion::item_name;
use crate::places::Place;
use isle_index::{Index, Name, Occurrence};
use isle_lsp_calls::items::extent_of;
use isle_lsp_protocol::results::{hover_value, with_documentation};
use isle_lsp_text::comments::comments_start;
use isle_lsp_text::lists::lists;
use isle_lsp_text::ranges::range_at;
use serde_json::Value;
use std::alloc::{AllocError, Global};

/// The hover at a place: the source of the definition of the name there, with the line comments
/// above it, or null if there is none.
pub fn hover(
    alloc: Global,
    program: &[Text],
    index: &Index,
    place: Place,
) -> Result<Value, AllocError>
    ensures { let all = all_in index.now in IfOk result (λ value.
        IsHover place.entry.encoding (map text_of program.now) place.entry.text.now
        (name_at place.entry.pos all) (occurrence_at place.entry.pos all) all (view value)) }
{
    match (
        index.name_at(alloc, place.pos)?,
        index.occurrence_at(place.pos),
    ) {
        (Some(name), Some(occurrence)) => {
            let shown = documentation(alloc, program, index, &name)?;
            hover_at(alloc, place, shown, occurrence)
        }
        _ => Ok(Value::Null),
    }
}

/// The hover of an occurrence in the text of a place, with this documentation.
fn hover_at(
    alloc: Global,
    place: Place,
    shown: Option<String>,
    occurrence: Occurrence,
) -> Result<Value, AllocError>
    ensures { IfOk result (λ value. view value
        ≡ wanted.hover_data place.entry.encoding place.entry.text.now
        (option_map string_bytes shown) occurrence) }
{
    match shown {
        Some(shown) => {
            let range = range_at(
                place.encoding,
                place.text,
                occurrence.pos.offset,
                occurrence.len,
            );
            hover_value(alloc, shown.as_str(), range)
        }
        None => Ok(Value::Null),
    }
}

/// A completion item with the documentation of its name, or unchanged if there is none.
pub fn resolve(
    alloc: Global,
    program: &[Text],
    index: &Index,
    item: &Value,
) -> Result<Value, AllocError>
    ensures { IfOk result (λ value. IsResolved (map text_of program.now) (all_in index.now)
        (item_name (view item.now)) (view item.now) (view value)) }
{
    match item_name(alloc, item)? {
        Some(name) => {
            let shown = documentation(alloc, program, index, &name)?;
            resolve_with(alloc, item, shown)
        }
        None => item.clone(),
    }
}

/// A completion item with this documentation, if any.
fn resolve_with(alloc: Global, item: &Value, shown: Option<String>) -> Result<Value, AllocError>
    ensures { IfOk result (λ value. view value
        ≡ wanted.resolved_data (view item.now) (option_map string_bytes shown)) }
{
    match shown {
        Some(shown) => with_documentation(alloc, item, shown.as_str()),
        None => item.clone(),
    }
}

/// The documentation of a name, which is its first definition, or `None` if it is not defined.
fn documentation(
    alloc: Global,
    program: &[Text],
    index: &Index,
    name: &Name,
) -> Result<Option<String>, AllocError>
    ensures { IfOk result (λ shown. IsShownOf (map text_of program.now)
        (named_of name.now) (all_in index.now) (option_map string_bytes shown)) }
{
    let found = index.definitions(alloc, name)?;
    match found.first() {
        Some(definition) => documentation_at(alloc, program, name, *definition),
        None => Ok(None),
    }
}

/// The documentation of a definition, or `None` if its text is not in the program.
fn documentation_at(
    alloc: Global,
    program: &[Text],
    name: &Name,
    definition: Occurrence,
) -> Result<Option<String>, AllocError>
    ensures { IfOk result (λ shown. IsFirstShown (map text_of program.now)
        (named_of name.now) (Some definition) (option_map string_bytes shown)) }
{
    match program.get(definition.pos.file) {
        Some(source) => {
            let shown = definition_text(alloc, source.text, name, definition)?;
            Ok(Some(shown))
        }
        None => Ok(None),
    }
}

/// The source of a definition as a block of Markdown, with the comments above it.
fn definition_text(
    alloc: Global,
    text: &str,
    name: &Name,
    definition: Occurrence,
) -> Result<String, AllocError>
    ensures { IfOk result
        (λ shown. IsShown text.now (named_of name.now) definition (string_bytes shown)) }
{
    let lists = lists(alloc, text)?;
    let whole = extent_of(text, &lists, name, definition);
    let start = comments_start(alloc, text, whole.from)?;
    let part = cut(text, start, whole.to);
    format!(in alloc; "```isle\n{part}\n```")
}

/// The text from one offset to another, or nothing if that splits a character.
fn cut(text: &str, from: usize, to: usize) -> &str
    ensures { IsCut text.now from to result.now }
{
    match text.get(from..to) {
        Some(part) => part,
        None => "",
    }
}
